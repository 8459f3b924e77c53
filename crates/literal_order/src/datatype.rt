//! Datatypes by their IRIs.
ghost use Rattle.std.specs.Prelude.{◌≡◌};
ghost use Rattle.literal_order.specs.Datatypes;

use vocabulary::RDF_LANG_STRING;

/// xsd:integer and the types derived from it (XSD 1.1 Part 2, sections 3.4.13 to 3.4.25).
#[derive(Debug, Clone, Copy)]
pub enum IntegerType {
    Integer,
    NonPositiveInteger,
    NegativeInteger,
    NonNegativeInteger,
    PositiveInteger,
    Long,
    Int,
    Short,
    Byte,
    UnsignedLong,
    UnsignedInt,
    UnsignedShort,
    UnsignedByte,
}

/// What a datatype IRI says of a literal's values.
#[derive(Debug, Clone, Copy)]
pub enum Datatype {
    String,
    Boolean,
    Decimal,
    Integer(IntegerType),
    DateTime,
    Date,
    /// xsd:float or xsd:double.
    Floating,
    /// rdf:langString.
    LangString,
    Other,
}

impl IntegerType {
    fn least(self) -> Option<i128>
        ensures { result ≡ Datatypes.least self }
    {
        match self {
            IntegerType::Integer | IntegerType::NonPositiveInteger | IntegerType::NegativeInteger =>
                None,
            IntegerType::PositiveInteger => Some(1),
            IntegerType::Long => Some(-9_223_372_036_854_775_808),
            IntegerType::Int => Some(-2_147_483_648),
            IntegerType::Short => Some(-32_768),
            IntegerType::Byte => Some(-128),
            IntegerType::NonNegativeInteger
            | IntegerType::UnsignedLong
            | IntegerType::UnsignedInt
            | IntegerType::UnsignedShort
            | IntegerType::UnsignedByte => Some(0),
        }
    }

    fn greatest(self) -> Option<i128>
        ensures { result ≡ Datatypes.greatest self }
    {
        match self {
            IntegerType::Integer | IntegerType::NonNegativeInteger | IntegerType::PositiveInteger =>
                None,
            IntegerType::NonPositiveInteger => Some(0),
            IntegerType::NegativeInteger => Some(-1),
            IntegerType::Long => Some(9_223_372_036_854_775_807),
            IntegerType::Int => Some(2_147_483_647),
            IntegerType::Short => Some(32_767),
            IntegerType::Byte => Some(127),
            IntegerType::UnsignedLong => Some(18_446_744_073_709_551_615),
            IntegerType::UnsignedInt => Some(4_294_967_295),
            IntegerType::UnsignedShort => Some(65_535),
            IntegerType::UnsignedByte => Some(255),
        }
    }

    /// Whether the type has this value.
    #[tactic(auto, unfolding(crate::specs::Datatypes::is_in_range))]
    pub fn is_in_range(self, number: i128) -> bool
        ensures { result ≡ Datatypes.is_in_range self number }
    {
        is_at_least(self.least(), number) && is_at_most(self.greatest(), number)
    }
}

fn is_at_least(bound: Option<i128>, number: i128) -> bool
    ensures { result ≡ Datatypes.is_at_least bound number }
{
    match bound {
        Some(bound) => bound <= number,
        None => true,
    }
}

fn is_at_most(bound: Option<i128>, number: i128) -> bool
    ensures { result ≡ Datatypes.is_at_most bound number }
{
    match bound {
        Some(bound) => number <= bound,
        None => true,
    }
}

/// The integer type with this local name.
#[tactic(auto, unfolding(crate::specs::Datatypes::integer_type))]
fn integer_type(name: &str) -> Option<IntegerType>
    ensures { result ≡ Datatypes.integer_type name.now }
{
    match name {
        "integer" => Some(IntegerType::Integer),
        "nonPositiveInteger" => Some(IntegerType::NonPositiveInteger),
        "negativeInteger" => Some(IntegerType::NegativeInteger),
        "nonNegativeInteger" => Some(IntegerType::NonNegativeInteger),
        "positiveInteger" => Some(IntegerType::PositiveInteger),
        "long" => Some(IntegerType::Long),
        "int" => Some(IntegerType::Int),
        "short" => Some(IntegerType::Short),
        "byte" => Some(IntegerType::Byte),
        "unsignedLong" => Some(IntegerType::UnsignedLong),
        "unsignedInt" => Some(IntegerType::UnsignedInt),
        "unsignedShort" => Some(IntegerType::UnsignedShort),
        "unsignedByte" => Some(IntegerType::UnsignedByte),
        _ => None,
    }
}

/// The datatype with this name in the namespace of XML Schema.
#[tactic(auto, unfolding(crate::specs::Datatypes::local_datatype))]
fn local_datatype(name: &str) -> Datatype
    ensures { result ≡ Datatypes.local_datatype name.now }
{
    match name {
        "string" => Datatype::String,
        "boolean" => Datatype::Boolean,
        "decimal" => Datatype::Decimal,
        "dateTime" => Datatype::DateTime,
        "date" => Datatype::Date,
        "float" | "double" => Datatype::Floating,
        _ => match integer_type(name) {
            Some(integer) => Datatype::Integer(integer),
            None => Datatype::Other,
        },
    }
}

/// The datatype with this IRI.
#[tactic(auto, unfolding(crate::specs::Datatypes::datatype_of))]
pub fn datatype_of(iri: &str) -> Datatype
    ensures { result ≡ Datatypes.datatype_of iri.now }
{
    if iri == RDF_LANG_STRING {
        return Datatype::LangString;
    }
    match iri.strip_prefix("http://www.w3.org/2001/XMLSchema#") {
        Some(name) => local_datatype(name),
        None => Datatype::Other,
    }
}
