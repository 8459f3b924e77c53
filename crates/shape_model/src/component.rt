//! The constraint components of SHACL Core.
ghost use Rattle.std.specs.Prelude.{◌≡◌};
ghost use Rattle.shape_model.specs.Rows.{component_number};

use std::cmp::Ordering;

/// A constraint component of SHACL Core (section 4), in the order of the report.
#[derive(Clone, Copy, Debug)]
pub enum Component {
    Class,
    Datatype,
    NodeKind,
    MinCount,
    MaxCount,
    MinExclusive,
    MinInclusive,
    MaxExclusive,
    MaxInclusive,
    MinLength,
    MaxLength,
    Pattern,
    LanguageIn,
    UniqueLang,
    Equals,
    Disjoint,
    LessThan,
    LessThanOrEquals,
    Not,
    And,
    Or,
    Xone,
    Node,
    QualifiedMinCount,
    QualifiedMaxCount,
    Closed,
    HasValue,
    In,
}

impl Component {
    /// The component's place in the order of the report, from 1 to 28.
    pub fn number(self) -> u8
        ensures { result ≡ component_number self }
    {
        match self {
            Component::Class => 1,
            Component::Datatype => 2,
            Component::NodeKind => 3,
            Component::MinCount => 4,
            Component::MaxCount => 5,
            Component::MinExclusive => 6,
            Component::MinInclusive => 7,
            Component::MaxExclusive => 8,
            Component::MaxInclusive => 9,
            Component::MinLength => 10,
            Component::MaxLength => 11,
            Component::Pattern => 12,
            Component::LanguageIn => 13,
            Component::UniqueLang => 14,
            Component::Equals => 15,
            Component::Disjoint => 16,
            Component::LessThan => 17,
            Component::LessThanOrEquals => 18,
            Component::Not => 19,
            Component::And => 20,
            Component::Or => 21,
            Component::Xone => 22,
            Component::Node => 23,
            Component::QualifiedMinCount => 24,
            Component::QualifiedMaxCount => 25,
            Component::Closed => 26,
            Component::HasValue => 27,
            Component::In => 28,
        }
    }
}

impl Ord for Component {
    ghost use Rattle.std.proofs.Common.{refl};
    ghost use Rattle.shape_model.specs.Rows.{component_cmp};
    ghost use Rattle.shape_model.specs.Orders.{component_total};

    ghost cmp = { component_cmp };

    ghost total = { component_total };

    ghost matches_partial_cmp = { λ x y. refl };

    ghost matches_eq = { λ x y. refl };

    /// By number.
    fn cmp(&self, other: &Component) -> Ordering {
        self.number().cmp(&other.number())
    }
}

impl PartialOrd for Component {
    ghost use Rattle.std.specs.Ordering.{as_partial_cmp};
    ghost use Rattle.std.specs.Cmp.{partial_order_from_total};
    ghost use Rattle.shape_model.specs.Rows.{component_cmp};
    ghost use Rattle.shape_model.specs.Orders.{component_total};

    ghost partial_cmp = { as_partial_cmp component_cmp };

    ghost laws = { partial_order_from_total component_total };

    fn partial_cmp(&self, other: &Component) -> Option<Ordering> {
        Some(self.cmp(other))
    }
}

impl PartialEq for Component {
    ghost use Rattle.std.specs.Ordering.{eq_by_cmp};
    ghost use Rattle.std.specs.Cmp.{partial_equiv_from_equiv, eq_by_cmp_equiv};
    ghost use Rattle.shape_model.specs.Rows.{component_cmp};
    ghost use Rattle.shape_model.specs.Orders.{component_total};

    ghost eq = { eq_by_cmp component_cmp };

    ghost laws = { partial_equiv_from_equiv (eq_by_cmp_equiv component_total) };

    fn eq(&self, other: &Component) -> bool {
        self.cmp(other) == Ordering::Equal
    }
}

impl Eq for Component {
    ghost use Rattle.std.specs.Cmp.{eq_by_cmp_equiv};
    ghost use Rattle.shape_model.specs.Orders.{component_total};

    ghost laws = { eq_by_cmp_equiv component_total };
}
