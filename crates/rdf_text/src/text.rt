//! A text whose clones share its characters.
ghost use Rattle.std.specs.Prelude.{◌≡◌, nat_eq, IfOk, string_bytes};
ghost use Rattle.std.proofs.Common.{rules};
ghost use Rattle.std.specs.Cmp.{partial_equiv_from_equiv};
ghost use Rattle.std.specs.Cmp.Rules.{comparing};
ghost use Rattle.std.specs.Cmp.Lexicographic.{slice_cmp, nat_list_cmp_total, nat_list_eq_equiv, texts_po, texts_ties};
ghost use Rattle.std.specs.Ordering.{nat_cmp, as_partial_cmp};
ghost use Rattle.rdf_text.specs.Bytes.{bytes_of};
ghost use lib.Pointwise.{pointwise};

use arrayvec::ArrayString;
use std::alloc::{AllocError, Global};
use std::cmp::Ordering;
use std::fmt;
use std::marker::Model;
use std::sync::Arc;

// The longest text, in bytes, that stands beside the count of its owners. A longer one has memory of its own.
const SHORT: usize = 40;

#[derive(Debug, Drop)]
enum Characters {
    Short(ArrayString<SHORT>),
    Long(String),
}

impl Characters {
    // A copy of the text.
    fn new(alloc: Global, text: &str) -> Result<Characters, AllocError>
        ensures { IfOk result (λ characters. bytes_of characters ≡ text.now) }
    {
        match ArrayString::from(text) {
            Ok(short) => Ok(Characters::Short(short)),
            Err(_) => Ok(Characters::Long(String::from_str(alloc, text)?)),
        }
    }

    // The text of a `String`, which is kept where it is long.
    fn from_string(string: String) -> Characters
        ensures { bytes_of result ≡ string_bytes string }
    {
        match ArrayString::from(&string) {
            Ok(short) => Characters::Short(short),
            Err(_) => Characters::Long(string),
        }
    }

    fn as_str(&self) -> &str
        ensures { result.now ≡ bytes_of self.now }
    {
        match self {
            Characters::Short(short) => short.as_str(),
            Characters::Long(long) => long.as_str(),
        }
    }
}

/// A text, ordered by its UTF-8 bytes. Its clones share its characters.
#[derive(Debug, Drop)]
pub struct Text {
    characters: Arc<Characters>,
}

impl Model for Text {
    ghost use Rattle.std.specs.Prelude.{List, ℕ};
    ghost use Rattle.std.specs.Arc.{arc_value};
    ghost use Rattle.rdf_text.specs.Bytes.{bytes_of};

    ghost Value = { List ℕ };

    ghost view = { λ t. bytes_of (arc_value t.characters) };
}

impl Text {
    /// A text with these characters.
    pub fn new(alloc: Global, characters: &str) -> Result<Text, AllocError>
        ensures { IfOk result (λ t. t ≡ characters.now) }
    {
        Ok(Text {
            characters: Arc::new(alloc, Characters::new(alloc, characters)?)?,
        })
    }

    /// The text that a `String` holds.
    pub fn from_string(string: String) -> Result<Text, AllocError>
        ensures { IfOk result (λ t. t ≡ string_bytes string) }
    {
        let alloc = *string.allocator();
        Ok(Text {
            characters: Arc::new(alloc, Characters::from_string(string))?,
        })
    }

    pub fn as_str(&self) -> &str
        ensures { result.now ≡ self.now }
    {
        self.characters.as_str()
    }
}

impl fmt::Display for Text {
    ghost use Rattle.std.specs.Prelude.{Some};

    ghost output = { λ t. Some t };

    fn fmt<W: fmt::Write>(&self, f: &mut fmt::Formatter<W>) -> fmt::Result {
        f.write_str(self.as_str())
    }
}

impl Clone for Text {
    ghost is_clone = { λ s t. t ≡ s };

    fn clone(&self) -> Result<Text, AllocError> {
        Ok(Text {
            characters: self.characters.clone()?,
        })
    }
}

impl PartialEq for Text {
    ghost eq = { λ a b. pointwise nat_eq a b };

    ghost laws = { partial_equiv_from_equiv nat_list_eq_equiv };

    fn eq(&self, other: &Text) -> bool {
        self.as_str() == other.as_str()
    }
}

impl Eq for Text {
    ghost laws = { nat_list_eq_equiv };
}

impl PartialOrd for Text {
    ghost partial_cmp = { as_partial_cmp (slice_cmp nat_cmp) };

    ghost laws = { texts_po };

    fn partial_cmp(&self, other: &Text) -> Option<Ordering> {
        Some(self.cmp(other))
    }
}

impl Ord for Text {
    ghost cmp = { slice_cmp nat_cmp };

    ghost total = { nat_list_cmp_total };

    ghost matches_partial_cmp = { Prim.search (comparing, rules) };

    ghost matches_eq = { texts_ties };

    fn cmp(&self, other: &Text) -> Ordering {
        self.as_str().cmp(&other.as_str())
    }
}
