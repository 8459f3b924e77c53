//! A broken rule.
ghost use Rattle.std.specs.Prelude.{◌≡◌, IfOk};
ghost use Rattle.shape_rules.specs.Rows.{optional_cmp, row_cmp};

use rdf_model::Term;
use std::alloc::AllocError;
use std::cmp::Ordering;

/// A rule that a node of a shapes graph breaks.
#[derive(Debug, PartialEq, Eq)]
pub struct RuleRow {
    pub node: Term,
    /// The rule's number in the table of rules.
    pub rule: u8,
    /// The value, the member or the property that breaks it, if the rule speaks of one.
    pub value: Option<Term>,
}

impl Drop for RuleRow {
    fn drop(self) {
        let RuleRow {
            node: _,
            rule: _,
            value: _,
        } = self;
    }
}

fn compare_optional(left: &Option<Term>, right: &Option<Term>) -> Ordering
    ensures { result ≡ optional_cmp left.now right.now }
{
    match (left, right) {
        (None, None) => Ordering::Equal,
        (None, Some(_)) => Ordering::Less,
        (Some(_), None) => Ordering::Greater,
        (Some(left), Some(right)) => left.cmp(right),
    }
}

fn optional_clone(value: &Option<Term>) -> Result<Option<Term>, AllocError>
    ensures { IfOk result (λ copy. copy ≡ value.now) }
{
    match value {
        Some(value) => Ok(Some(value.clone()?)),
        None => Ok(None),
    }
}

impl RuleRow {
    pub(crate) fn copied(&self) -> Result<RuleRow, AllocError>
        ensures { IfOk result (λ copy. copy ≡ self.now) }
    {
        Ok(RuleRow {
            node: self.node.clone()?,
            rule: self.rule,
            value: optional_clone(&self.value)?,
        })
    }

    /// By node, rule and value, no value before a value.
    pub fn compare(&self, other: &RuleRow) -> Ordering
        ensures { result ≡ row_cmp self.now other.now }
    {
        self.node
            .cmp(&other.node)
            .then(self.rule.cmp(&other.rule))
            .then(compare_optional(&self.value, &other.value))
    }
}
