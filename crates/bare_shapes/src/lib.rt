//! Shapes that say nothing yet, for tests that make shapes by hand.
//!
//! `bare_shape` gives a node shape of which all but the node is empty, and a test puts in what it asks for. No program
//! stands on this crate.
//!
//! Storey: tests.
#![tactic(auto)]

ghost use Rattle.std.specs.Prelude.{◌≡◌, [], None, false};

use collections::Sequence;
use shape_ast::Shape;
use std::alloc::Global;

/// The node shape (SHACL section 2) that has the node, and no target, constraint or message. It takes no memory.
pub fn bare_shape<T: Ord>(alloc: Global, node: T) -> Shape<T>
    ensures { result ≡ record {
      node = node;
      path = None;
      is_deactivated = false;
      severity = None;
      messages = [];
      targets = [];
      constraints = [];
      pattern = None;
      flags = None;
      properties = [];
      qualified = None;
      siblings = [];
      ignored = [];
    } }
{
    Shape {
        node,
        path: None,
        is_deactivated: false,
        severity: None,
        messages: Sequence::new(alloc),
        targets: Sequence::new(alloc),
        constraints: Sequence::new(alloc),
        pattern: None,
        flags: None,
        properties: Sequence::new(alloc),
        qualified: None,
        siblings: Sequence::new(alloc),
        ignored: Sequence::new(alloc),
    }
}
