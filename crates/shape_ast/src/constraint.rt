//! A component at a value of its parameter.
use crate::{ListComponent, Members, ShapeComponent, ShapesComponent, TermComponent};
use collections::Sequence;

/// A component at a value of its parameter (SHACL section 4), over terms or numbers of terms. Shapes are named by their
/// places in the list of all shapes. The one pattern of a shape stands apart.
#[derive(Debug, Drop)]
pub enum Constraint<T: Ord> {
    /// The component holds for the parameter.
    ByTerm {
        component: TermComponent,
        parameter: T,
    },
    /// It holds for the members of the list whose head is the parameter.
    ByList {
        component: ListComponent,
        parameter: T,
        members: Members<T>,
    },
    /// It holds for the shape that the parameter is.
    ByShape {
        component: ShapeComponent,
        parameter: T,
        shape: usize,
    },
    /// It holds for the shapes that are the members of the list whose head is the parameter.
    ByShapes {
        component: ShapesComponent,
        parameter: T,
        shapes: Sequence<usize>,
    },
}
