//! Plans of shapes that are put together by hand.
use bare_shapes::bare_shape;
use collections::{Sequence, both};
use path_ast::Path;
use rdf_model::Term;
use rdf_text::Text;
use read_plans::{LookKind, PlanFault, PlannedLook, plan};
use shape_ast::{Constraint, Shape, Shapes, ShapesComponent, Target, TermComponent};
use std::alloc::{AllocError, Global};
use std::test::Fail;

fn word(alloc: Global, text: &str) -> Result<Term, AllocError> {
    Ok(Term::Iri(Text::new(alloc, text)?))
}

fn shape_with(
    node: Term,
    path: Option<Path<Term>>,
    targets: Sequence<Target<Term>>,
    constraints: Sequence<Constraint<Term>>,
    alloc: Global,
) -> Shape<Term> {
    let mut shape = bare_shape(alloc, node);
    shape.path = path;
    shape.targets = targets;
    shape.constraints = constraints;
    shape
}

// So many constraints that have no shape in them: a letter for each, c for sh:class, e for sh:equals, v for sh:hasValue.
fn constraints(alloc: Global, letters: &[u8]) -> Result<Sequence<Constraint<Term>>, AllocError> {
    let mut all = Sequence::new(alloc);
    for letter in letters {
        let component = match letter {
            b'c' => TermComponent::Class,
            b'e' => TermComponent::Equals,
            _ => TermComponent::HasValue,
        };
        let parameter = word(alloc, "e:p")?;
        all.push(Constraint::ByTerm {
            component,
            parameter,
        })?;
    }
    Ok(all)
}

// The shape e:S alone, with the path and the constraints of the letters.
fn alone(
    alloc: Global,
    path: Option<Path<Term>>,
    letters: &[u8],
    targets: Sequence<Target<Term>>,
) -> Result<Shapes, AllocError> {
    let (node, listed) = both(word(alloc, "e:S"), constraints(alloc, letters))?;
    let mut shapes = Sequence::new(alloc);
    shapes.push(shape_with(node, path, targets, listed, alloc))?;
    Ok(Shapes { shapes })
}

// sh:and with the shape at the place 1, so many times.
fn conjunction(alloc: Global, times: usize) -> Result<Sequence<Constraint<Term>>, AllocError> {
    let mut places = Sequence::new(alloc);
    for _ in 0..times {
        places.push(1)?;
    }
    let parameter = word(alloc, "e:l")?;
    let mut all = Sequence::new(alloc);
    all.push(Constraint::ByShapes {
        component: ShapesComponent::And,
        parameter,
        shapes: places,
    })?;
    Ok(all)
}

// e:S with sh:and of e:T so many times, and e:T with the constraints of the letters.
fn doubled(alloc: Global, times: usize, letters: &[u8]) -> Result<Shapes, AllocError> {
    let (first, second) = both(word(alloc, "e:S"), word(alloc, "e:T"))?;
    let (referring, listed) = both(conjunction(alloc, times), constraints(alloc, letters))?;
    let mut shapes = Sequence::new(alloc);
    shapes.push(shape_with(first, None, Sequence::new(alloc), referring, alloc))?;
    shapes.push(shape_with(second, None, Sequence::new(alloc), listed, alloc))?;
    Ok(Shapes { shapes })
}

fn predicate(alloc: Global, text: &str) -> Result<Box<Path<Term>>, AllocError> {
    let path = Path::Predicate(word(alloc, text)?);
    Ok(Box::new(alloc, path)?)
}

// ( [ sh:inversePath e:p ] [ sh:zeroOrMorePath e:q ] )
fn circle(alloc: Global) -> Result<Path<Term>, AllocError> {
    let (back, more) = both(predicate(alloc, "e:p"), predicate(alloc, "e:q"))?;
    let mut others = Vec::new(alloc);
    others.push(Path::ZeroOrMore(more))?;
    Ok(Path::Sequence(Box::new(alloc, Path::Inverse(back))?, others))
}

// The number of rows of the first shape; where they are too many, the number that was counted.
fn count(alloc: Global, shapes: &Shapes) -> Result<(bool, usize), AllocError> {
    if shapes.shapes.is_empty() {
        return Ok((false, 0));
    }
    match plan(alloc, shapes, 0) {
        Ok(rows) => Ok((true, rows.len())),
        Err(PlanFault::TooWide { count }) => Ok((false, count)),
        Err(PlanFault::Memory) => Err(AllocError),
    }
}

// A letter for the kind of each row, and a digit for the paths of its way.
fn told(rows: &[PlannedLook]) -> u64 {
    let mut all: u64 = 0;
    for row in rows {
        let kind = match row.kind {
            LookKind::Out(_) => 1,
            LookKind::In(_) => 2,
            LookKind::OutAny => 3,
        };
        all = all
            .wrapping_mul(100)
            .wrapping_add(kind * 10)
            .wrapping_add(row.way.len() as u64);
    }
    all
}

// What is told of the rows of the first shape.
fn rows_of(alloc: Global, shapes: &Shapes) -> Result<u64, AllocError> {
    if shapes.shapes.is_empty() {
        return Ok(0);
    }
    match plan(alloc, shapes, 0) {
        Ok(rows) => Ok(told(&rows)),
        Err(_) => Err(AllocError),
    }
}

fn circle_rows(alloc: Global) -> Result<u64, AllocError> {
    let path = circle(alloc)?;
    rows_of(
        alloc,
        &alone(alloc, Some(path), b"v", Sequence::new(alloc))?,
    )
}

// In e:p at the focus node; Out e:q after ^e:p and any number of e:q.
#[test]
fn rows_of_a_path(rt: HostRuntime) -> Result<(), Fail> {
    assert_eq!(rt; circle_rows(rt.alloc())?, 2012);
    Ok(())
}

fn doubled_count(alloc: Global, times: usize, letters: &[u8]) -> Result<(bool, usize), AllocError> {
    let shapes = doubled(alloc, times, letters)?;
    count(alloc, &shapes)
}

// sh:class has two rows, sh:equals one, sh:hasValue none; each as often as the shape stands in the list.
#[test]
fn rows_count_as_often_as_their_shape_is_named(rt: HostRuntime) -> Result<(), Fail> {
    assert_eq!(rt; doubled_count(rt.alloc(), 2, b"v")?, (true, 0));
    assert_eq!(rt; doubled_count(rt.alloc(), 2, b"e")?, (true, 2));
    assert_eq!(rt; doubled_count(rt.alloc(), 2, b"cev")?, (true, 6));
    assert_eq!(rt; doubled_count(rt.alloc(), 3, b"ce")?, (true, 9));
    Ok(())
}

// 4,096 rows are the most; one more is told for all that are more.
#[test]
fn most_rows(rt: HostRuntime) -> Result<(), Fail> {
    assert_eq!(rt; doubled_count(rt.alloc(), 4_096, b"e")?, (true, 4_096));
    assert_eq!(rt; doubled_count(rt.alloc(), 4_097, b"e")?, (false, 4_097));
    assert_eq!(rt; doubled_count(rt.alloc(), 5_000, b"c")?, (false, 4_097));
    Ok(())
}

fn class_target(alloc: Global) -> Result<Sequence<Target<Term>>, AllocError> {
    let mut targets = Sequence::new(alloc);
    targets.push(Target::ImplicitClass)?;
    targets.push(Target::ObjectsOf(word(alloc, "e:p")?))?;
    Ok(targets)
}

fn target_rows(alloc: Global) -> Result<u64, AllocError> {
    let targets = class_target(alloc)?;
    rows_of(alloc, &alone(alloc, None, b"", targets)?)
}

// Out rdf:type at the focus node, Out rdfs:subClassOf after rdf:type and any number of superclasses; In e:p.
#[test]
fn rows_of_targets(rt: HostRuntime) -> Result<(), Fail> {
    assert_eq!(rt; target_rows(rt.alloc())?, 101220);
    Ok(())
}
