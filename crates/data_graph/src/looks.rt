//! Looks by the terms of their numbers.
ghost use Rattle.std.specs.Prelude.{◌≡◌, IfOk, length, map};
ghost use Rattle.path_eval.specs.Naming.{IsBoundLook, look_of};
ghost use Rattle.parallel_validate.specs.Verdicts.{AreBoundLooks};

use numbered_patterns::read_term;
use rdf_model::{Look, Term};
use std::alloc::{AllocError, Global};
use term_dict::Dict;

// A look by the terms of its numbers.
fn read_look(names: &Dict, look: &Look<u32>) -> Result<Look<Term>, AllocError>
    requires { IsBoundLook (length names.now.terms) look.now }
    ensures { IfOk result (λ read. read ≡ look_of names.now.terms look.now) }
{
    match look {
        Look::Out(subject, predicate) => Ok(Look::Out(
            read_term(names, *subject)?,
            read_term(names, *predicate)?,
        )),
        Look::In(predicate, object) => Ok(Look::In(
            read_term(names, *predicate)?,
            read_term(names, *object)?,
        )),
        Look::OutAny(subject) => Ok(Look::OutAny(read_term(names, *subject)?)),
    }
}

/// The looks by the terms of their numbers, in their order.
pub(crate) fn read_looks(
    alloc: Global,
    names: &Dict,
    looks: &[Look<u32>],
) -> Result<Vec<Look<Term>>, AllocError>
    requires { AreBoundLooks names.now.terms looks.now }
    ensures { IfOk result (λ named. named.items ≡ map (look_of names.now.terms) looks.now) }
{
    let mut named = Vec::with_capacity(alloc, looks.len())?;
    for look in looks {
        let one = read_look(names, look)?;
        named.push(one)?;
    }
    Ok(named)
}
