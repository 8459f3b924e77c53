//! Dictionaries against lists of terms.
ghost use Rattle.std.specs.Prelude.{◌<◌};

use crate::tests::rows::same;
use collections::{Sequence, contains_item};
use rdf_model::{ListNames, Names, Term, Text};
use std::alloc::{AllocError, Global};
use std::process::Abort;
use std::test::Fail;
use term_dict::{Dict, NameFault};

fn node(number: u32) -> Term {
    Term::Blank { session: 1, number }
}

fn nodes(alloc: Global, numbers: &[u32]) -> Result<Vec<Term>, AllocError> {
    let mut terms = Vec::new(alloc);
    for number in numbers {
        terms.push(node(*number))?;
    }
    Ok(terms)
}

// The numbers are these, or none and the count that is too high.
fn same_numbers(
    rt: &impl Abort,
    found: Result<Vec<u32>, NameFault>,
    want: &[u32],
    too_many: usize,
) {
    match found {
        Ok(numbers) => same(rt, "numbers", numbers.as_slice(), want),
        Err(fault) => same(rt, "a fault", fault, NameFault::Full { count: too_many }),
    }
}

// Each row names a list, and has the numbers that it gets, or none and the count that is too high.
#[test]
fn terms_get_numbers(rt: HostRuntime) -> Result<(), Fail> {
    let alloc = rt.alloc();
    let mut dict = Dict::new(alloc, 4)?;
    let rows: [(&[u32], &[u32], usize); 5] = [
        (&[7, 5, 7], &[2, 3, 2], 0),
        (&[9, 8, 6, 9], &[], 5),
        (&[9, 5], &[4, 3], 0),
        (&[6, 7, 9], &[5, 2, 4], 0),
        (&[4], &[], 5),
    ];
    for (named, want, too_many) in rows {
        let terms = nodes(alloc, named)?;
        same_numbers(&rt, dict.name_all(&terms), want, too_many);
    }
    Ok(())
}

// The numbers of terms that are named at once.
fn numbers_at_once(alloc: Global, limit: usize, terms: &[Term]) -> Result<Vec<u32>, NameFault>
    requires { limit < 1000 }
{
    let mut dict = Dict::new(alloc, limit)?;
    dict.name_all(terms)
}

// Each row is a list that is named at once, with the numbers that it gets, or none and the count that is too high.
#[test]
fn terms_get_numbers_at_once(rt: HostRuntime) -> Result<(), Fail> {
    let rows: [(&[u32], &[u32], usize); 4] = [
        (&[7, 5, 7, 5, 9], &[2, 3, 2, 3, 4], 0),
        (&[], &[], 0),
        (&[9, 8, 6, 9, 5], &[], 4),
        (&[5, 6, 7, 8, 9], &[], 5),
    ];
    for (named, want, too_many) in rows {
        let terms = nodes(rt.alloc(), named)?;
        let found = numbers_at_once(rt.alloc(), 3, &terms);
        same_numbers(&rt, found, want, too_many);
    }
    Ok(())
}

// The two answer alike for a number and for a term.
fn same_names<N: Names>(rt: &impl Abort, names: &N, list: &ListNames, number: u32) {
    let node = node(number);
    same(rt, "count", names.count(), list.count());
    same(rt, "a term", names.term(number), list.term(number));
    same(rt, "a number", names.id(&node), list.id(&node));
}

// The two terms that have a number from the start.
fn first_two(alloc: Global) -> Result<Vec<Term>, AllocError> {
    let mut terms = Vec::new(alloc);
    for iri in [
        "http://www.w3.org/1999/02/22-rdf-syntax-ns#type",
        "http://www.w3.org/2000/01/rdf-schema#subClassOf",
    ] {
        terms.push(Term::Iri(Text::new(alloc, iri)?))?;
    }
    Ok(terms)
}

// Names the term in the dictionary and in a plain list.
fn name_in_both(
    rt: &impl Abort,
    dict: &mut Dict,
    plain: &mut Vec<Term>,
    term: Term,
) -> Result<(), AllocError> {
    if !contains_item(plain, &term) {
        plain.push(term.clone()?)?;
    }
    same(rt, "is named", dict.name_all(&[term]).is_ok(), true);
    Ok(())
}

// The dictionary answers as the list of its terms does.
fn same_list(rt: &impl Abort, dict: &Dict, plain: Vec<Term>) {
    assert!(rt; plain.len() < 1000);
    let list = ListNames::from_terms(Sequence::from_vec(plain));
    for number in 0..410u32 {
        same_names(rt, dict, &list, number);
    }
}

// A dictionary that names the terms at once.
fn named_at_once(rt: &impl Abort, alloc: Global, terms: &[Term]) -> Dict {
    let Ok(mut dict) = Dict::new(alloc, 2000) else {
        panic!(rt; "there is no memory")
    };
    match dict.name_all(terms) {
        Ok(_) => dict,
        Err(_) => panic!(rt; "the terms are not named"),
    }
}

// A plain list of terms answers as the dictionary does, named one by one and at once, and a share keeps the names of before.
#[test]
fn a_plain_list_agrees(rt: HostRuntime) -> Result<(), Fail> {
    let mut dict = Dict::new(rt.alloc(), 2000)?;
    let share = dict.share()?;
    let mut plain = first_two(rt.alloc())?;
    let mut seed = 1u32;
    for _ in 0..1000u32 {
        seed = seed.wrapping_mul(1_664_525).wrapping_add(1_013_904_223);
        name_in_both(&rt, &mut dict, &mut plain, node((seed >> 8) % 400))?;
    }
    same(&rt, "count of the share", share.count(), 2);
    same_list(&rt, &named_at_once(&rt, rt.alloc(), &plain), plain.clone()?);
    same_list(&rt, &dict, plain);
    Ok(())
}
