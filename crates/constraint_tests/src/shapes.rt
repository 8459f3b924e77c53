//! Components that refer to shapes, and classes.
ghost use Rattle.std.specs.Prelude.{◌≡◌, ◌<◌, ◌∷◌, [], length, map};
ghost use Rattle.std.specs.List.{Contains};
ghost use Rattle.component_rows.specs.Conformance.{AreTold};

use crate::case::{Case, site_of};
use crate::checks::{are_told, have_names};
use crate::tables::{Calls, assert_table};
use component_rows::Site;
use logic_constraints::{and, node, not, or, xone};
use qualified_shapes::{qualified_max_count, qualified_min_count};
use rdf_model::{ListNames, Names};
use shape_model::ResultRow;
use std::alloc::{AllocError, Global};
use std::process::Abort;
use value_constraints::class;

// The last part has the answers to the value nodes, in order, whether each is of the class.
const CLASSES: &str = "\
Class; e:C; e:v; ; e:v; n
Class; e:D; e:v; ; e:v; n
Class; e:C; e:v _1 1^integer x@en; ; e:v 1^integer; nyny
Class; e:C; five^integer x@EN; ; five^integer; ny
Class; e:C; ; ; ;";

// The last part has for the shape, the parameter, the answers to the value nodes, whether each conforms.
const SINGLE: &str = "\
Node; e:T; e:v e:w _1 1^integer; ; e:w 1^integer; ynyn
Not; e:T; e:v e:w _1 1^integer; ; _1 e:v; ynyn
Node; e:T; ; ; ; .
Not; e:T; five^integer x@EN; ; five^integer x@en; yy
Node; e:T; five^integer x@EN; ; ; yy
Not; e:T; ; ; ; .";

// Lists of shapes, also of none and with repeats, and such answers for each member.
const LISTS: &str = "\
And; e:L; e:v e:w _1 1^integer; e:T e:U; _1 e:w 1^integer; yynn ynyn
Or; e:L; e:v e:w _1 1^integer; e:T e:U; 1^integer; yynn ynyn
Xone; e:L; e:v e:w _1 1^integer; e:T e:U; e:v 1^integer; yynn ynyn
Xone; e:L; e:v; e:T e:T; e:v; y y
Xone; e:L; e:v e:w _1; e:T e:U e:T; _1 e:v; ynn nyn ynn
Xone; e:L; e:v e:w; e:T; e:w; yn
And; e:L; e:v; ; ;
Or; e:L; e:v; ; e:v;
Xone; e:L; e:v; ; e:v;
And; e:L; e:v e:w; e:T e:T; e:w; yn yn
Or; e:L; e:v e:w; e:T e:T; e:w; yn yn
Xone; e:L; e:v; e:T e:T e:T; e:v; n n n
Xone; e:L; five^integer x@en; e:T e:U; five^integer; yn yy
Or; e:L; five^integer x@en; e:T; x@en; yn
And; e:L; ; e:T; ; .";

// The qualified shape and its siblings, and such answers for each; counts of 0, 1 and 2.
const QUALIFIED: &str = "\
QualifiedMinCount; 1^integer; e:v; e:T e:F; -; y y
QualifiedMinCount; 1^integer; e:v; e:F e:T; -; y y
QualifiedMinCount; 0^integer; e:v; e:T; ; n
QualifiedMinCount; 1^integer; e:v e:w; e:T; ; yn
QualifiedMinCount; 2^integer; e:v e:w; e:T; -; yn
QualifiedMinCount; 2^integer; e:v e:w; e:T e:F e:F; ; yy nn nn
QualifiedMinCount; 1^integer; ; e:T; -; .
QualifiedMinCount; 0^integer; ; e:T; ; .
QualifiedMinCount; 1^integer; e:v; e:T e:T; -; y y
QualifiedMinCount; 2^decimal; e:v; e:T; ; n
QualifiedMaxCount; 0^integer; e:v; e:T; -; y
QualifiedMaxCount; 0^integer; e:v; e:T; ; n
QualifiedMaxCount; 1^integer; e:v _1; e:T; -; yy
QualifiedMaxCount; 1^integer; e:v _1; e:T e:F; ; yy ny
QualifiedMaxCount; 0^integer; e:v _1; e:T e:F; -; yy ny
QualifiedMaxCount; 0^integer; e:v e:w; e:T e:F e:U; ; yy yn ny
QualifiedMaxCount; 0^integer; ; e:T; ; .
QualifiedMaxCount; -1^integer; ; e:T; -; .";

fn letters(alloc: Global, word: &str) -> Result<Vec<bool>, AllocError> {
    let mut answers = Vec::new(alloc);
    for letter in word.chars() {
        match letter {
            'y' => answers.push(true)?,
            'n' => answers.push(false)?,
            _ => {}
        }
    }
    Ok(answers)
}

// The last part of a row.
fn last_part(line: &str) -> &str {
    line.split(';').nth(5).unwrap_or("")
}

// The answers in the last part of a row.
fn answers_of(alloc: Global, line: &str) -> Result<Vec<Vec<bool>>, AllocError> {
    let mut answers = Vec::new(alloc);
    for word in last_part(line).split_ascii_whitespace() {
        answers.push(letters(alloc, word)?)?;
    }
    Ok(answers)
}

fn asked_class(
    alloc: Global,
    case: &Case<'_>,
    answers: &[bool],
) -> Result<Vec<ResultRow>, AllocError>
    requires { length answers.now ≡ length case.now.values }
{
    class(&site_of(alloc, case), answers)
}

pub(crate) fn class_rows(
    rt: &impl Abort,
    alloc: Global,
    case: &Case<'_>,
    line: &str,
) -> Result<Vec<ResultRow>, AllocError> {
    let answers = letters(alloc, last_part(line))?;
    assert_eq!(rt; answers.len(), case.values().len());
    asked_class(alloc, case, &answers)
}

fn single_by_name(
    component: &str,
    site: &Site<'_, ListNames>,
    answers: &[Vec<bool>],
) -> Result<Vec<ResultRow>, AllocError>
    requires { AreTold (site.now.parameter ∷ []) site.now.values (map (λ a. a.items) answers.now) }
{
    match component {
        "Not" => not(site, answers),
        _ => node(site, answers),
    }
}

fn asked_single(
    alloc: Global,
    case: &Case<'_>,
    answers: &[Vec<bool>],
) -> Result<Vec<ResultRow>, AllocError>
    requires { AreTold (case.now.parameter ∷ []) case.now.values (map (λ a. a.items) answers.now) }
{
    single_by_name(case.component(), &site_of(alloc, case), answers)
}

pub(crate) fn single_rows(
    rt: &impl Abort,
    alloc: Global,
    case: &Case<'_>,
    line: &str,
) -> Result<Vec<ResultRow>, AllocError> {
    let answers = answers_of(alloc, line)?;
    assert!(rt; are_told(&[case.parameter()], case.values(), &answers));
    asked_single(alloc, case, &answers)
}

fn list_by_name(
    component: &str,
    site: &Site<'_, ListNames>,
    members: &[u32],
    answers: &[Vec<bool>],
) -> Result<Vec<ResultRow>, AllocError>
    requires members { (n : _) → Contains members.now n → n < length site.now.terms }
    requires answers { AreTold members.now site.now.values (map (λ a. a.items) answers.now) }
{
    match component {
        "And" => and(site, members, answers),
        "Or" => or(site, members, answers),
        _ => xone(site, members, answers),
    }
}

fn asked_list(
    alloc: Global,
    case: &Case<'_>,
    answers: &[Vec<bool>],
) -> Result<Vec<ResultRow>, AllocError>
    requires { AreTold case.now.others case.now.values (map (λ a. a.items) answers.now) }
{
    list_by_name(
        case.component(),
        &site_of(alloc, case),
        case.others(),
        answers,
    )
}

pub(crate) fn list_rows(
    rt: &impl Abort,
    alloc: Global,
    case: &Case<'_>,
    line: &str,
) -> Result<Vec<ResultRow>, AllocError> {
    let answers = answers_of(alloc, line)?;
    assert!(rt; are_told(case.others(), case.values(), &answers));
    asked_list(alloc, case, &answers)
}

fn qualified_by_name(
    component: &str,
    site: &Site<'_, ListNames>,
    shape: u32,
    siblings: &[u32],
    answers: &[Vec<bool>],
) -> Result<Vec<ResultRow>, AllocError>
    requires shape { shape < length site.now.terms }
    requires siblings { (n : _) → Contains siblings.now n → n < length site.now.terms }
    requires answers { AreTold (shape ∷ siblings.now) site.now.values (map (λ a. a.items) answers.now) }
{
    match component {
        "QualifiedMinCount" => qualified_min_count(site, shape, siblings, answers),
        _ => qualified_max_count(site, shape, siblings, answers),
    }
}

fn asked_qualified(
    alloc: Global,
    case: &Case<'_>,
    shape: u32,
    siblings: &[u32],
    answers: &[Vec<bool>],
) -> Result<Vec<ResultRow>, AllocError>
    requires shape { shape < length case.now.names }
    requires siblings { (n : _) → Contains siblings.now n → n < length case.now.names }
    requires answers { AreTold (shape ∷ siblings.now) case.now.values (map (λ a. a.items) answers.now) }
{
    let site = site_of(alloc, case);
    qualified_by_name(case.component(), &site, shape, siblings, answers)
}

// The shape is the first of the other terms, and its siblings are the rest.
pub(crate) fn qualified_rows(
    rt: &impl Abort,
    alloc: Global,
    case: &Case<'_>,
    line: &str,
) -> Result<Vec<ResultRow>, AllocError> {
    let answers = answers_of(alloc, line)?;
    let shapes = case.others();
    assert!(rt; are_told(shapes, case.values(), &answers));
    if let [shape, siblings @ ..] = shapes {
        assert!(rt; *shape < case.names().count());
        assert!(rt; have_names(siblings, case.names()));
        return asked_qualified(alloc, case, *shape, siblings, &answers);
    }
    panic!(rt; "{line}")
}

#[test]
fn classes_and_single_shapes(rt: HostRuntime) -> Result<(), AllocError> {
    assert_table(&rt, rt.alloc(), Calls::Classes, CLASSES)?;
    assert_table(&rt, rt.alloc(), Calls::Single, SINGLE)
}

#[test]
fn lists_and_qualified_shapes(rt: HostRuntime) -> Result<(), AllocError> {
    assert_table(&rt, rt.alloc(), Calls::Lists, LISTS)?;
    assert_table(&rt, rt.alloc(), Calls::Qualified, QUALIFIED)
}
