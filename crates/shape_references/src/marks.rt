// Marks at the numbers of the nodes from which chains of so many steps lead.
ghost use Rattle.std.specs.Prelude.{◌≡◌, ◌⊎◌, ◌↔◌, ◌<◌, ◌+◌, ℕ, Some, true, false, IfOk, get_or, length};
ghost use Rattle.shape_references.specs.Steps.{AreInside, AreMarks, marked_in};

use crate::steps::Step;
use std::alloc::{AllocError, Global};

/// Whether there is a mark at the number.
pub(crate) fn is_marked(marks: &[bool], number: Option<usize>) -> bool
    ensures { result ≡ marked_in marks.now number }
{
    let Some(index) = number else {
        return false;
    };
    match marks.get(index) {
        Some(mark) => *mark,
        None => false,
    }
}

fn put_mark(marks: &mut [bool], number: Option<usize>)
    requires { (i : ℕ) → number ≡ Some i → i < length marks.old }
    ensures { (i : ℕ) → (get_or marks.new i false ≡ true) ↔ ((get_or marks.old i false ≡ true) ⊎ (number ≡ Some i)) }
{
    if let Some(index) = number {
        marks[index] = true;
    }
}

// Marks where the step begins, if it ends at one of the goals.
fn mark_before(goals: &[bool], step: Step, marks: &mut [bool])
    requires { (i : ℕ) → step.from ≡ Some i → i < length marks.old }
    ensures { (i : ℕ) → (get_or marks.new i false ≡ true)
        ↔ ((get_or marks.old i false ≡ true) ⊎ ((step.from ≡ Some i) × (marked_in goals.now step.to ≡ true))) }
{
    if is_marked(goals, step.to) {
        put_mark(marks, step.from);
    }
}

// Marks where steps begin.
fn mark_starts(steps: &[Step], marks: &mut [bool])
    requires steps { AreInside steps.now }
    requires room { length marks.old ≡ length steps.now }
    requires none { (i : ℕ) → get_or marks.old i false ≡ false }
    ensures { AreMarks steps.now 1 marks.new }
{
    for step in steps {
        put_mark(marks, step.from);
    }
}

// Marks where steps to the goals begin.
fn mark_all_before(goals: &[bool], steps: &[Step], marks: &mut [bool])
    requires steps { AreInside steps.now }
    requires room { length marks.old ≡ length steps.now }
    requires none { (i : ℕ) → get_or marks.old i false ≡ false }
    ensures { (k : ℕ) → 0 < k → AreMarks steps.now k goals.now → AreMarks steps.now (k + 1) marks.new }
{
    for step in steps {
        mark_before(goals, *step, marks);
    }
}

fn no_marks(alloc: Global, count: usize) -> Result<Vec<bool>, AllocError>
    ensures room { IfOk result (λ marks. length marks.items ≡ count) }
    ensures none { IfOk result (λ marks. (i : ℕ) → get_or marks.items i false ≡ false) }
{
    Ok(vec![in alloc; false; count]?)
}

fn first_marks(alloc: Global, steps: &[Step]) -> Result<Vec<bool>, AllocError>
    requires { AreInside steps.now }
    ensures { IfOk result (λ marks. AreMarks steps.now 1 marks.items) }
{
    let mut marks = no_marks(alloc, steps.len())?;
    mark_starts(steps, marks.as_mut_slice());
    Ok(marks)
}

fn marks_before(alloc: Global, steps: &[Step], goals: &[bool]) -> Result<Vec<bool>, AllocError>
    requires { AreInside steps.now }
    ensures { IfOk result (λ marks. (k : ℕ) → 0 < k → AreMarks steps.now k goals.now → AreMarks steps.now (k + 1) marks.items) }
{
    let mut marks = no_marks(alloc, steps.len())?;
    mark_all_before(goals, steps, marks.as_mut_slice());
    Ok(marks)
}

fn has_mark(marks: &[bool]) -> bool
    ensures { (result ≡ false) → (i : ℕ) → get_or marks.now i false ≡ false }
{
    for mark in marks {
        if *mark {
            return true;
        }
    }
    false
}

/// Marks at the numbers from which a chain of so many steps leads.
pub(crate) fn marks_with_chain(
    alloc: Global,
    steps: &[Step],
    count: usize,
) -> Result<Vec<bool>, AllocError>
    requires steps { AreInside steps.now }
    requires count { 0 < count }
    ensures { IfOk result (λ marks. AreMarks steps.now count marks.items) }
{
    let mut marks = first_marks(alloc, steps)?;
    for _length in 1..count {
        if !has_mark(marks.as_slice()) {
            return Ok(marks);
        }
        marks = marks_before(alloc, steps, marks.as_slice())?;
    }
    Ok(marks)
}
