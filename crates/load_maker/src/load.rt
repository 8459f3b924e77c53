//! The text of a session file of a load.
ghost use Rattle.std.specs.Prelude.{◌≡◌, ◌++◌, ◌<◌, ◌≤◌, IfOk, OnOk, string_bytes};
ghost use Rattle.load_maker.specs.Workload;
ghost use Rattle.load_maker.specs.Workload.{commit_lines, lines_text, own_lines, transaction_lines, type_lines, value_lines};

use std::alloc::{AllocError, Global};

const SHAPES: &str = "\
begin
shapes turtle
@prefix sh: <http://www.w3.org/ns/shacl#> .
<e:S> sh:targetClass <e:C> ; sh:property <e:P> .
<e:P> sh:path <e:p> ; sh:minCount 1 ; sh:maxCount 2 .
%%
commit
";

// The line of the number's class, within its transaction.
fn push_type(text: &mut String, i: u32) -> Result<(), AllocError>
    ensures { OnOk result (string_bytes text.new ≡ string_bytes text.old ++ lines_text (type_lines i)) }
{
    write!(
        text,
        "begin\nadd ntriples\n<e:n{i}> <http://www.w3.org/1999/02/22-rdf-syntax-ns#type> <e:C> .\n"
    )?;
    Ok(())
}

// The line that points to another number; every tenth number has none.
#[tactic(auto, unfolding(crate::specs::Workload::value_lines))]
fn push_value(text: &mut String, n: u32, i: u32) -> Result<(), AllocError>
    requires { 0 < n }
    ensures { OnOk result (string_bytes text.new ≡ string_bytes text.old ++ lines_text (value_lines n i)) }
{
    if i % 10 == 0 {
        return Ok(());
    }
    let square = i as u64 * i as u64;
    let target = square % n as u64 + 1;
    write!(text, "<e:n{i}> <e:p> <e:n{target}> .\n")
}

#[tactic(auto, unfolding(crate::specs::Workload::commit_lines))]
fn push_commit(text: &mut String) -> Result<(), AllocError>
    ensures { OnOk result (string_bytes text.new ≡ string_bytes text.old ++ lines_text commit_lines) }
{
    write!(text, "%%\ncommit\n")
}

// The transaction of a number.
fn push_transaction(text: &mut String, n: u32, i: u32) -> Result<(), AllocError>
    requires { 0 < n }
    ensures { OnOk result (string_bytes text.new ≡ string_bytes text.old ++ lines_text (transaction_lines n i)) }
{
    push_type(text, i)?;
    push_value(text, n, i)?;
    push_commit(text)?;
    Ok(())
}

// The transaction of a number that is the session's.
#[tactic(auto, unfolding(crate::specs::Workload::own_lines))]
fn push_own(text: &mut String, n: u32, session: u32, i: u32) -> Result<(), AllocError>
    requires n { 0 < n }
    requires session { 1 ≤ session }
    requires number { 1 ≤ i }
    ensures { OnOk result (string_bytes text.new ≡ string_bytes text.old ++ lines_text (own_lines n session i)) }
{
    if (i - 1) % 4 != session - 1 {
        return Ok(());
    }
    push_transaction(text, n, i)
}

/// The file of a session, one of four, that plays its share of n transactions behind the shapes for them.
#[tactic(auto, unfolding(crate::specs::Workload::workload, crate::specs::Workload::shapes_lines))]
pub fn workload(alloc: Global, n: u32, session: u32) -> Result<Vec<u8>, AllocError>
    requires n { (1 ≤ n) × (n ≤ 100000) }
    requires session { (1 ≤ session) × (session ≤ 4) }
    ensures { IfOk result (λ text. text.items ≡ Workload.workload n session) }
{
    let mut text = String::from_str(alloc, SHAPES)?;
    for before in 0..n {
        push_own(&mut text, n, session, before + 1)?;
    }
    Ok(text.into_bytes())
}
