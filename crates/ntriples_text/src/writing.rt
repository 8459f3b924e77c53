//! Triples as N-Triples writes them.
ghost use Rattle.std.specs.Prelude.{◌≡◌, IfOk, string_bytes};
ghost use Rattle.ntriples_text.specs.Writing.{written};

use rdf_model::Triple;
use std::alloc::{AllocError, Global};

/// The text of triples as N-Triples 1.1 writes them: one line for each, in the order of the list.
pub fn write(alloc: Global, triples: &[Triple]) -> Result<String, AllocError>
    ensures { IfOk result (λ text. string_bytes text ≡ written triples.now) }
{
    let mut text = String::new(alloc);
    for triple in triples {
        write!(text, "{triple}\n")?;
    }
    Ok(text)
}
