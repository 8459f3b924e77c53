//! A store of RDF triples that guards its commits by shapes: the program.
//!
//! `run` is the whole of it: from the words and the files to the bytes that the sink takes and the
//! status, and what the disk of a log has then. Its contract is the promise of the program. `main` makes the real files,
//! standard output, the disk and the rest, and hands them to `run`.
//!
//! Storey: commands.
#![tactic(auto)]

mod answer;
#[cfg(test)]
mod device_tests;
#[cfg(test)]
mod follow_rows;
#[cfg(test)]
mod held_tests;
#[cfg(test)]
mod log_rows;
mod logged;
mod request;
mod run;
mod status;
#[cfg(test)]
mod tests;

use disk::HostDisk;
use outside::{HostFiles, HostSink, OpenGate, RegexMaker};
pub use run::run_command as run;
pub use status::Status;
use std::alloc::{AllocError, Global};
use std::env;
use std::io::ErrorKind;
use std::process::ExitCode;

// The words of the program; words that can't be had as text are none, where memory for them didn't run out.
fn words_of(rt: &HostRuntime, alloc: Global) -> Result<Vec<String>, AllocError> {
    let mut words = Vec::new(alloc);
    match env::args(rt) {
        Ok(args) => {
            for arg in args {
                words.push(arg)?;
            }
        }
        Err(error) if error.kind() == ErrorKind::OutOfMemory => return Err(AllocError),
        Err(_) => {}
    }
    Ok(words)
}

fn texts_of(alloc: Global, words: &[String]) -> Result<Vec<&str>, AllocError> {
    words.iter().map(|word| word.as_str()).collect(alloc)
}

fn main(rt: HostRuntime) -> ExitCode {
    let alloc = rt.alloc();
    let Ok(words) = words_of(&rt, alloc) else {
        return Status::Memory.exit_code();
    };
    let Ok(texts) = texts_of(alloc, &words) else {
        return Status::Memory.exit_code();
    };
    let mut files = HostFiles::new(alloc, &rt);
    let mut out = HostSink::new(&rt);
    let mut maker = RegexMaker::new(alloc);
    let disk = HostDisk::new(&rt);
    let (status, _) = run(
        &rt, alloc, &texts, &mut files, &mut out, &mut maker, &OpenGate, disk,
    );
    status.exit_code()
}
