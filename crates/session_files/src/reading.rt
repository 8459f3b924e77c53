//! The blocks of session files, read beside each other.
ghost use Rattle.std.specs.Prelude.{◌≡◌, ◌++◌, IfOk, OnOk, List, Result, map};
ghost use Rattle.std.specs.List.{All};
ghost use Rattle.std.specs.declared.alloc.AllocError.{AllocError as OutOfMemory};
ghost use Rattle.session_reader.specs.declared.read_command.ReadCommand.{ReadCommand as CommandData};
ghost use Rattle.session_reader.specs.Checking.{OnlyGrows};
ghost use Rattle.session_files.specs.Reading.{AreFinished, AreRead, IsNext, IsRead, IsReadableText, prepared_of, text_of, texts_of};

use collections::Sequence;
use outside::Maker;
use session_model::Command;
use session_reader::{ReadCommand, check_commands, read_session};
use std::alloc::{AllocError, Global};
use std::collections::VecDeque;
use std::thread;
use std::thread::Threads;

/// The text of a session, with the number of its first blank node.
#[derive(Drop)]
pub(crate) struct SessionText {
    pub session: u32,
    pub first: u32,
    pub bytes: Vec<u8>,
}

/// A session file that was loaded.
#[derive(Drop)]
pub(crate) enum LoadedFile {
    /// Its commands.
    Prepared(Sequence<Command>),
    /// Its text, the blocks of which are still to be read. Its lines are commands, none of which is of a shapes graph.
    Unread(SessionText),
}

// The texts of files that are still to be read, taken out of all that were loaded.
#[derive(Drop)]
struct TakenTexts {
    // The commands of each file that was prepared, and nothing for one that is still to be read.
    prepared: Sequence<Option<Sequence<Command>>>,
    texts: Sequence<SessionText>,
}

// Takes the text out of a file that is still to be read, or gives the commands of one that was prepared.
fn take_text(
    file: LoadedFile,
    texts: &mut Sequence<SessionText>,
) -> Result<Option<Sequence<Command>>, AllocError>
    ensures prepared { IfOk result (λ prepared. prepared ≡ prepared_of file) }
    ensures texts { OnOk result (texts.new ≡ texts.old ++ text_of file) }
{
    match file {
        LoadedFile::Prepared(commands) => Ok(Some(commands)),
        LoadedFile::Unread(text) => {
            texts.push(text)?;
            Ok(None)
        }
    }
}

// Takes the texts that are still to be read out of the files.
fn take_texts(alloc: Global, files: Sequence<LoadedFile>) -> Result<TakenTexts, AllocError>
    ensures prepared { IfOk result (λ taken. taken.prepared ≡ map prepared_of files) }
    ensures texts { IfOk result (λ taken. taken.texts ≡ texts_of files) }
{
    let mut prepared = Sequence::new(alloc);
    let mut texts = Sequence::new(alloc);
    for file in files.into_vec() {
        let commands = take_text(file, &mut texts)?;
        prepared.push(commands)?;
    }
    Ok(TakenTexts { prepared, texts })
}

// The commands of a text. Its lines are commands, so that but for want of memory they are read.
fn read_text(alloc: Global, text: SessionText) -> Result<Sequence<ReadCommand>, AllocError>
    requires { IsReadableText text }
    ensures { IsRead text result }
{
    match read_session(alloc, text.session, text.first, &text.bytes) {
        Ok(read) => Ok(read),
        Err(_) => Err(AllocError),
    }
}

// Reads the blocks of each text, in a thread of its own where one can be made.
fn read_texts<T: Threads + Sync>(
    rt: &T,
    alloc: Global,
    texts: Vec<SessionText>,
) -> Result<Vec<Result<Sequence<ReadCommand>, AllocError>>, AllocError>
    requires { All IsReadableText texts.items }
    ensures { IfOk result (λ read. AreRead texts.items read.items) }
{
    thread::map_vec(
        rt,
        texts,
        &|text: SessionText| -> Result<Sequence<ReadCommand>, AllocError>
            requires { IsReadableText text }
            ensures { IsRead text result }
        { read_text(alloc, text) },
    )
}

// The commands of a file: those that were prepared, or what becomes of the next of the texts that were read.
fn finish_file<M: Maker>(
    alloc: Global,
    maker: &mut M,
    prepared: Option<Sequence<Command>>,
    texts: &mut VecDeque<Result<Sequence<ReadCommand>, AllocError>>,
) -> Result<Sequence<Command>, AllocError>
    ensures next { IfOk result (λ commands. IsNext prepared texts.old.items texts.new.items commands (M.refused maker.old) (M.refused maker.new)) }
    ensures refused { OnlyGrows (M.refused maker.old) (M.refused maker.new) }
{
    match prepared {
        Some(commands) => Ok(commands),
        None => {
            let Some(Ok(read)) = texts.pop_front() else {
                return Err(AllocError);
            };
            check_commands(alloc, maker, read)
        }
    }
}

// The commands of each file, in their order. These texts were read, in theirs.
fn finish_files<M: Maker>(
    alloc: Global,
    maker: &mut M,
    prepared: Sequence<Option<Sequence<Command>>>,
    read: Vec<Result<Sequence<ReadCommand>, AllocError>>,
) -> Result<Sequence<Sequence<Command>>, AllocError>
    ensures finished { IfOk result (λ all. AreFinished prepared read.items all (M.refused maker.old) (M.refused maker.new)) }
    ensures refused { OnlyGrows (M.refused maker.old) (M.refused maker.new) }
{
    let mut texts = VecDeque::from_vec(read);
    let mut all = Sequence::new(alloc);
    for file in prepared.into_vec() {
        let commands = finish_file(alloc, maker, file, &mut texts)?;
        all.push(commands)?;
    }
    Ok(all)
}

/// The commands of each file. The blocks that are still to be read are read beside each other.
pub(crate) fn prepare_files<T: Threads + Sync, M: Maker>(
    rt: &T,
    alloc: Global,
    maker: &mut M,
    files: Sequence<LoadedFile>,
) -> Result<Sequence<Sequence<Command>>, AllocError>
    requires { All IsReadableText (texts_of files) }
    ensures finished { IfOk result (λ all. (read : List (Result (List CommandData) OutOfMemory)) × AreRead (texts_of files) read × AreFinished (map prepared_of files) read all (M.refused maker.old) (M.refused maker.new)) }
    ensures refused { OnlyGrows (M.refused maker.old) (M.refused maker.new) }
{
    let TakenTexts { prepared, texts } = take_texts(alloc, files)?;
    let read = read_texts(rt, alloc, texts.into_vec())?;
    let all = finish_files(alloc, maker, prepared, read)?;
    Ok(all)
}
