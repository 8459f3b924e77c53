// A file of the system as a disk.
ghost use Rattle.std.specs.Prelude.{◌≡◌, ◌≤◌, [], None, IfOk, length};
ghost use Rattle.disk.specs.Crashes.{settled};
ghost use Rattle.disk.specs.Faults.{Rose};
ghost use Rattle.disk.specs.Memory.{HostState};

use crate::{Disk, DiskFault, Failed};
use rdf_text::Text;
use std::alloc::Global;
use std::fs::{self, OpenFile, OpenOptions};
use std::io::{self, ErrorKind, Read, Seek, SeekFrom, Write};
use std::marker::Model;
use std::rt::Files;

// Places are numbers below this.
const PLACES: u64 = 1 << 63;

/// A file of the system. It tells no bytes.
///
/// A name that no file has is a disk without bytes, and its first write creates the file. A sync hands
/// the file to `fsync`, and after the file was created its folder too, so that a crash keeps its name.
#[derive(Drop)]
pub struct HostDisk<'a, R: Files> {
    rt: &'a R,
    chosen: Option<Text>,
    file: Option<R::File>,
    is_new: bool,
    faults: u64,
}

impl<'a, R: Files> Model for HostDisk<'a, R> {
    ghost use Rattle.disk.specs.Memory.{HostState};

    ghost Value = { HostState };

    ghost view = { λ d. record { chosen = d.chosen; faults = d.faults } };
}

impl<'a, R: Files> HostDisk<'a, R> {
    /// A disk for which no name was chosen. It takes no memory.
    pub fn new(rt: &'a R) -> Self
        ensures { result ≡ record { chosen = None; faults = 0 } }
    {
        HostDisk {
            rt,
            chosen: None,
            file: None,
            is_new: false,
            faults: 0,
        }
    }
}

// The file of this name, or none where there is none.
fn open_file<R: Files>(rt: &R, name: &str) -> io::Result<Option<R::File>> {
    match OpenOptions::new().read(true).write(true).open(rt, name) {
        Ok(file) => Ok(Some(file)),
        Err(error) if error.kind() == ErrorKind::NotFound => Ok(None),
        Err(error) => Err(error),
    }
}

// A new file of this name.
fn create_file<R: Files>(rt: &R, chosen: &Option<Text>) -> io::Result<R::File> {
    match chosen {
        Some(name) => fs::File::create_new(rt, name.as_str()),
        None => Err(io::Error::from(ErrorKind::NotFound)),
    }
}

// Makes the name of a new file durable in its folder.
fn sync_folder<R: Files>(rt: &R, chosen: &Option<Text>) -> io::Result<()> {
    let Some(name) = chosen else {
        return Ok(());
    };
    let folder = match name.as_str().rsplit_once('/') {
        Some(("", _)) => "/",
        Some((folder, _)) => folder,
        None => ".",
    };
    fs::open(rt, folder)?.sync_all()
}

fn read_at<F: Read + Seek>(file: &mut F, alloc: Global, at: u64, n: usize) -> io::Result<Vec<u8>>
    ensures { IfOk result (λ v. length v.items ≤ n) }
{
    let mut bytes = vec![in alloc; 0; n]?;
    file.seek(SeekFrom::Start(at))?;
    file.read_exact(&mut bytes)?;
    Ok(bytes)
}

fn write_at<F: Write + Seek>(file: &mut F, at: u64, piece: &[u8]) -> io::Result<()> {
    file.seek(SeekFrom::Start(at))?;
    file.write_all(piece)
}

impl<'a, R: Files> HostDisk<'a, R> {
    // Counts a fault.
    fn fail(&mut self) -> Failed
        ensures chosen { self.new.chosen ≡ self.old.chosen }
        ensures faults { (self.old.faults ≤ self.new.faults) × Rose self.old.faults self.new.faults }
    {
        self.faults = self.faults.saturating_add(1);
        Failed
    }

    // Writes to the file, which is created where there is none.
    fn write(&mut self, at: u64, piece: &[u8]) -> io::Result<()>
        ensures { self.new ≡ self.old }
    {
        if let Some(file) = &mut self.file {
            return write_at(file, at, piece);
        }
        let mut file = create_file(self.rt, &self.chosen)?;
        self.is_new = true;
        let done = write_at(&mut file, at, piece);
        self.file = Some(file);
        done
    }

    // Syncs the file, and the folder of a new one.
    fn sync_all(&mut self) -> io::Result<()>
        ensures { self.new ≡ self.old }
    {
        if let Some(file) = &self.file {
            file.sync_all()?;
        }
        if self.is_new {
            sync_folder(self.rt, &self.chosen)?;
            self.is_new = false;
        }
        Ok(())
    }
}

// How many bytes there are.
fn length_of<F: Seek>(file: &mut Option<F>) -> io::Result<u64> {
    match file {
        Some(file) => file.seek(SeekFrom::End(0)),
        None => Ok(0),
    }
}

// The bytes of a file, or of none.
fn read_file<F: Read + Seek>(
    file: &mut Option<F>,
    alloc: Global,
    at: u64,
    n: usize,
) -> io::Result<Vec<u8>>
    ensures { IfOk result (λ v. length v.items ≤ n) }
{
    match file {
        Some(file) => read_at(file, alloc, at, n),
        None if n == 0 => Ok(Vec::new(alloc)),
        None => Err(io::Error::from(ErrorKind::UnexpectedEof)),
    }
}

impl<'a, R: Files> Disk for HostDisk<'a, R> {
    ghost tells = { ⊥ };

    ghost bytes = { λ _. [] };

    ghost history = { λ _. record { past = []; now = settled [] } };

    ghost chosen = { λ d. d.chosen };

    ghost faults = { λ d. d.faults };

    fn choose(&mut self, alloc: Global, name: &str) -> Result<(), DiskFault> {
        self.chosen = Some(Text::new(alloc, name)?);
        self.is_new = false;
        match open_file(self.rt, name) {
            Ok(file) => {
                self.file = file;
                Ok(())
            }
            Err(_) => {
                self.file = None;
                self.fail();
                Err(DiskFault::Failed)
            }
        }
    }

    fn len(&mut self) -> Result<u64, Failed> {
        match length_of(&mut self.file) {
            Ok(n) if n < PLACES => Ok(n),
            _ => Err(self.fail()),
        }
    }

    fn read(&mut self, alloc: Global, at: u64, n: usize) -> Result<Vec<u8>, DiskFault> {
        match read_file(&mut self.file, alloc, at, n) {
            Ok(bytes) => Ok(bytes),
            Err(error) if error.kind() == ErrorKind::OutOfMemory => Err(DiskFault::Memory),
            Err(_) => {
                self.fail();
                Err(DiskFault::Failed)
            }
        }
    }

    fn write_at(&mut self, at: u64, piece: &[u8]) -> Result<(), Failed> {
        if at >= PLACES || piece.len() as u64 >= PLACES - at {
            return Err(self.fail());
        }
        match self.write(at, piece) {
            Ok(()) => Ok(()),
            Err(_) => Err(self.fail()),
        }
    }

    fn sync(&mut self) -> Result<(), Failed> {
        match self.sync_all() {
            Ok(()) => Ok(()),
            Err(_) => Err(self.fail()),
        }
    }
}
