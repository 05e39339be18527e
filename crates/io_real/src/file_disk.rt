//! A file as a disk.

ghost use Rattle.std.specs.Prelude.{◌≡◌, ◌≤◌, Ok, IfOk, length};
ghost use Rattle.io_edges.specs.Faults.{HasCause};

use disk::Disk;
use io_edges::{Failed, Word};
use std::fs::{File, OpenOptions};
use std::io;
use std::os::unix::fs::FileExt;
use std::rt::Files;

/// The file at a path, as a disk. It is opened at the first call, and made where it is missing; while it is open the whole file
/// is locked, so that a second process that opens it so gets a fault (`flock`, as POSIX systems have it). A call that a signal
/// interrupts goes on.
#[derive(Drop)]
pub struct FileDisk<'a, R: Files<File = File>> {
    rt: &'a R,
    path: &'a Word,
    file: Option<File>,
    failed: u64,
}

impl<'a, R: Files<File = File>> FileDisk<'a, R> {
    /// The file at this path. Nothing is opened yet.
    pub fn at(rt: &'a R, path: &'a Word) -> FileDisk<'a, R> {
        FileDisk {
            rt,
            path,
            file: None,
            failed: 0,
        }
    }

    // What a call on the file gave; where it failed, that is counted.
    fn counted<T: Drop>(&mut self, done: io::Result<T>) -> Result<T, Failed>
        ensures value { IfOk result (λ value. done ≡ Ok value) }
        ensures cause { HasCause self.old.failed self.new.failed result }
    {
        match done {
            Ok(value) => Ok(value),
            Err(_) => {
                self.failed = self.failed.saturating_add(1);
                Err(Failed)
            }
        }
    }

    fn length(&mut self) -> io::Result<u64>
        ensures count { self.new.failed ≡ self.old.failed }
    {
        Ok(
            opened(&mut self.file, self.rt, self.path)?
                .metadata()?
                .len(),
        )
    }

    fn read_from(&mut self, at: u64, into: &mut [u8]) -> io::Result<usize>
        ensures count { self.new.failed ≡ self.old.failed }
        ensures bound { IfOk result (λ count. count ≤ length into.new) }
    {
        let file = opened(&mut self.file, self.rt, self.path)?;
        let count = filled(file, at, into)?;
        if count == 0 && !into.is_empty() && at < file.metadata()?.len() {
            return Err(io::Error::from(io::ErrorKind::UnexpectedEof));
        }
        Ok(count)
    }

    fn write_to(&mut self, at: u64, bytes: &[u8]) -> io::Result<()>
        ensures count { self.new.failed ≡ self.old.failed }
    {
        opened(&mut self.file, self.rt, self.path)?.write_all_at(bytes, at)
    }

    fn sync_now(&mut self) -> io::Result<()>
        ensures count { self.new.failed ≡ self.old.failed }
    {
        opened(&mut self.file, self.rt, self.path)?.sync_all()
    }

    fn cut_to(&mut self, len: u64) -> io::Result<()>
        ensures count { self.new.failed ≡ self.old.failed }
    {
        let file = opened(&mut self.file, self.rt, self.path)?;
        if file.metadata()?.len() > len {
            file.set_len(len)?;
        }
        Ok(())
    }
}

// The open file. Where it isn't open it is opened for reading and writing, made where it is missing, and locked whole.
fn opened<'f, R: Files<File = File>>(
    file: &'f mut Option<File>,
    rt: &R,
    path: &Word,
) -> io::Result<&'f File> {
    if file.is_none() {
        let mut options = OpenOptions::new();
        options.read(true).write(true).create(true);
        let made = options.open(rt, path.as_str())?;
        made.try_lock()?;
        *file = Some(made);
    }
    match file {
        Some(file) => Ok(file),
        None => Err(io::Error::from(io::ErrorKind::NotFound)),
    }
}

// Reads from an offset on until the piece is full or the file ends, and answers how many bytes it read.
fn filled(file: &File, at: u64, into: &mut [u8]) -> io::Result<usize>
    ensures bound { IfOk result (λ count. count ≤ length into.new) }
{
    let mut count = 0;
    for _ in 0..u64::MAX {
        if count >= into.len() {
            break;
        }
        match file.read_at(&mut into[count..], at.wrapping_add(count as u64)) {
            Ok(0) => break,
            Ok(more) => count += more,
            Err(error) if error.kind() == io::ErrorKind::Interrupted => {}
            Err(error) => return Err(error),
        }
    }
    Ok(count)
}

impl<R: Files<File = File>> Disk for FileDisk<'_, R> {
    ghost use Rattle.std.specs.Prelude.{None};
    ghost use Rattle.disk.specs.Replay.{untold};

    ghost content = { λ _. None };

    ghost image = { λ _ _. ⊥ };

    ghost moment = { λ _. 0 };

    ghost image_since = { λ _ _ _. ⊥ };

    ghost faults = { λ disk. disk.failed };

    fn len(&mut self) -> Result<u64, Failed> {
        let done = self.length();
        self.counted(done)
    }

    fn read(&mut self, at: u64, into: &mut [u8]) -> Result<usize, Failed> {
        let done = self.read_from(at, into);
        self.counted(done)
    }

    fn write_at(&mut self, at: u64, bytes: &[u8]) -> Result<(), Failed> {
        let done = self.write_to(at, bytes);
        self.counted(done)
    }

    fn sync(&mut self) -> Result<(), Failed> {
        let done = self.sync_now();
        self.counted(done)
    }

    fn cut(&mut self, len: u64) -> Result<(), Failed> {
        let done = self.cut_to(len);
        self.counted(done)
    }

    ghost gives_image = { λ disk bytes told. untold bytes told };

    ghost counts_now = { λ disk since bytes later is. is };

    ghost only_now = { λ disk bytes is. is };
}
