ghost use Rattle.std.specs.Prelude.{◌≡◌, ◌<◌, ◌≤◌, ◌++◌, ◌∷◌, [], length, vec_len, vec_capacity, IfOk, OnOk, OnErr};
ghost use Rattle.vx_base.specs.Shelf.{Fetches};
ghost use Rattle.vx_files.specs.Adapters.{EndsWithin};

use std::alloc::{AllocError, Global};
use std::fs;
use std::io::{ErrorKind, Read};
use std::marker::Model;
use std::rt::Files;
use vx_base::{Bytes, Fetched, Shelf, Text};

/// How many bytes a read takes at most.
const PIECE: usize = 4096;

/// How the reading of a file ended.
#[derive(Clone, Copy, PartialEq, Eq, Debug)]
pub enum Ended {
    /// The file's end was read.
    AtEnd,
    /// More bytes than the limit were read.
    PastLimit,
    /// A read failed, or the file could not be opened.
    AtFault,
}

/// Reads bytes behind those that were read, up to one more than the limit. A read that is interrupted is tried again.
fn read_through<I: Read>(file: &mut I, bytes: &mut Vec<u8>, limit: u64) -> Result<Ended, AllocError>
    ensures { IfOk result (EndsWithin (length bytes.new.items) limit) }
{
    let mut piece = [0; PIECE];
    for _ in 0..u64::MAX {
        let read = bytes.len() as u64;
        if read > limit {
            return Ok(Ended::PastLimit);
        }
        let most = (limit - read).saturating_add(1).min(PIECE as u64) as usize;
        match file.read(&mut piece[..most]) {
            Ok(0) => return Ok(Ended::AtEnd),
            Ok(count) => bytes.extend_from_slice(&piece[..count])?,
            Err(error) if error.kind() == ErrorKind::Interrupted => {}
            Err(_) => return Ok(Ended::AtFault),
        }
    }
    Ok(Ended::AtFault)
}

/// Opens the file of that name and reads it, up to one byte more than the limit.
fn read_file<R: Files>(
    files: &R,
    name: &str,
    bytes: &mut Vec<u8>,
    limit: u64,
) -> Result<Ended, AllocError>
    ensures { IfOk result (EndsWithin (length bytes.new.items) limit) }
{
    match fs::open(files, name) {
        Ok(mut file) => read_through(&mut file, bytes, limit),
        Err(_) => Ok(Ended::AtFault),
    }
}

/// The system's files. It tells nothing of what they hold. It keeps the names that were asked for, how many bytes the
/// last fetch took, and how many faults there were.
#[derive(Drop)]
pub struct FileShelf<R: Files> {
    files: R,
    asked: Vec<Text>,
    received: u64,
    faults: u64,
}

impl<R: Files> Model for FileShelf<R> {
    ghost use Rattle.vx_files.specs.Adapters.{FileShelfView};

    ghost Value = { FileShelfView };

    ghost view = { λ s. record { asked = s.asked.items; received = s.received; faults = s.faults } };
}

/// The text of a name, and room for it among the names that were asked for.
fn text_with_room(alloc: Global, asked: &mut Vec<Text>, name: &str) -> Result<Text, AllocError>
    ensures text { IfOk result (λ text. text ≡ name.now) }
    ensures same { asked.new.items ≡ asked.old.items }
    ensures room { OnOk result (vec_len asked.new < vec_capacity asked.new) }
{
    asked.reserve(1)?;
    Ok(Text::of(Vec::from_slice(alloc, name.as_bytes())?))
}

/// Adds a name for which there is room.
fn add(asked: &mut Vec<Text>, name: Text)
    requires { vec_len asked.old < vec_capacity asked.old }
    ensures { asked.new.items ≡ asked.old.items ++ name ∷ [] }
{
    match asked.push(name) {
        Ok(()) => {}
        Err(_) => unreachable!(),
    }
}

impl<R: Files> FileShelf<R> {
    /// A shelf of the system's files, of which nothing was asked yet.
    pub fn new(alloc: Global, files: R) -> FileShelf<R>
        ensures { result ≡ record { asked = []; received = 0; faults = 0 } }
    {
        FileShelf {
            files,
            asked: Vec::new(alloc),
            received: 0,
            faults: 0,
        }
    }
}

impl<R: Files> Shelf for FileShelf<R> {
    ghost use Rattle.vx_files.specs.Adapters.{file_shelf_told};

    ghost state = { file_shelf_told };

    fn fetch(&mut self, alloc: Global, name: &str, limit: u64) -> Result<Fetched, AllocError> {
        let text = text_with_room(alloc, &mut self.asked, name)?;
        let mut bytes = Vec::new(alloc);
        let ended = read_file(&self.files, name, &mut bytes, limit)?;
        add(&mut self.asked, text);
        self.received = bytes.len() as u64;
        Ok(match ended {
            Ended::AtEnd => Fetched::Got(Bytes::of(bytes)),
            Ended::PastLimit => Fetched::TooLong,
            Ended::AtFault => {
                self.faults = self.faults.saturating_add(1);
                Fetched::Failed
            }
        })
    }
}

#[cfg(test)]
mod tests {
    use super::*;
    use std::test::Fail;
    use std::{env, io, process};

    /// A reader that is interrupted first, gives two bytes then, and fails after that.
    #[derive(Drop)]
    struct Broken {
        reads: u8,
    }

    impl Read for Broken {
        fn read(&mut self, buf: &mut [u8]) -> io::Result<usize> {
            self.reads = self.reads.saturating_add(1);
            match self.reads {
                1 => Err(io::Error::from(ErrorKind::Interrupted)),
                2 => Ok(buf.len().min(2)),
                _ => Err(io::Error::from(ErrorKind::TimedOut)),
            }
        }
    }

    #[test]
    fn a_file_is_fetched(rt: HostRuntime) -> Result<(), Fail> {
        let alloc = rt.alloc();
        let folder = env::temp_dir(&rt)?;
        let id = process::id(rt.process());
        let path = format!(in alloc; "{}/vx_files-{id}", folder.as_path().display())?;
        let mut bytes = vec![in alloc; 0u8; 5000]?;
        for i in 0..5000 {
            bytes[i] = (i % 251) as u8;
        }
        fs::write(&rt, path.as_str(), bytes.as_slice())?;
        let mut shelf = FileShelf::new(alloc, &rt);
        let whole = shelf.fetch(alloc, path.as_str(), 5000)?;
        let long = shelf.fetch(alloc, path.as_str(), 4999)?;
        let received = shelf.received;
        fs::write(&rt, path.as_str(), b"".as_slice())?;
        let empty = shelf.fetch(alloc, path.as_str(), 5000)?;
        fs::remove_file(&rt, path.as_str())?;
        let absent = shelf.fetch(alloc, path.as_str(), 5000)?;
        match &whole {
            Fetched::Got(got) => assert_eq!(rt; got.slice(), bytes.as_slice()),
            _ => assert!(rt; false),
        }
        assert!(rt; matches!(&long, Fetched::TooLong));
        assert_eq!(rt; received, 5000);
        match &empty {
            Fetched::Got(got) => assert_eq!(rt; got.len(), 0),
            _ => assert!(rt; false),
        }
        assert!(rt; matches!(&absent, Fetched::Failed));
        assert_eq!(rt; shelf.faults, 1);
        assert_eq!(rt; shelf.asked.len(), 4);
        Ok(())
    }

    #[test]
    fn a_read_fails_in_the_middle(rt: HostRuntime) -> Result<(), Fail> {
        let mut bytes = Vec::new(rt.alloc());
        let ended = read_through(&mut Broken { reads: 0 }, &mut bytes, 8)?;
        assert_eq!(rt; ended, Ended::AtFault);
        assert_eq!(rt; bytes.len(), 2);
        Ok(())
    }
}
