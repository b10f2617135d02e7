ghost use Rattle.std.specs.Prelude.{◌≡◌, ◌≢◌, [], ◌∷◌, ◌++◌, IfOk, OnOk, OnErr, option_copied};
ghost use Rattle.vx_base.specs.Shelf.{Fetches};
ghost use Rattle.vx_base.specs.NamedFiles.{bytes_under, bytes_or_none};
ghost use Rattle.vx_base.specs.MemoryShelf.{shelf_told, sure_shelf_told, found_next, Answers, taken, FetchesInMemory, FetchesSurely};

use crate::bytes::Bytes;
use crate::shelf::{Fetched, Shelf};
use crate::text::Text;
use std::alloc::{AllocError, Global};
use std::marker::Model;

/// A file of a shelf in memory.
#[derive(Debug, Drop)]
pub struct NamedFile {
    pub name: Text,
    pub bytes: Bytes,
}

/// The file of that name, the first where there are several.
fn file_named<'a>(files: &'a [NamedFile], name: &[u8]) -> Option<&'a Bytes>
    ensures { option_copied result ≡ bytes_under files.now name.now }
{
    for file in files {
        if file.name.slice() == name {
            return Some(&file.bytes);
        }
    }
    None
}

/// The text of a name.
fn text_of(alloc: Global, name: &str) -> Result<Text, AllocError>
    ensures { IfOk result (λ text. text ≡ name.now) }
{
    Ok(Text::of(Vec::from_slice(alloc, name.as_bytes())?))
}

/// Adds a name to those that were asked for. For want of memory nothing changes.
fn ask(asked: &mut Vec<Text>, alloc: Global, name: &str) -> Result<(), AllocError>
    ensures asks { OnOk result (asked.new.items ≡ asked.old.items ++ name.now ∷ []) }
    ensures unasked { OnErr result (asked.new.items ≡ asked.old.items) }
{
    asked.push(text_of(alloc, name)?)?;
    Ok(())
}

/// What a fetch answers that finds these bytes: a copy of them, or that they are more than the limit.
fn copied(alloc: Global, bytes: &[u8], limit: u64) -> Result<Fetched, AllocError>
    ensures { IfOk result (λ fetched. Answers (Some bytes.now) limit fetched) }
{
    if bytes.len() as u64 > limit {
        return Ok(Fetched::TooLong);
    }
    Ok(Fetched::Got(Bytes::of(Vec::from_slice(alloc, bytes)?)))
}

/// What a fetch answers that finds these bytes, or none.
fn answer(alloc: Global, found: Option<&Bytes>, limit: u64) -> Result<Fetched, AllocError>
    ensures { IfOk result (λ fetched. Answers (option_copied found.entry) limit fetched) }
{
    match found {
        None => Ok(Fetched::Failed),
        Some(bytes) => copied(alloc, bytes.slice(), limit),
    }
}

/// How many bytes a fetch takes that finds these, or none.
fn size_of(found: Option<&Bytes>) -> u64
    ensures { result ≡ taken (option_copied found.entry) }
{
    match found {
        None => 0,
        Some(bytes) => bytes.len() as u64,
    }
}

/// Files in memory. It tells all, and fails the fetches whose numbers it was given.
#[derive(Debug, Drop)]
pub struct MemShelf {
    files: Vec<NamedFile>,
    fails: Vec<u64>,
    asked: Vec<Text>,
    received: u64,
    calls: u64,
    faults: u64,
}

impl Model for MemShelf {
    ghost use Rattle.vx_base.specs.MemoryShelf.{MemShelfView};

    ghost Value = { MemShelfView };

    ghost view = { λ s. record {
      files = s.files.items;
      fails = s.fails.items;
      asked = s.asked.items;
      received = s.received;
      calls = s.calls;
      faults = s.faults;
    } };
}

impl MemShelf {
    /// A shelf of these files, of which nothing was asked yet. Of two with one name the first counts. The fetches with
    /// the numbers in `fails`, counted from 1 and in rising order, fail; so does one of a name that no file has.
    pub fn new(alloc: Global, files: Vec<NamedFile>, fails: Vec<u64>) -> MemShelf
        ensures { result ≡ record {
          files = files.items;
          fails = fails.items;
          asked = [];
          received = 0;
          calls = 0;
          faults = 0;
        } }
    {
        MemShelf {
            files,
            fails,
            asked: Vec::new(alloc),
            received: 0,
            calls: 0,
            faults: 0,
        }
    }

    /// The bytes that the next fetch of the name finds.
    fn found(&self, name: &str) -> Option<&Bytes>
        ensures { option_copied result ≡ found_next self.now name.now }
    {
        if self.fails.contains(&self.calls.saturating_add(1)) {
            return None;
        }
        file_named(self.files.as_slice(), name.as_bytes())
    }
}

impl Shelf for MemShelf {
    ghost use Rattle.vx_base.specs.MemoryShelf.{shelf_told};

    ghost state = { shelf_told };

    fn fetch(&mut self, alloc: Global, name: &str, limit: u64) -> Result<Fetched, AllocError>
        ensures told { Fetches (shelf_told self.old) (shelf_told self.new) name.now limit result }
        ensures exact { FetchesInMemory self.old self.new name.now limit result }
    {
        let found = self.found(name);
        let received = size_of(found);
        let fetched = answer(alloc, found, limit)?;
        ask(&mut self.asked, alloc, name)?;
        self.received = received;
        self.calls = self.calls.saturating_add(1);
        if let Fetched::Failed = fetched {
            self.faults = self.faults.saturating_add(1);
        }
        Ok(fetched)
    }
}

/// Files in memory, with the empty file under every other name. It tells all, and never fails.
#[derive(Debug, Drop)]
pub struct SureShelf {
    files: Vec<NamedFile>,
    asked: Vec<Text>,
    received: u64,
}

impl Model for SureShelf {
    ghost use Rattle.vx_base.specs.MemoryShelf.{SureShelfView};

    ghost Value = { SureShelfView };

    ghost view = { λ s. record { files = s.files.items; asked = s.asked.items; received = s.received } };
}

impl SureShelf {
    /// A shelf of these files, of which nothing was asked yet. Of two with one name the first counts.
    pub fn new(alloc: Global, files: Vec<NamedFile>) -> SureShelf
        ensures { result ≡ record { files = files.items; asked = []; received = 0 } }
    {
        SureShelf {
            files,
            asked: Vec::new(alloc),
            received: 0,
        }
    }

    /// The bytes that a fetch of the name finds.
    fn found(&self, name: &str) -> &[u8]
        ensures { Some result.now ≡ bytes_or_none self.now.files name.now }
    {
        match file_named(self.files.as_slice(), name.as_bytes()) {
            None => &[],
            Some(bytes) => bytes.slice(),
        }
    }
}

impl Shelf for SureShelf {
    ghost use Rattle.vx_base.specs.MemoryShelf.{sure_shelf_told};

    ghost state = { sure_shelf_told };

    fn fetch(&mut self, alloc: Global, name: &str, limit: u64) -> Result<Fetched, AllocError>
        ensures told { Fetches (sure_shelf_told self.old) (sure_shelf_told self.new) name.now limit result }
        ensures exact { FetchesSurely self.old self.new name.now limit result }
        ensures sure { result ≢ Ok Fetched.Failed }
    {
        let found = self.found(name);
        let received = found.len() as u64;
        let fetched = copied(alloc, found, limit)?;
        ask(&mut self.asked, alloc, name)?;
        self.received = received;
        Ok(fetched)
    }
}
