ghost use Rattle.std.specs.Prelude.{◌≡◌, IfOk, IfErr};
ghost use Rattle.vx_base.specs.Shelf.{Reads};
ghost use Rattle.vx_read.specs.Images.{image_of};
ghost use Rattle.vx_words.specs.Notes.{file_limit};
ghost use Rattle.vx_words.specs.Words.{name_of};
ghost use Rattle.vx_words.specs.Words.ImageFile.{Raw, Elf};
ghost use Rattle.vx_top.specs.Files.{IsImageIn, RefusesBytes, RefusesFile};

use crate::notes::FILE_LIMIT;
use crate::refusal::Refusal;
use std::alloc::Global;
use vx_base::{Bytes, Fetched, Shelf};
use vx_elf::read_elf;
use vx_image::{Image, image_of, raw_image};
use vx_read::ImageWord;
use vx_words::FileFault;

/// The bytes of the file of that name.
pub fn read_file<F: Shelf>(alloc: Global, name: &str, shelf: &mut F) -> Result<Bytes, Refusal>
    ensures read { IfOk result (Reads (F.state shelf.old) (F.state shelf.new) name.now file_limit) }
    ensures refused { IfErr result (RefusesFile (F.state shelf.old) (F.state shelf.new) name.now) }
{
    match shelf.fetch(alloc, name, FILE_LIMIT)? {
        Fetched::Got(bytes) => Ok(bytes),
        Fetched::Failed => Err(Refusal::ReadFault),
        Fetched::TooLong => Err(Refusal::BadFile(FileFault::TooLong)),
    }
}

/// The name of the file that an image is in.
pub fn name_of<'a>(file: ImageWord<'a>) -> &'a str
    ensures { result.now ≡ name_of (image_of file.entry) }
{
    match file {
        ImageWord::Raw(name) => name,
        ImageWord::Elf(name) => name,
    }
}

/// The image of raw bytes.
fn raw(alloc: Global, name: &str, bytes: &[u8]) -> Result<Image, Refusal>
    ensures image { IfOk result (IsImageIn (Raw name.now) bytes.now) }
    ensures refused { IfErr result (RefusesBytes (Raw name.now) bytes.now) }
{
    Ok(raw_image(alloc, bytes)?)
}

/// The image of an ELF file.
fn elf(alloc: Global, name: &str, bytes: &[u8]) -> Result<Image, Refusal>
    ensures image { IfOk result (IsImageIn (Elf name.now) bytes.now) }
    ensures refused { IfErr result (RefusesBytes (Elf name.now) bytes.now) }
{
    let segments = read_elf(alloc, bytes)?;
    Ok(image_of(alloc, &segments)?)
}

/// The image in a file's bytes.
pub fn load(alloc: Global, file: ImageWord, bytes: &[u8]) -> Result<Image, Refusal>
    ensures image { IfOk result (IsImageIn (image_of file.entry) bytes.now) }
    ensures refused { IfErr result (RefusesBytes (image_of file.entry) bytes.now) }
{
    match file {
        ImageWord::Raw(name) => raw(alloc, name, bytes),
        ImageWord::Elf(name) => elf(alloc, name, bytes),
    }
}
