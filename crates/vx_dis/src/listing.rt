ghost use Rattle.std.specs.Prelude.{◌≡◌, ◌++◌, IfErr, OnOk, string_bytes};
ghost use Rattle.vx_base.specs.Sink.{IsWritten};
ghost use Rattle.vx_dis.specs.Written.{Stops};
ghost use Rattle.vx_source.specs.Listing.{listing};

use crate::line::push_line;
use std::alloc::{AllocError, Global};
use vx_base::{Sink, WriteFault, write_text};

/// How many bytes of a file are listed at a time.
const PIECE: usize = 4096;

/// How many bytes of room their lines begin with: 24 for each word. It grows where that is too little.
const LINES_ROOM: usize = 24 * 1024;

/// Why a listing stopped.
#[derive(Clone, Copy, PartialEq, Eq, Debug)]
pub enum ListingFault {
    /// The sink failed.
    Write,
    /// Memory was wanting.
    NoMemory,
}

impl From<WriteFault> for ListingFault {
    ghost use Rattle.vx_dis.specs.declared.listing.ListingFault.TheVariants.{Write};

    ghost from_gives = { λ _ fault. fault ≡ Write };

    fn from(_fault: WriteFault) -> Self {
        ListingFault::Write
    }
}

impl From<AllocError> for ListingFault {
    ghost use Rattle.vx_dis.specs.declared.listing.ListingFault.TheVariants.{NoMemory};

    ghost from_gives = { λ _ fault. fault ≡ NoMemory };

    fn from(_error: AllocError) -> Self {
        ListingFault::NoMemory
    }
}

/// Appends the lines of all whole words, each with a newline.
fn push_lines(text: &mut String, bytes: &[u8]) -> Result<(), AllocError>
    ensures { OnOk result (string_bytes text.new ≡ string_bytes text.old ++ listing bytes.now) }
{
    let mut rest = bytes;
    while let Some((word, later)) = rest.split_first_chunk::<4>() {
        push_line(text, u32::from_le_bytes(*word))?;
        text.push('\n')?;
        rest = later;
    }
    Ok(())
}

/// Writes the lines of all whole words of the piece. The text keeps them meanwhile.
#[tactic(auto, using(crate::proofs::Written::begun_with_nothing))]
fn write_piece<K: Sink>(text: &mut String, piece: &[u8], out: &mut K) -> Result<(), ListingFault>
    ensures written { OnOk result (IsWritten (K.state out.old) (K.state out.new) (listing piece.now)) }
    ensures stopped { IfErr result (Stops (K.state out.old) (K.state out.new) (listing piece.now)) }
{
    text.clear();
    push_lines(text, piece)?;
    write_text(out, text.as_bytes())?;
    Ok(())
}

/// Writes the listing of a file's bytes: the canonical line of each whole little-endian word, with a newline. A rest of
/// one to three bytes is passed over. It keeps the lines of 4,096 bytes of the file in memory, and no more.
///
/// `Err` says why it stopped behind a prefix of the listing: `Write` comes only where the sink's count of faults rose,
/// and `NoMemory` where memory was wanting.
#[tactic(auto, using(crate::proofs::Written::begun_with_nothing))]
pub fn write_listing<K: Sink>(alloc: Global, bytes: &[u8], out: &mut K) -> Result<(), ListingFault>
    ensures written { OnOk result (IsWritten (K.state out.old) (K.state out.new) (listing bytes.now)) }
    ensures stopped { IfErr result (Stops (K.state out.old) (K.state out.new) (listing bytes.now)) }
{
    let mut text = String::with_capacity(alloc, LINES_ROOM)?;
    let mut rest = bytes;
    while let Some((piece, later)) = rest.split_at_checked(PIECE) {
        write_piece(&mut text, piece, out)?;
        rest = later;
    }
    write_piece(&mut text, rest, out)
}
