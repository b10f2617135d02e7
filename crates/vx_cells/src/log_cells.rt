ghost use Rattle.std.specs.Prelude.{◌≡◌, ◌≤◌, ◌<◌, ◌*◌, ◌++◌, false, [], ◌∷◌, length, slice_index, nat_lt, not, ◌||◌, vec_capacity, IfOk, option_map, if◌then◌else◌};
ghost use Rattle.vx_cells.specs.Cells.{IsMemory, Makes, read_at, write_at, zeros};
ghost use Rattle.vx_cells.specs.LogCells.{log_cells_told, after_access};

use crate::access::{Access, Port};
use crate::cells::Cells;
use crate::merge::merged;
use crate::vec_cells::FRAME_WORDS;
use std::alloc::{AllocError, Global};
use std::marker::Model;

/// Physical memory that tells its contents and, while the room for it lasts, its log.
#[derive(Debug, Drop)]
pub struct LogCells {
    frames: u32,
    cycle: u64,
    words: Vec<u64>,
    entries: Vec<Access>,
    room: usize,
    is_over: bool,
}

impl Model for LogCells {
    ghost use Rattle.std.specs.Prelude.{◌≡◌, ◌≤◌, ◌*◌, vec_len, vec_capacity};
    ghost use Rattle.vx_cells.specs.LogCells.{LogCellsView};

    ghost Value = { LogCellsView };

    ghost view = { λ c. record {
      frames = c.frames;
      cycle = c.cycle;
      contents = c.words.items;
      entries = c.entries.items;
      room = c.room;
      is_over = c.is_over;
    } };

    ghost invariant = { λ c. (vec_len c.words ≡ 512 * c.frames) × (c.frames ≤ 16384) × (c.room ≤ vec_capacity c.entries) };
}

impl LogCells {
    /// So many frames of zeros, at cycle 0, with room for so many accesses in the log; once an access finds no room, no log
    /// is told any more. It takes all its memory here.
    #[tactic(auto, unfolding(crate::specs::Cells::zeros))]
    pub fn new(alloc: Global, frames: u32, room: u32) -> Result<LogCells, AllocError>
        requires { frames ≤ 16384 }
        ensures { IfOk result (λ cells. cells ≡ record {
          frames = frames;
          cycle = 0;
          contents = zeros frames;
          entries = [];
          room = room;
          is_over = false;
        }) }
    {
        let words = vec![in alloc; 0; FRAME_WORDS * frames as usize]?;
        let entries = Vec::with_capacity(alloc, room as usize)?;
        Ok(LogCells {
            frames,
            cycle: 0,
            words,
            entries,
            room: room as usize,
            is_over: false,
        })
    }

    /// The accesses so far, where they are told.
    pub fn log(&self) -> Option<&[Access]>
        ensures { option_map (λ x. x.now) result ≡ (log_cells_told self.now).log }
    {
        if self.is_over {
            return None;
        }
        Some(self.entries.as_slice())
    }
}

/// Puts an access behind the entries where there are fewer than `room`, and says whether one has found no room by then.
fn note(entries: &mut Vec<Access>, room: usize, is_over: bool, access: Access) -> bool
    requires { room ≤ vec_capacity entries.old }
    ensures over { result ≡ (is_over || not (nat_lt (length entries.old.items) room)) }
    ensures entries { entries.new.items ≡ (if nat_lt (length entries.old.items) room then entries.old.items ++ access ∷ [] else entries.old.items) }
    ensures capacity { vec_capacity entries.old ≤ vec_capacity entries.new }
{
    if entries.len() >= room {
        return true;
    }
    match entries.push(access) {
        Ok(()) => is_over,
        Err(_) => unreachable!(),
    }
}

impl Cells for LogCells {
    ghost use Rattle.vx_cells.specs.LogCells.{log_cells_told};

    ghost state = { log_cells_told };

    fn frames(&self) -> u32 {
        self.frames
    }

    fn now(&self) -> u64 {
        self.cycle
    }

    fn read(&mut self, port: Port, word: u32) -> u64
        requires { word < 512 * self.old.frames }
        ensures memory { IsMemory (log_cells_told self.old) }
        ensures value { result ≡ slice_index self.old.contents word }
        ensures makes { Makes (log_cells_told self.old) (log_cells_told self.new) (read_at (log_cells_told self.old) port word ∷ []) }
        ensures exact { self.new ≡ after_access self.old (read_at (log_cells_told self.old) port word) }
    {
        let value = self.words[word as usize];
        let access = Access {
            cycle: self.cycle,
            port,
            word,
            written: false,
            bytes: u8::MAX,
            value,
        };
        self.is_over = note(&mut self.entries, self.room, self.is_over, access);
        value
    }

    fn write(&mut self, port: Port, word: u32, value: u64, bytes: u8)
        requires { word < 512 * self.old.frames }
        ensures memory { IsMemory (log_cells_told self.old) }
        ensures makes { Makes (log_cells_told self.old) (log_cells_told self.new) (write_at (log_cells_told self.old) port word value bytes ∷ []) }
        ensures exact { self.new ≡ after_access self.old (write_at (log_cells_told self.old) port word value bytes) }
    {
        let place = &mut self.words[word as usize];
        *place = merged(bytes, *place, value);
        let access = Access {
            cycle: self.cycle,
            port,
            word,
            written: true,
            bytes,
            value: merged(bytes, 0, value),
        };
        self.is_over = note(&mut self.entries, self.room, self.is_over, access);
    }

    fn advance(&mut self, to: u64)
        requires { self.old.cycle ≤ to }
        ensures told { log_cells_told self.new ≡ record (log_cells_told self.old) { cycle = to } }
        ensures exact { self.new ≡ record self.old { cycle = to } }
    {
        self.cycle = to;
    }
}
