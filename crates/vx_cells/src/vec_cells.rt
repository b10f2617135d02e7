ghost use Rattle.std.specs.Prelude.{◌≡◌, ◌≤◌, None, IfOk};
ghost use Rattle.vx_cells.specs.Cells.{zeros};

use crate::access::Port;
use crate::cells::Cells;
use crate::merge::merged;
use std::alloc::{AllocError, Global};
use std::marker::Model;

/// How many words a frame has.
pub const FRAME_WORDS: usize = 512;

/// Physical memory that tells its contents and no log.
#[derive(Debug, Drop)]
pub struct VecCells {
    frames: u32,
    cycle: u64,
    words: Vec<u64>,
}

impl Model for VecCells {
    ghost use Rattle.std.specs.Prelude.{◌≡◌, ◌≤◌, ◌*◌, None, vec_len};
    ghost use Rattle.vx_cells.specs.Cells.{CellsState};

    ghost Value = { CellsState };

    ghost view = { λ c. record { frames = c.frames; cycle = c.cycle; contents = c.words.items; log = None } };

    ghost invariant = { λ c. (vec_len c.words ≡ 512 * c.frames) × (c.frames ≤ 16384) };
}

impl VecCells {
    /// So many frames of zeros, at cycle 0. It takes all its memory here.
    #[tactic(auto, unfolding(crate::specs::Cells::zeros))]
    pub fn new(alloc: Global, frames: u32) -> Result<VecCells, AllocError>
        requires { frames ≤ 16384 }
        ensures { IfOk result (λ cells. cells ≡ record {
          frames = frames;
          cycle = 0;
          contents = zeros frames;
          log = None;
        }) }
    {
        let words = vec![in alloc; 0; FRAME_WORDS * frames as usize]?;
        Ok(VecCells {
            frames,
            cycle: 0,
            words,
        })
    }
}

impl Cells for VecCells {
    ghost state = { λ c. c };

    fn frames(&self) -> u32 {
        self.frames
    }

    fn now(&self) -> u64 {
        self.cycle
    }

    fn read(&mut self, port: Port, word: u32) -> u64 {
        let _ = port;
        self.words[word as usize]
    }

    fn write(&mut self, port: Port, word: u32, value: u64, bytes: u8) {
        let _ = port;
        let place = &mut self.words[word as usize];
        *place = merged(bytes, *place, value);
    }

    fn advance(&mut self, to: u64) {
        self.cycle = to;
    }
}
