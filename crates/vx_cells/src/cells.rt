ghost use Rattle.std.specs.Prelude.{◌≡◌, ◌≤◌, ◌<◌, ◌*◌, [], ◌∷◌, slice_index};
ghost use Rattle.vx_cells.specs.Cells.{CellsState, IsMemory, Makes, read_at, write_at};

use crate::access::Port;

/// Physical memory with its clock: frames of 512 words each, frame `f`'s from word `512 * f` on. It never fails.
pub trait Cells {
    /// What it tells: frames, cycle, contents and, where it is told, the log.
    ghost state: { Self → CellsState };

    /// How many frames there are, at most 16,384. Their number is fixed.
    fn frames(&self) -> u32
        ensures count { result ≡ (state self.now).frames }
        ensures memory { IsMemory (state self.now) };

    /// The current cycle.
    fn now(&self) -> u64
        ensures { result ≡ (state self.now).cycle };

    /// Reads a word.
    fn read(&mut self, port: Port, word: u32) -> u64
        requires { word < 512 * (state self.old).frames }
        ensures memory { IsMemory (state self.old) }
        ensures value { result ≡ slice_index (state self.old).contents word }
        ensures makes { Makes (state self.old) (state self.new) (read_at (state self.old) port word ∷ []) };

    /// Writes those bytes of a word that `bytes` names, bit `j` byte `j`.
    fn write(&mut self, port: Port, word: u32, value: u64, bytes: u8)
        requires { word < 512 * (state self.old).frames }
        ensures memory { IsMemory (state self.old) }
        ensures makes { Makes (state self.old) (state self.new) (write_at (state self.old) port word value bytes ∷ []) };

    /// Lets the current cycle be `to`, which isn't below it.
    fn advance(&mut self, to: u64)
        requires { (state self.old).cycle ≤ to }
        ensures { state self.new ≡ record (state self.old) { cycle = to } };
}
