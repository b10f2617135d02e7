//! The memory of a process alone, as its instructions see it: it stands on no physical memory.

ghost use Rattle.std.specs.Prelude.{[]};

use crate::memory::Memory;
use vx_base::Want;

impl vx_hart::Memory<()> for Memory {
    ghost state = { λ m p. m };

    ghost fits = { λ m p. Unit {0} };

    ghost rest = { λ m p. record { frames = 0; cycle = 0; words = []; pages = []; places = [] } };

    #[inline(always)]
    fn word(&mut self, _physical: &mut (), address: u64) -> Option<u32> {
        self.fetched(address)
    }

    #[inline(always)]
    fn load(&mut self, _physical: &mut (), address: u64, width: u64) -> Option<u64> {
        self.number(address, width)
    }

    #[inline(always)]
    fn permits(&mut self, _physical: &mut (), address: u64, want: Want) -> bool {
        self.lets_through(address, want)
    }

    #[inline(always)]
    fn store(&mut self, _physical: &mut (), address: u64, width: u64, value: u64) -> bool {
        self.put(address, width, value)
    }

    fn is_readable(&mut self, _physical: &mut (), address: u64, count: u64) -> bool {
        self.has_readable(address, count)
    }

    fn append_to(&mut self, _physical: &mut (), address: u64, count: u64, out: &mut Vec<u8>) {
        self.append_bytes(address, count, out);
    }
}
