ghost use Rattle.std.specs.Prelude.{◌≡◌, ◌+◌, ◌≤◌, ◌%◌, ◌++◌, true, false, IsTrue, MatchOption, vec_len, vec_capacity, if◌then◌else◌};
ghost use Rattle.vx_base.specs.Numbers.{from_little_endian, little_endian};
ghost use Rattle.vx_base.specs.declared.machine.Want.TheVariants as want;
ghost use Rattle.vx_flat.specs.Memory.{bytes_at, put_bytes};
ghost use Rattle.vx_flat.specs.Service.{is_readable};
ghost use Rattle.vx_hart.specs.Rest.{Rest};
ghost use Rattle.vx_image.specs.Pages.{Memory as FlatMemory, permits};
ghost use Rattle.vx_scalar.specs.Operands.{is_access_width};

use vx_base::Want;

/// The memory of a process, as its instructions see it: on physical memory `P`, or on nothing.
pub trait Memory<P> {
    /// The memory that it is.
    ghost state: { Self → P → FlatMemory };

    /// It fits physical memory: its pages are there.
    ghost fits: { Self → P → Type 0 };

    /// What no access changes.
    ghost rest: { Self → P → Rest };

    /// The instruction word at an address that is a multiple of 4; `None` exactly where it can't be fetched.
    fn word(&mut self, physical: &mut P, address: u64) -> Option<u32>
        requires aligned { address % 4 ≡ 0 }
        requires fits { fits self.old physical.old }
        ensures fits { fits self.new physical.new }
        ensures rest { rest self.new physical.new ≡ rest self.old physical.old }
        ensures memory { state self.new physical.new ≡ state self.old physical.old }
        ensures word { MatchOption result (permits (state self.old physical.old) address want.Fetch ≡ false) (λ word.
            (permits (state self.old physical.old) address want.Fetch ≡ true) × (word ≡ from_little_endian (bytes_at (state self.old physical.old) address 4))) };

    /// The number that so many bytes from an address on are, least first; `None` exactly where they can't be read. The
    /// address is a multiple of their count.
    fn load(&mut self, physical: &mut P, address: u64, width: u64) -> Option<u64>
        requires width { IsTrue (is_access_width width) }
        requires aligned { address % width ≡ 0 }
        requires fits { fits self.old physical.old }
        ensures fits { fits self.new physical.new }
        ensures rest { rest self.new physical.new ≡ rest self.old physical.old }
        ensures memory { state self.new physical.new ≡ state self.old physical.old }
        ensures number { MatchOption result (permits (state self.old physical.old) address want.Load ≡ false) (λ n.
            (permits (state self.old physical.old) address want.Load ≡ true) × (n ≡ from_little_endian (bytes_at (state self.old physical.old) address width))) };

    /// Whether an access is let through at an address.
    fn permits(&mut self, physical: &mut P, address: u64, want: Want) -> bool
        requires fits { fits self.old physical.old }
        ensures fits { fits self.new physical.new }
        ensures rest { rest self.new physical.new ≡ rest self.old physical.old }
        ensures memory { state self.new physical.new ≡ state self.old physical.old }
        ensures permitted { result ≡ permits (state self.old physical.old) address want };

    /// Stores the low bytes of a number from an address on, least first, where that is let through, and says whether it was.
    /// The address is a multiple of their count.
    fn store(&mut self, physical: &mut P, address: u64, width: u64, value: u64) -> bool
        requires width { IsTrue (is_access_width width) }
        requires aligned { address % width ≡ 0 }
        requires fits { fits self.old physical.old }
        ensures fits { fits self.new physical.new }
        ensures rest { rest self.new physical.new ≡ rest self.old physical.old }
        ensures stored { result ≡ permits (state self.old physical.old) address want.Store }
        ensures memory { state self.new physical.new ≡ (if result then put_bytes (state self.old physical.old) address (little_endian width value) else state self.old physical.old) };

    /// Whether each of so many bytes from an address on can be read, and none lies past the last address.
    fn is_readable(&mut self, physical: &mut P, address: u64, count: u64) -> bool
        requires fits { fits self.old physical.old }
        ensures fits { fits self.new physical.new }
        ensures rest { rest self.new physical.new ≡ rest self.old physical.old }
        ensures memory { state self.new physical.new ≡ state self.old physical.old }
        ensures readable { result ≡ is_readable (state self.old physical.old) address count };

    /// Appends so many bytes from an address on, all of which can be read.
    fn append_to(&mut self, physical: &mut P, address: u64, count: u64, out: &mut Vec<u8>)
        requires readable { is_readable (state self.old physical.old) address count ≡ true }
        requires room { vec_len out.old + count ≤ vec_capacity out.old }
        requires fits { fits self.old physical.old }
        ensures fits { fits self.new physical.new }
        ensures rest { rest self.new physical.new ≡ rest self.old physical.old }
        ensures memory { state self.new physical.new ≡ state self.old physical.old }
        ensures bytes { out.new.items ≡ out.old.items ++ bytes_at (state self.old physical.old) address count }
        ensures capacity { vec_capacity out.old ≤ vec_capacity out.new };
}
