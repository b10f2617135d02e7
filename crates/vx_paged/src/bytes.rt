ghost use Rattle.std.specs.Prelude.{◌≡◌, ℕ, ◌+◌, ◌-◌, ◌*◌, ◌/◌, ◌%◌, ◌^◌, ◌<◌, ◌≤◌, ◌++◌, nat_le, nat_lt, ◌&&◌, min, IsTrue, vec_len, vec_capacity};
ghost use Rattle.vx_base.specs.Numbers.{field, truth};
ghost use Rattle.vx_paged.specs.Framed.{bytes_from};
ghost use Rattle.vx_scalar.specs.Operands.{is_access_width};

/// How many bytes a word has.
const WORD_BYTES: u64 = 8;

/// The word of physical memory in which a byte lies, where the page of its address is in a frame.
#[inline(always)]
pub fn word_index(frame: u32, address: u64) -> u32
    requires { frame < 16384 }
    ensures { result ≡ 512 * frame + address % 4096 / 8 }
{
    512 * frame + (address % 4096 / WORD_BYTES) as u32
}

/// The number that so many bytes of a word are, from the byte of an address on.
#[inline(always)]
pub fn part_of(word: u64, address: u64, width: u64) -> u64
    requires width { IsTrue (is_access_width width) }
    requires aligned { address % width ≡ 0 }
    ensures { result ≡ field word (8 * (address % 8)) (8 * width) }
{
    let shifted = word >> (8 * (address % WORD_BYTES)) as u32;
    match width {
        1 => shifted % (1 << 8),
        2 => shifted % (1 << 16),
        4 => shifted % (1 << 32),
        _ => word,
    }
}

/// The number that four bytes of a word are.
#[inline(always)]
pub fn half_of(word: u64, address: u64) -> u32
    ensures { result ≡ field word (8 * (address % 8)) 32 }
{
    let shifted = word >> (8 * (address % WORD_BYTES)) as u32;
    (shifted % (1 << 32)) as u32
}

/// A number whose bytes stand from that of an address on.
#[inline(always)]
pub fn moved_up(value: u64, address: u64) -> u64
    ensures { result ≡ value * 2 ^ (8 * (address % 8)) % 2 ^ 64 }
{
    value << (8 * (address % WORD_BYTES)) as u32
}

/// Which bytes of a word so many are, from that of an address on: bit `j` byte `j`.
#[inline(always)]
pub fn bytes_named(address: u64, width: u64) -> u8
    requires width { IsTrue (is_access_width width) }
    requires aligned { address % width ≡ 0 }
    ensures { (j : ℕ) → j < 8 → field result j 1 ≡ truth (nat_le (address % 8) j && nat_lt j (address % 8 + width)) }
{
    ones(width) << (address % WORD_BYTES) as u32
}

/// As many low bits.
#[inline(always)]
fn ones(width: u64) -> u8
    requires { IsTrue (is_access_width width) }
    ensures { result ≡ 2 ^ width - 1 }
{
    match width {
        1 => 1,
        2 => 3,
        4 => 15,
        _ => 255,
    }
}
