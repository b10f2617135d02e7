ghost use Rattle.std.specs.Prelude.{◌≡◌, ◌<◌, ◌≤◌, ◌-◌, ◌^◌};
ghost use Rattle.vx_base.specs.Numbers.{reduced};
ghost use Rattle.vx_bits.specs.Width.{unsigned_at, signed_at};

/// Ones at the low `width` bits.
pub fn mask(width: u32) -> u64
    requires positive { 0 < width }
    requires fits { width ≤ 64 }
    ensures { result ≡ 2 ^ width - 1 }
{
    u64::MAX >> (64 - width)
}

/// The low `width` bits of `a`, as an unsigned number.
pub fn low(width: u32, a: u64) -> u64
    requires positive { 0 < width }
    requires fits { width ≤ 64 }
    ensures value { result ≡ unsigned_at width a }
    ensures below { result < 2 ^ width }
{
    a & mask(width)
}

/// The low `width` bits of `a`, as a signed number.
pub fn signed_reading(width: u32, a: u64) -> i64
    requires positive { 0 < width }
    requires fits { width ≤ 64 }
    ensures { result ≡ signed_at width a }
{
    let mask = mask(width);
    let bits = a & mask;
    if bits <= mask / 2 {
        bits as i64
    } else {
        -1 - (mask - bits) as i64
    }
}

/// The low `width` bits of `v` in two's complement.
pub fn reduce(width: u32, v: i128) -> u64
    requires positive { 0 < width }
    requires fits { width ≤ 64 }
    ensures value { result ≡ reduced width v }
    ensures below { result < 2 ^ width }
{
    (v & mask(width) as i128) as u64
}
