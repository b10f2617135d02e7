ghost use Rattle.std.specs.Prelude.{◌≡◌, ◌<◌, ◌^◌, pos};
ghost use Rattle.vx_base.specs.Numbers.{reduced};
ghost use Rattle.vx_decode.specs.Encoded.{IsSigned};
ghost use Rattle.vx_language.specs.Code.{upper_part, lower_part};

/// A number reduced to 32 bits.
fn reduced_32(value: i128) -> u32
    ensures { result ≡ reduced 32 value }
{
    value.rem_euclid(1 << 32) as u32
}

/// The immediate of `lui` or `auipc` that loads a number of 32 bits, with an addition behind it.
#[tactic(auto, unfolding(vx_language::specs::Code::upper_part))]
pub fn upper_part(value: i128) -> u32
    ensures value { pos result ≡ upper_part value }
    ensures below { result < 2 ^ 20 }
{
    reduced_32(value).wrapping_add(2048) >> 12
}

/// The immediate of that addition.
#[tactic(auto, unfolding(vx_language::specs::Code::lower_part))]
pub fn lower_part(value: i128) -> i64
    ensures value { result ≡ lower_part value }
    ensures fits { IsSigned 12 result }
{
    let low = reduced_32(value) % 4096;
    if low < 2048 {
        i64::from(low)
    } else {
        i64::from(low) - 4096
    }
}
