ghost use Rattle.std.specs.Prelude.{◌≡◌, ◌<◌};
ghost use Rattle.vx_cells.specs.Merging.{merged_byte, merged};

/// Byte `j` of a value where bit `j` of a mask is set, else of the old word.
fn merged_byte(mask: u8, old: u64, value: u64, j: u32) -> u8
    requires { j < 8 }
    ensures { result ≡ merged_byte mask old value j }
{
    let word = if mask >> j & 1 == 1 { value } else { old };
    (word >> (8 * j) & 0xff) as u8
}

/// The old word with those bytes of a value that a mask names, bit `j` byte `j`.
pub fn merged(mask: u8, old: u64, value: u64) -> u64
    ensures { result ≡ merged mask old value }
{
    if mask == u8::MAX {
        return value;
    }
    u64::from_le_bytes([
        merged_byte(mask, old, value, 0),
        merged_byte(mask, old, value, 1),
        merged_byte(mask, old, value, 2),
        merged_byte(mask, old, value, 3),
        merged_byte(mask, old, value, 4),
        merged_byte(mask, old, value, 5),
        merged_byte(mask, old, value, 6),
        merged_byte(mask, old, value, 7),
    ])
}
