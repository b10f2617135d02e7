ghost use Rattle.std.specs.Prelude.{◌≡◌, ◌<◌, ◌^◌};
ghost use Rattle.vx_machine.specs.Machine.{words_held};

/// Cycles for taking another process than the one that ran last.
pub const SWITCH: u64 = 100;

/// Cycles of a service, beside those of the words that it moves.
pub const SERVICE: u64 = 50;

/// How many aligned words of 8 bytes hold so many bytes from an address on.
pub fn words_held(address: u64, count: u64) -> u64
    requires { count < 2 ^ 62 }
    ensures { result ≡ words_held address count }
{
    if count == 0 {
        0
    } else {
        (address % 8 + count + 7) / 8
    }
}
