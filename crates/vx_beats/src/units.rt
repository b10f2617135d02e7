ghost use Rattle.std.specs.Prelude.{◌≡◌};
ghost use Rattle.vx_episode.specs.History.{latency_of, step_of};

use vx_rows::Unit;

/// How many cycles lie between two beats on a unit.
#[inline(always)]
pub fn step_of(unit: Unit) -> u64
    ensures { result ≡ step_of unit }
{
    match unit {
        Unit::Arithmetic | Unit::Multiply | Unit::Permute => 1,
        Unit::Divide => 8,
    }
}

/// How many cycles after a beat what it makes can be read.
#[inline(always)]
pub fn latency_of(unit: Unit) -> u64
    ensures { result ≡ latency_of unit }
{
    match unit {
        Unit::Arithmetic => 2,
        Unit::Multiply | Unit::Permute => 4,
        Unit::Divide => 16,
    }
}
