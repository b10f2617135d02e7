ghost use Rattle.std.specs.Prelude.{◌≡◌, Some};
ghost use Rattle.vx_language.specs.Faults.{comes_before, rank, earlier, earliest};

use vx_language::{Fault, FaultKind};

/// The place of a kind among those of faults that start at one byte.
fn rank(kind: FaultKind) -> u8
    ensures { result ≡ rank kind }
{
    match kind {
        FaultKind::BadByte => 0,
        FaultKind::BadToken => 1,
        FaultKind::UnknownName => 2,
        FaultKind::BadOperand => 3,
        FaultKind::OutOfRange => 4,
        FaultKind::Twice => 5,
        FaultKind::Undefined => 6,
        FaultKind::TooLarge => 7,
    }
}

/// Whether one fault comes before another.
#[tactic(auto, unfolding(vx_language::specs::Faults::comes_before))]
fn comes_before(one: Fault, other: Fault) -> bool
    ensures { result ≡ comes_before one other }
{
    one.span.start < other.span.start
        || (one.span.start == other.span.start && rank(one.kind) < rank(other.kind))
}

/// The first of a fault and another, where there is another.
#[tactic(auto, unfolding(vx_language::specs::Faults::earlier))]
pub fn earlier(one: Fault, other: Option<Fault>) -> Fault
    ensures { result ≡ earlier one other }
{
    match other {
        None => one,
        Some(other) => { if comes_before(other, one) { other } else { one } }
    }
}

/// The first of two faults, where there are any.
pub fn first(one: Option<Fault>, other: Option<Fault>) -> Option<Fault>
    ensures { result ≡ earliest one other }
{
    match one {
        None => other,
        Some(one) => Some(earlier(one, other)),
    }
}
