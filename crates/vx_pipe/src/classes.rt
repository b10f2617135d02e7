//! How instructions without accesses are timed, by class.

ghost use Rattle.std.specs.Prelude.{◌≡◌};
ghost use Rattle.vx_pipe.specs.Classes.{changes_as, jumps_as, span_of};

use vx_decode::Instr;
use vx_hart::{change_in, writes};
use vx_rows::Class;

/// How many cycles after its issue it completes.
#[inline(always)]
pub(crate) fn span_of(class: Class) -> u64
    ensures { result ≡ span_of class }
{
    match class {
        Class::Multiply => 3,
        Class::Divide => 20,
        _ => 1,
    }
}

/// Whether it is a jump or a branch.
#[inline(always)]
pub(crate) fn jumps_as(class: Class) -> bool
    ensures { result ≡ jumps_as class }
{
    match class {
        Class::Jump | Class::Branch => true,
        _ => false,
    }
}

/// Whether it changes the vector state.
#[inline(always)]
pub(crate) fn changes_as(class: Class, i: &Instr) -> bool
    ensures { result ≡ changes_as class i.now }
{
    match class {
        Class::Csr => writes(change_in(i.op), i.rs1),
        Class::Set => true,
        _ => false,
    }
}
