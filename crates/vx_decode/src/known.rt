ghost use Rattle.std.specs.Prelude.{◌≡◌};
ghost use Rattle.vx_rows.specs.Table.{class_of};

use crate::instr::Instr;
use vx_rows::Class;

/// An instruction with its class, which its operation says.
#[derive(Clone, Copy, Debug)]
pub struct Known {
    pub instr: Instr,
    pub class: Class,
    ghost class_is: { class ≡ class_of instr.op },
}

impl Known {
    /// An instruction with its class.
    pub(crate) fn of(instr: Instr) -> Known
        ensures { result.instr ≡ instr }
    {
        Known {
            instr,
            class: instr.op.class(),
        }
    }
}
