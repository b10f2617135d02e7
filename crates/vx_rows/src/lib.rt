//! The rows of the instruction set: for each row its operation, its fixed bits, the shape of its operands and its
//! class, which says how the flat machine goes on at it.
//!
//! It stands on `vx_base`. To the crates above it gives the operations, the table of rows as a definition and as
//! `rows`, the laws that no word has the fixed bits of two rows and that each operation has its rows there, and the
//! class, the shape and the mnemonic of each operation; for each shape where its operands stand in a word (`Layout`);
//! for vector arithmetic its family, with the unit and the operands of each.
#![tactic(auto)]

mod debug;
mod family;
mod layout;
mod line;
mod lines;
mod op;
mod row;
mod table;

pub use family::{Family, Operand, Operands, Unit};
pub use op::{ElemOp, FixedOp, MaskOp, MemoryOp, Op, PermOp, ScalarOp, SetOp, WidenOp};
pub use row::{Addressing, Class, Eew, First, Layout, Nf, Number, Row, Second, Shape, Vm};
pub use table::{fits_one_at_most, has_its_rows, name_of, rows};
