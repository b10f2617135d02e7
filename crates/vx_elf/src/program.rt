use vx_base::Bytes;

/// A program to be written: its code and variables in memory one behind the other.
#[derive(Debug, Drop)]
pub struct Program {
    /// The address of the first instruction.
    pub entry: u64,
    /// What stands from address 0x10000 on and may be read and executed.
    pub code: Bytes,
    /// What stands from the next page on and may be read and written.
    pub vars: Bytes,
    /// How many zero bytes stand behind the variables.
    pub zero: u64,
}
