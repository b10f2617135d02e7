/// What an access wants of its page: to fetch an instruction, to load or to store.
#[derive(Clone, Copy, PartialEq, Eq, Debug)]
pub enum Want {
    Fetch,
    Load,
    Store,
}

/// Why a process was ended: the exception code and the trap value of RISC-V Privileged 1.12, sections 4.1.8 and
/// 4.1.9, and the `vstart` after it.
#[derive(Clone, Copy, PartialEq, Eq, Debug)]
pub struct Fault {
    pub cause: u8,
    pub tval: u64,
    pub vstart: u32,
}
