use vx_rows::Class;

/// What became of an instruction.
#[derive(Clone, Copy, PartialEq, Eq, Debug)]
pub enum Progress {
    /// It has completed.
    Completed,
    /// It asks for a service, and nothing has changed.
    Asks,
    /// It faulted; the executor tells how.
    Faulted,
}

/// A step: the class of what came next, where it is an instruction that is executed, and what became of it.
#[derive(Clone, Copy, Debug)]
pub struct Advance {
    pub class: Option<Class>,
    pub progress: Progress,
}
