//! The program `vexec`: hands the words of the command line, the system's files, standard output and standard error to
//! the call `vexec`, with as much physical memory as they ask for, and ends with the number that it answers. It writes nothing itself.
#![tactic(auto)]

use std::env;
use std::env::Env;
use std::io::ErrorKind;
use std::process::ExitCode;
use vx_cells::VecCells;
use vx_files::{FileShelf, OutSink};
use vx_top::{Status, frames_for, vexec};

/// The words of the command line, without the program's name. Words that aren't UTF-8 ask for nothing.
fn words_of<R: Env + AllocGlobal>(rt: &R) -> Result<Vec<String>, Status> {
    match env::args(rt) {
        Ok(args) => args
            .skip(1)
            .collect(rt.alloc())
            .map_err(|_| Status::NoMemory),
        Err(error) if error.kind() == ErrorKind::InvalidData => Err(Status::Usage),
        Err(_) => Err(Status::NoMemory),
    }
}

fn main(rt: HostRuntime) -> ExitCode {
    let words = match words_of(&rt) {
        Ok(words) => words,
        Err(status) => return ExitCode::from(status.number()),
    };
    let Ok(mut cells) = VecCells::new(rt.alloc(), frames_for(words.as_slice())) else {
        return ExitCode::from(Status::NoMemory.number());
    };
    let mut shelf = FileShelf::new(rt.alloc(), &rt);
    let mut out = OutSink::new(rt.stdout());
    let mut note = OutSink::new(rt.stderr());
    let status = vexec(
        rt.alloc(),
        words.as_slice(),
        &mut shelf,
        &mut out,
        &mut note,
        &mut cells,
    );
    ExitCode::from(status.number())
}
