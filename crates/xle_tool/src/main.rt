//! The program `xle_tool`: hands the words of its command line, the files of the disk and its
//! streams to `run`, and ends with the exit status.
#![tactic(auto)]

#[cfg(test)]
mod tests;

ghost use Rattle.std.specs.Prelude.{◌≡◌};
ghost use Rattle.lfg_model.specs.Output.{exit_status};

use lfg_io::{DiskShelf, StdSink};
use lfg_model::Status;
use std::alloc::AllocError;
use std::env;
use std::env::Env;
use std::io::ErrorKind;
use std::process::ExitCode;
use xle_run::{exit_status, run};

/// The words behind the program's name. They are none where a word is not UTF-8, since such a
/// command line fits no command.
fn words(rt: &(impl Env + AllocGlobal)) -> Result<Vec<String>, AllocError> {
    match env::args(rt) {
        Ok(args) => args.skip(1).collect(rt.alloc()),
        Err(fault) if fault.kind() == ErrorKind::OutOfMemory => Err(AllocError),
        Err(_) => Ok(Vec::new(rt.alloc())),
    }
}

/// The code with which the program ends after this status.
fn exit_code(status: &Status) -> ExitCode
    ensures { result.status ≡ exit_status status.now }
{
    ExitCode::from(exit_status(status))
}

fn main(rt: HostRuntime) -> ExitCode {
    let alloc = rt.alloc();
    let mut shelf = DiskShelf::new(alloc, &rt);
    let mut out = StdSink::new(rt.stdout());
    let mut err = StdSink::new(rt.stderr());
    let status = match words(&rt) {
        Ok(words) => run(alloc, &words, &mut shelf, &mut out, &mut err),
        Err(_) => Status::Memory,
    };
    exit_code(&status)
}
