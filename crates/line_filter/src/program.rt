//! How programs over lines end: what they say of themselves, and their exit status.

use crate::error::RunError;
use std::io::ErrorKind;
use std::process::ExitCode;

/// The exit status after wrong arguments.
pub const USAGE: u8 = 2;

/// Writes a text of the program with this name, its usage or version.
pub fn write_text(rt: &HostRuntime, name: &str, text: &str) -> ExitCode {
    match print!(rt; "{text}") {
        Ok(()) => ExitCode::SUCCESS,
        Err(_) => {
            let _ = eprintln!(rt; "{name}: write failed");
            ExitCode::FAILURE
        }
    }
}

/// Says what is wrong with the arguments.
pub fn misused(rt: &HostRuntime, name: &str, what: &str) -> ExitCode {
    let _ = eprintln!(rt; "{name}: {what}; see {name} --help");
    ExitCode::from(USAGE)
}

/// Says that an argument is wrong.
pub fn refuse(rt: &HostRuntime, name: &str, word: &str) -> ExitCode {
    let word = word.escape_debug();
    let _ = eprintln!(rt; "{name}: not understood: {word}; see {name} --help");
    ExitCode::from(USAGE)
}

/// Says that there is no memory.
pub fn out_of_memory(rt: &HostRuntime, name: &str) -> ExitCode {
    let _ = eprintln!(rt; "{name}: out of memory");
    ExitCode::FAILURE
}

/// Says why there are no arguments to look at.
pub fn refuse_all(rt: &HostRuntime, name: &str, kind: ErrorKind) -> ExitCode {
    match kind {
        ErrorKind::InvalidData => misused(rt, name, "an argument is no UTF-8"),
        _ => out_of_memory(rt, name),
    }
}

/// The exit status, and what is said, after a run.
pub fn ended(rt: &HostRuntime, name: &str, outcome: Result<(), RunError>) -> ExitCode {
    match outcome {
        Ok(()) => ExitCode::SUCCESS,
        Err(error) => {
            let _ = eprintln!(rt; "{name}: {error}");
            ExitCode::FAILURE
        }
    }
}
