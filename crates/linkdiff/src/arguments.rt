//! The arguments of the program.

use message_diff::{Compared, Told};
use std::alloc::{AllocError, Global};
use std::env::Args;

/// What the exit status says.
#[derive(Clone, Copy, Debug, PartialEq, Eq)]
pub enum Status {
    /// Whether all was read and written.
    Run,
    /// `--exit-code`: whether the files differ.
    Files,
}

/// How two files are compared.
#[derive(Clone, Copy)]
pub struct Comparison {
    pub by: Compared,
    pub status: Status,
}

/// What the arguments ask for.
#[derive(Drop)]
pub enum Request {
    /// `--help` or `-h`: what the program does.
    Help,
    /// `--version`: which one it is.
    Version,
    /// Each line of standard input beside the last of its interface.
    Stream(Compared, Told),
    /// One file beside another, of which one may be `-`, standard input.
    Files(Comparison, String, String),
    /// An argument that there is not, or one beside `--help` or `--version`.
    Wrong(String),
    /// One file, or more than two, or `-` twice.
    Count,
    /// `--changes-only` beside files.
    NoStream,
    /// `--exit-code` without files.
    NoFiles,
}

/// The options that may stand together, and the names of files.
#[derive(Drop)]
struct Options {
    by: Compared,
    told: Told,
    status: Status,
    names: Vec<String>,
}

/// What these ask for.
fn asked(options: Options) -> Request {
    let Options {
        by,
        told,
        status,
        names,
    } = options;
    if names.is_empty() {
        return match status {
            Status::Run => Request::Stream(by, told),
            Status::Files => Request::NoFiles,
        };
    }
    if told == Told::Changes {
        return Request::NoStream;
    }
    let mut names = names.into_iter();
    match (names.next(), names.next(), names.next()) {
        (Some(old), Some(new), None) => {
            if old.as_str() == "-" && new.as_str() == "-" {
                return Request::Count;
            }
            Request::Files(Comparison { by, status }, old, new)
        }
        _ => Request::Count,
    }
}

/// What these words ask for, of which the first is the program's name.
pub fn requested(alloc: Global, words: Args) -> Result<Request, AllocError> {
    let mut options = Options {
        by: Compared::State,
        told: Told::All,
        status: Status::Run,
        names: Vec::new(alloc),
    };
    let mut alone = None;
    let mut is_first = true;
    for word in words.skip(1) {
        if alone.is_some() {
            return Ok(Request::Wrong(word));
        }
        match word.as_str() {
            "--help" if is_first => alone = Some(Request::Help),
            "-h" if is_first => alone = Some(Request::Help),
            "--version" if is_first => alone = Some(Request::Version),
            "--counters" => options.by = options.by.with_counters(),
            "--lenient" => options.by = options.by.leniently(),
            "--changes-only" => options.told = Told::Changes,
            "--exit-code" => options.status = Status::Files,
            "-" => options.names.push(word)?,
            other if other.starts_with("-") => return Ok(Request::Wrong(word)),
            _ => options.names.push(word)?,
        }
        is_first = false;
    }
    match alone {
        Some(request) => Ok(request),
        None => Ok(asked(options)),
    }
}
