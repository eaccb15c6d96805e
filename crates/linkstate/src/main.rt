//! Answers lines of hexadecimal link messages by their state encodings.
// Tests: `stdin` and `stdout` beside `src`. Edits: edits/linkstate.txt.
#![tactic(auto)]

mod arguments;
mod encoding;
mod laws;
mod run;

use arguments::{Request, asked_for};
use encoding::{LenientState, State};
use line_filter::program::{ended, refuse, refuse_all, write_text};
use run::run;
use std::env;
use std::process::ExitCode;

/// The name of the program.
const NAME: &str = "linkstate";

/// What `--help` writes.
const HELP: &str = "usage: linkstate [--lenient | --help | --version]

Reads lines of hexadecimal digits from standard input, each the bytes of a link message of route netlink, and writes
for each line one answer: ok and the state encoding of the message, which is its canonical encoding with all that moves
by itself at zero; nothex for a line that is no bytes; refused for bytes that are no message; unfit for a message that
cannot be written; empty-ports for one with an empty list of ports. Words key=value in front of the digits, with blanks
between, are written in front of the answer as they stand, and alone where no digits follow them. A word ok right before
the digits is passed over.

  --lenient   bytes are a message as far as their attributes fit: one whose payload is refused is kept as it is
  -h, --help  this text
  --version   the version
";

/// What `--version` writes.
const VERSION: &str = "linkstate 0.4.0\n";

fn main(rt: HostRuntime) -> ExitCode {
    let mut words = match env::args(&rt) {
        Ok(words) => words,
        Err(error) => return refuse_all(&rt, NAME, error.kind()),
    };
    let _program = words.next();
    let Some(word) = words.next() else {
        return answer_strictly(rt);
    };
    let asked = asked_for(word.as_str());
    if let Some(word) = words.next() {
        return refuse(&rt, NAME, word.as_str());
    }
    match asked {
        Request::Help => write_text(&rt, NAME, HELP),
        Request::Version => write_text(&rt, NAME, VERSION),
        Request::Lenient => answer_leniently(rt),
        Request::Unknown => refuse(&rt, NAME, word.as_str()),
    }
}

/// Answers the lines of standard input by the states of what they mean.
fn answer_strictly(rt: HostRuntime) -> ExitCode {
    let outcome = run(rt.alloc(), State, &mut rt.stdin(), &mut rt.stdout());
    ended(&rt, NAME, outcome)
}

/// Answers the lines of standard input by the states of what they mean leniently.
fn answer_leniently(rt: HostRuntime) -> ExitCode {
    let outcome = run(rt.alloc(), LenientState, &mut rt.stdin(), &mut rt.stdout());
    ended(&rt, NAME, outcome)
}
