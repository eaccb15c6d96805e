//! Answers lines of hexadecimal link messages by their canonical encodings.
// Tests: `stdin` and `stdout` beside `src`. Edits: edits/linkwire.txt.
#![tactic(auto)]

mod arguments;
mod encoding;
mod laws;
mod run;
#[cfg(test)]
mod tests;

use arguments::{Request, asked_for};
use line_filter::program::{ended, out_of_memory, write_text};
use run::run;
use std::env::{self, Args};
use std::process::ExitCode;

/// The name of the program.
const NAME: &str = "linkwire";

/// What `--help` writes.
const HELP: &str = "usage: linkwire [--help | --version]

Reads lines of hexadecimal digits from standard input, each the bytes of a link message of route netlink, and writes
for each line one answer: ok and the canonical encoding of the message; nothex for a line that is no bytes; refused for
bytes that are no message; unfit for a message that cannot be written; empty-ports for one with an empty list of ports.
No words stand in front of the digits.

  -h, --help  this text
  --version   the version
";

/// What `--version` writes.
const VERSION: &str = "linkwire 0.4.0\n";

fn main(rt: HostRuntime) -> ExitCode {
    let Ok(words) = env::args(&rt) else {
        return out_of_memory(&rt, NAME);
    };
    match requested(words) {
        Request::Help => write_text(&rt, NAME, HELP),
        Request::Version => write_text(&rt, NAME, VERSION),
        Request::Lines => answer_lines(&rt),
    }
}

/// What the words ask for, of which the first is the program's name: more than one after it nothing.
fn requested(words: Args) -> Request {
    let mut words = words.skip(1);
    match (words.next(), words.next()) {
        (Some(word), None) => asked_for(word.as_str()),
        _ => Request::Lines,
    }
}

/// Answers the lines of standard input.
fn answer_lines(rt: &HostRuntime) -> ExitCode {
    let mut reader = rt.stdin();
    let mut writer = rt.stdout();
    let outcome = run(rt.alloc(), &mut reader, &mut writer);
    ended(rt, NAME, outcome)
}
