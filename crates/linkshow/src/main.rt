//! Shows lines of hexadecimal link messages as lines of JSON.
// Tests: `stdin` and `stdout` beside `src`. Edits: edits/linkshow.txt.
#![tactic(auto)]

mod arguments;
mod laws;
mod run;

use arguments::{Asked, requested};
use line_filter::program::{USAGE, ended, refuse, refuse_all, write_text};
use message_shown::context::Order;
use message_shown::worded::order_of;
use message_shown::{Lenient, Strict};
use run::run;
use std::io::Read;
use std::process::ExitCode;
use std::{env, fs};

/// The name of the program.
const NAME: &str = "linkshow";

/// What `--help` writes.
const HELP: &str = "usage: linkshow [--kernel RELEASE] [--lenient]
       linkshow --help | --version

Reads lines of hexadecimal digits from standard input, each the bytes of a link message of route netlink, and writes
for each line one line of JSON: what the message says, or why the bytes are none. Words key=value in front of the
digits, with blanks between, are the first members of the answer, and the only ones where no digits follow them. A word
ok right before the digits is passed over.

  --kernel RELEASE  the kernel that the messages are of, as 6.12.0-47, or running for the one at hand: it decides the
                    order of the counters of IPv6, which changed between 6.12 and 6.16. Without it, and for releases
                    between the two, the counters are a list of numbers. A word kernel=RELEASE counts for its line.
  --lenient         an attribute whose payload is refused does not hide the others: they are shown, and last, under
                    refused, what is refused of it and why
  -h, --help        this text
  --version         the version
";

/// What `--version` writes.
const VERSION: &str = "linkshow 0.4.0\n";

/// Where the kernel at hand says its release.
const OSRELEASE: &str = "/proc/sys/kernel/osrelease";

fn main(rt: HostRuntime) -> ExitCode {
    let words = match env::args(&rt) {
        Ok(words) => words,
        Err(error) => return refuse_all(&rt, NAME, error.kind()),
    };
    match requested(words) {
        Asked::Help => write_text(&rt, NAME, HELP),
        Asked::Version => write_text(&rt, NAME, VERSION),
        Asked::Lines(release, is_lenient) => match release {
            Some(release) => answer_kernel(rt, release.as_str(), is_lenient),
            None => answer_lines(rt, Order::Unknown, is_lenient),
        },
        Asked::Wrong(word) => refuse(&rt, NAME, word.as_str()),
    }
}

/// The order of the counters in the kernel at hand.
fn running_order(rt: &HostRuntime) -> Option<Order> {
    let mut file = fs::open(rt, OSRELEASE).ok()?;
    let mut room = [0; 64];
    let len = file.read(&mut room).ok()?;
    order_of(&room[..len])
}

/// Answers lines of messages of a kernel.
fn answer_kernel(rt: HostRuntime, release: &str, is_lenient: bool) -> ExitCode {
    let order = match release {
        "running" => running_order(&rt),
        release => order_of(release.as_bytes()),
    };
    match order {
        Some(order) => answer_lines(rt, order, is_lenient),
        None => {
            let release = release.escape_debug();
            let _ = eprintln!(rt; "linkshow: no release of a kernel: {release}");
            ExitCode::from(USAGE)
        }
    }
}

/// Answers the lines of standard input.
fn answer_lines(rt: HostRuntime, order: Order, is_lenient: bool) -> ExitCode {
    let mut reader = rt.stdin();
    let mut writer = rt.stdout();
    let outcome = if is_lenient {
        run(rt.alloc(), Lenient, order, &mut reader, &mut writer)
    } else {
        run(rt.alloc(), Strict, order, &mut reader, &mut writer)
    };
    ended(&rt, NAME, outcome)
}
