//! Tells of each interface that came, went or changed in lines of hexadecimal link messages.
// Tests: `stdin` and `stdout` beside `src`. Edits: those of the crates that it calls.
#![tactic(auto)]

mod arguments;

ghost use Rattle.std.specs.Prelude.{◌≡◌};
ghost use Rattle.linkdiff.specs.Statuses.{status_of};

use arguments::{Comparison, Request, Status, requested};
use line_filter::program::{ended, misused, out_of_memory, refuse, refuse_all, write_text};
use message_diff::{Compared, Outcome, Told, Untold, compare_readers, watch_lines};
use std::env;
use std::fs::File;
use std::io::Read;
use std::process::ExitCode;

/// The name of the program.
const NAME: &str = "linkdiff";

/// What `--help` writes.
const HELP: &str =
    "usage: linkdiff [--counters] [--lenient] [--changes-only | [--exit-code] OLD NEW]
       linkdiff --help | --version

Reads lines of hexadecimal digits, each the bytes of a link message of route netlink, and writes a line of JSON for each
interface that came, went or changed: of each member that linkshow shows and that differs the path, the old value and
the new one. With no file each line of standard input is compared with the last one of its interface; of the files OLD
and NEW, of which one may be - for standard input, it is what each of them leaves at its end. An interface has a family,
an index and a word host=. Lines of words alone, type=begin and type=done, say where a dump begins and ends: what it
does not have went.

  --counters      compare also what moves by itself, as packet counts
  --lenient       an attribute whose payload is refused does not hide the others: it is compared by its bytes, and its
                  path begins with refused
  --changes-only  no line for what is there as a host is first asked
  --exit-code     the exit status is 0 if the files do not differ, 1 if they do, and 2 in trouble: if a file is missing,
                  a line has a fault, or a dump is not whole
  -h, --help      print this
  --version       print the version
";

/// What `--version` writes.
const VERSION: &str = "linkdiff 0.4.0\n";

fn main(rt: HostRuntime) -> ExitCode {
    let words = match env::args(&rt) {
        Ok(words) => words,
        Err(error) => return refuse_all(&rt, NAME, error.kind()),
    };
    match requested(rt.alloc(), words) {
        Ok(Request::Help) => write_text(&rt, NAME, HELP),
        Ok(Request::Version) => write_text(&rt, NAME, VERSION),
        Ok(Request::Stream(by, told)) => run_stream(rt, by, told),
        Ok(Request::Files(how, old, new)) => run_files(rt, how, old.as_str(), new.as_str()),
        Ok(Request::Wrong(word)) => refuse(&rt, NAME, word.as_str()),
        Ok(Request::Count) => misused(&rt, NAME, "two files, or none"),
        Ok(Request::NoStream) => misused(&rt, NAME, "--changes-only goes with no file"),
        Ok(Request::NoFiles) => misused(&rt, NAME, "--exit-code goes with two files"),
        Err(_) => out_of_memory(&rt, NAME),
    }
}

/// Compares the lines of standard input, each with the last one of its interface.
fn run_stream(rt: HostRuntime, by: Compared, told: Told) -> ExitCode {
    let mut reader = rt.stdin();
    let mut writer = rt.stdout();
    let outcome = watch_lines(rt.alloc(), by, told, &mut reader, &mut writer);
    ended(&rt, NAME, outcome)
}

/// Compares what two files leave at their ends.
fn run_files(rt: HostRuntime, how: Comparison, old: &str, new: &str) -> ExitCode {
    if old == "-" {
        return match File::open(&rt, new) {
            Ok(mut second) => run_readers(&rt, how, (old, new), &mut rt.stdin(), &mut second),
            Err(_) => refuse_file(rt, how.status, new),
        };
    }
    let Ok(mut first) = File::open(&rt, old) else {
        return refuse_file(rt, how.status, old);
    };
    if new == "-" {
        return run_readers(&rt, how, (old, new), &mut first, &mut rt.stdin());
    }
    match File::open(&rt, new) {
        Ok(mut second) => run_readers(&rt, how, (old, new), &mut first, &mut second),
        Err(_) => refuse_file(rt, how.status, new),
    }
}

/// Says that a file cannot be opened.
fn refuse_file(rt: HostRuntime, status: Status, name: &str) -> ExitCode {
    let _ = eprintln!(rt; "linkdiff: cannot open {name}");
    failure(status)
}

/// The exit status where the files were not compared.
fn failure(status: Status) -> ExitCode {
    match status {
        Status::Run => ExitCode::FAILURE,
        Status::Files => ExitCode::from(status_of(Outcome::Trouble)),
    }
}

/// The exit status of `--exit-code` where the files came to this.
fn status_of(outcome: Outcome) -> u8
    ensures { result ≡ status_of outcome }
{
    match outcome {
        Outcome::Same => 0,
        Outcome::Differ => 1,
        Outcome::Trouble => 2,
    }
}

/// Compares what two readers leave at their ends, of which these are the names, and says what is not told.
fn run_readers<R: Read, S: Read>(
    rt: &HostRuntime,
    how: Comparison,
    names: (&str, &str),
    old: &mut R,
    new: &mut S,
) -> ExitCode {
    let mut writer = rt.stdout();
    match compare_readers(rt.alloc(), how.by, old, new, &mut writer) {
        Ok(beside) => {
            for one in beside.untold.as_slice() {
                tell_untold(rt, names, one);
            }
            match how.status {
                Status::Run => ExitCode::SUCCESS,
                Status::Files => ExitCode::from(status_of(beside.outcome())),
            }
        }
        Err(error) => {
            let _ = ended(rt, NAME, Err(error));
            failure(how.status)
        }
    }
}

/// Says of which family of a host it is not told what came or went.
fn tell_untold(rt: &HostRuntime, names: (&str, &str), untold: &Untold) {
    let (file, what) = if untold.is_new {
        (names.1, "went")
    } else {
        (names.0, "came")
    };
    let family = untold.family;
    let Ok(host) = untold.host(rt.alloc()) else {
        return;
    };
    let _ = eprintln!(rt;
        "linkdiff: {file}: no whole dump of family {family}, host={host}: what {what} is not told"
    );
}
