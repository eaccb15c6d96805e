//! Each line of the tables, and each damaged list, has its answer.

use super::damaged::{self, Damaged};
use super::growth::letters;
use super::members;
use super::pieces::{NEVER, answers_to, run_in_pieces};
use super::rows::{self, Row, lists};
use std::alloc::Global;
use std::process::Abort;
use std::test::Fail;

/// Some lines of each kind, the last of which no LF ends.
pub const TEXT: &[u8] =
    b"00ff611e000000000000000000000000\n\n0g\n0000000000000000000000000000000004001200\n\
        000000000000000000000000000000000900180005006300FF\n0000000000000000000000000000000008000400dc050000\r\n\
        0000000000000000000000000000000006002AC0DEAD";

/// Their answers.
pub const ANSWERS: &[u8] =
    b"ok 0000ffff000000000000000000000000\nrefused\nnothex\nrefused\nempty-ports\nnothex\n\
        ok 0000000000000000000000000000000006002ac0dead0000\n";

/// Each line of a table has its answer.
fn answers(rt: &impl Abort, alloc: Global, rows: &[Row]) -> Result<(), Fail> {
    for (label, line, answer) in rows {
        let text = format!(in alloc; "{line}\n")?;
        let want = format!(in alloc; "{answer}\n")?;
        let got = answers_to(alloc, text.as_bytes())?;
        assert_eq!(rt; got.as_slice(), want.as_bytes(), "{label}: {line}");
    }
    Ok(())
}

#[test]
fn lines_that_are_no_message(rt: HostRuntime) -> Result<(), Fail> {
    answers(&rt, rt.alloc(), &rows::LINES)
}

#[test]
fn frames(rt: HostRuntime) -> Result<(), Fail> {
    answers(&rt, rt.alloc(), &rows::FRAMES)
}

#[test]
fn numbers_and_texts(rt: HostRuntime) -> Result<(), Fail> {
    answers(&rt, rt.alloc(), &rows::NUMBERS)
}

#[test]
fn numbers_of_one_size(rt: HostRuntime) -> Result<(), Fail> {
    answers(&rt, rt.alloc(), &rows::SIZED)
}

#[test]
fn records(rt: HostRuntime) -> Result<(), Fail> {
    answers(&rt, rt.alloc(), &rows::RECORDS)
}

#[test]
fn flat_lists(rt: HostRuntime) -> Result<(), Fail> {
    answers(&rt, rt.alloc(), &lists::LISTS)
}

#[test]
fn functions_and_ports(rt: HostRuntime) -> Result<(), Fail> {
    answers(&rt, rt.alloc(), &lists::FUNCTIONS)
}

#[test]
fn settings_by_family(rt: HostRuntime) -> Result<(), Fail> {
    answers(&rt, rt.alloc(), &lists::FAMILIES)
}

#[test]
fn whole_messages(rt: HostRuntime) -> Result<(), Fail> {
    answers(&rt, rt.alloc(), &rows::WHOLE)
}

/// Each line is refused.
fn are_refused(rt: &impl Abort, alloc: Global, rows: &[Damaged]) -> Result<(), Fail> {
    for (label, line) in rows {
        let text = format!(in alloc; "{line}\n")?;
        let got = answers_to(alloc, text.as_bytes())?;
        assert_eq!(rt; got.as_slice(), b"refused\n".as_slice(), "{label}: {line}");
    }
    Ok(())
}

#[test]
fn damaged_lists(rt: HostRuntime) -> Result<(), Fail> {
    are_refused(&rt, rt.alloc(), &damaged::STRAY_ENDS)?;
    are_refused(&rt, rt.alloc(), &damaged::LONG_LENGTHS)?;
    are_refused(&rt, rt.alloc(), &damaged::SHORT_LENGTHS)
}

#[test]
fn lists_without_members(rt: HostRuntime) -> Result<(), Fail> {
    answers(&rt, rt.alloc(), &members::EMPTY_LISTS)
}

#[test]
fn lists_of_foreign_members(rt: HostRuntime) -> Result<(), Fail> {
    answers(&rt, rt.alloc(), &members::FOREIGN_MEMBERS)
}

#[test]
fn a_last_line_needs_no_end(rt: HostRuntime) -> Result<(), Fail> {
    for (text, want) in [
        ("", ""),
        ("\n", "refused\n"),
        ("\n\n", "refused\nrefused\n"),
        ("0", "nothex\n"),
        ("0\n", "nothex\n"),
        ("\n0", "refused\nnothex\n"),
        ("\r", "nothex\n"),
        ("00\r\n00", "nothex\nrefused\n"),
    ] {
        let got = answers_to(rt.alloc(), text.as_bytes())?;
        assert_eq!(rt; got.as_slice(), want.as_bytes(), "text {text:?}");
    }
    Ok(())
}

#[test]
fn pieces_change_nothing(rt: HostRuntime) -> Result<(), Fail> {
    for read in 1..9 {
        for written in 1..9 {
            let ran = run_in_pieces(rt.alloc(), TEXT, (read, written), (NEVER, NEVER));
            assert_eq!(rt; ran.result, Ok(()), "pieces of {read} and {written}");
            assert_eq!(rt;
                ran.written.as_slice(),
                ANSWERS,
                "pieces of {read} and {written}"
            );
        }
    }
    Ok(())
}

/// What is asked for, the request as it is emitted, its lists' lengths too, and the record that it is read as, which is
/// filled up with zeros.
type Request = (&'static str, &'static str, &'static str);

const REQUESTS: [Request; 4] = [
    ("nothing", "0c001a000800020004000180", ""),
    (
        "forwarding",
        "14001a00100002000c0001800800010001000000",
        "0800010001000000",
    ),
    (
        "rp_filter",
        "14001a00100002000c0001800800080002000000",
        "0800080002000000",
    ),
    (
        "the last setting",
        "14001a00100002000c0001800800220005000000",
        "0800220005000000",
    ),
];

/// Settings of IPv4 with the flag of a request and its attributes, as a request is emitted, are read as settings.
#[test]
fn requests_for_settings_are_read_as_settings(rt: HostRuntime) -> Result<(), Fail> {
    for (label, request, record) in REQUESTS {
        let line = letters(rt.alloc(), request, 0)?;
        let mut want = Vec::from_slice(rt.alloc(), b"ok 00000000000000000000000000000000")?;
        want.extend_from_slice(b"94001a00900002008c000100")?;
        want.extend_from_slice(record.as_bytes())?;
        let zeros = vec![in rt.alloc(); b'0'; (2 * 136usize).saturating_sub(record.len())]?;
        want.extend_from_slice(zeros.as_slice())?;
        want.push(b'\n')?;
        let got = answers_to(rt.alloc(), line.as_slice())?;
        assert_eq!(rt; got.as_slice(), want.as_slice(), "{label}");
    }
    Ok(())
}

/// 20,000 attributes that are kept, and a stray end or a short length after them.
#[test]
fn a_long_line_is_refused_for_its_end(rt: HostRuntime) -> Result<(), Fail> {
    for (after, refused) in [
        ("", false),
        ("01", true),
        ("0102", true),
        ("010203", true),
        ("03006300", true),
    ] {
        let mut line = Vec::from_slice(rt.alloc(), b"00000000000000000000000000000000")?;
        for _ in 0..20000 {
            line.extend_from_slice(b"08006300DEADBEEF")?;
        }
        line.extend_from_slice(after.as_bytes())?;
        let got = answers_to(rt.alloc(), line.as_slice())?;
        let want = if refused { 8 } else { 320036 };
        assert_eq!(rt; got.len(), want, "after 20000 attributes: {after:?}");
        assert!(rt;
            got.starts_with(b"refused\n") == refused,
            "after 20000 attributes: {after:?}"
        );
    }
    Ok(())
}

#[test]
fn a_line_may_be_longer_than_a_read(rt: HostRuntime) -> Result<(), Fail> {
    for (digits, want) in [
        (65535, b"nothex\nrefused\n".as_slice()),
        (65536, b"refused\nrefused\n".as_slice()),
        (65537, b"nothex\nrefused\n".as_slice()),
        (262144, b"refused\nrefused\n".as_slice()),
    ] {
        let mut text = vec![in rt.alloc(); b'0'; digits]?;
        text.extend_from_slice(b"\n00")?;
        let got = answers_to(rt.alloc(), text.as_slice())?;
        assert!(rt; got.as_slice() == want, "{digits} digits");
    }
    Ok(())
}

#[test]
fn few_answers_wait(rt: HostRuntime) -> Result<(), Fail> {
    let text = vec![in rt.alloc(); b'\n'; 60000]?;
    let ran = run_in_pieces(rt.alloc(), text.as_slice(), (NEVER, NEVER), (NEVER, NEVER));
    assert_eq!(rt; ran.result, Ok(()));
    assert_eq!(rt; ran.written.len(), 480000);
    assert!(rt; ran.longest < 65536 + 8);
    Ok(())
}
