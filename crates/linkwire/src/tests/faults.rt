//! Runs whose reader or writer fails at each call in turn, or whose memory is refused; how such faults are compared.

use super::lines::{ANSWERS, TEXT};
use super::pieces::{NEVER, run_failing, run_in_pieces};
use line_filter::error::RunError;
use nla_wire::exact::same;
use std::alloc::Global;
use std::io::ErrorKind;
use std::process::Abort;
use std::test::Fail;

/// The number of LFs.
fn count_ends(bytes: &[u8]) -> usize {
    let mut count: usize = 0;
    for byte in bytes {
        if *byte == b'\n' {
            count = count.saturating_add(1);
        }
    }
    count
}

/// The first lines, so many of them.
fn first_lines(text: &[u8], count: usize) -> &[u8] {
    let mut left = count;
    for i in 0..text.len() {
        if left == 0 {
            return &text[..i];
        }
        if text[i] == b'\n' {
            left -= 1;
        }
    }
    text
}

/// Fails each read in turn, until no read fails. The reads after it would succeed.
fn fail_each_read(rt: &impl Abort, alloc: Global, text: &[u8], answers: &[u8]) -> Result<(), Fail> {
    let piece = 7;
    for reads in 0..100 {
        let ran = run_in_pieces(alloc, text, (piece, NEVER), (reads, NEVER));
        if ran.result.is_ok() {
            assert_eq!(rt; ran.written.as_slice(), answers);
            assert!(rt; reads * piece > text.len(), "a failed read was tried again");
            return Ok(());
        }
        assert_eq!(rt; ran.result, Err(RunError::Read), "after {reads} reads");
        let read = &text[..text.len().min(reads * piece)];
        assert_eq!(rt;
            ran.written.as_slice(),
            first_lines(answers, count_ends(read)),
            "after {reads} reads"
        );
    }
    assert!(rt; false, "no run came to its end");
    Ok(())
}

#[test]
fn each_read_may_fail(rt: HostRuntime) -> Result<(), Fail> {
    fail_each_read(&rt, rt.alloc(), TEXT, ANSWERS)
}

/// Fails each write of one byte in turn, until no write fails. The writes after it would succeed.
fn fail_each_write(
    rt: &impl Abort,
    alloc: Global,
    text: &[u8],
    answers: &[u8],
) -> Result<(), Fail> {
    for writes in 0..answers.len() + 1 {
        let ran = run_in_pieces(alloc, text, (NEVER, 1), (NEVER, writes));
        if ran.result.is_ok() {
            assert_eq!(rt; ran.written.as_slice(), answers);
            assert_eq!(rt; writes, answers.len(), "a failed write was tried again");
            return Ok(());
        }
        assert_eq!(rt; ran.result, Err(RunError::Write), "after {writes} writes");
        assert_eq!(rt;
            ran.written.as_slice(),
            &answers[..writes],
            "after {writes} writes"
        );
    }
    assert!(rt; false, "no run came to its end");
    Ok(())
}

#[test]
fn each_write_may_fail(rt: HostRuntime) -> Result<(), Fail> {
    fail_each_write(&rt, rt.alloc(), TEXT, ANSWERS)
}

/// An interrupted write took nothing, and is tried again, wherever it stands.
#[test]
fn interrupted_writes_change_no_answer(rt: HostRuntime) -> Result<(), Fail> {
    for writes in 0..ANSWERS.len() {
        let calls = (NEVER, writes);
        let ran = run_failing(rt.alloc(), TEXT, (NEVER, 1), calls, ErrorKind::Interrupted);
        assert_eq!(rt; ran.result, Ok(()), "after {writes} writes");
        assert_eq!(rt; ran.written.as_slice(), ANSWERS, "after {writes} writes");
    }
    Ok(())
}

#[test]
fn a_write_that_takes_nothing_fails(rt: HostRuntime) -> Result<(), Fail> {
    let ran = run_in_pieces(rt.alloc(), TEXT, (NEVER, 0), (NEVER, NEVER));
    assert_eq!(rt; ran.result, Err(RunError::Write));
    assert!(rt; ran.written.is_empty());
    Ok(())
}

/// A line of more reads than any small bound on them.
#[test]
fn many_reads_are_made(rt: HostRuntime) -> Result<(), Fail> {
    let text = vec![in rt.alloc(); b'0'; 70000]?;
    let ran = run_in_pieces(rt.alloc(), text.as_slice(), (1, NEVER), (NEVER, NEVER));
    assert_eq!(rt; ran.result, Ok(()));
    assert_eq!(rt; ran.written.as_slice(), b"refused\n".as_slice());
    Ok(())
}

/// Passes also where any allocation is refused, as the fault of a run.
#[test]
fn refused_memory_changes_no_answer(rt: HostRuntime) {
    let ran = run_in_pieces(rt.alloc(), TEXT, (7, 5), (NEVER, NEVER));
    match ran.result {
        Ok(()) => assert_eq!(rt; ran.written.as_slice(), ANSWERS),
        Err(error) => {
            assert!(rt; error == RunError::OutOfMemory || error == RunError::Write);
            assert!(rt; ANSWERS.starts_with(ran.written.as_slice()));
        }
    }
}

#[test]
fn faults_have_their_texts(rt: HostRuntime) -> Result<(), Fail> {
    for (error, want) in [
        (RunError::Read, "read failed"),
        (RunError::Write, "write failed"),
        (RunError::OutOfMemory, "out of memory"),
    ] {
        let text = format!(in rt.alloc(); "{error}")?;
        assert_eq!(rt; text.as_str(), want);
    }
    Ok(())
}

#[test]
fn faults_are_compared(rt: HostRuntime) {
    assert!(rt; same(&RunError::Read, &RunError::Read));
    assert!(rt; !same(&RunError::Read, &RunError::Write));
    assert!(rt; !same(&RunError::Write, &RunError::OutOfMemory));
}
