//! What differs between messages of which attributes are refused.

use crate::messages::{PORT, bytes_of};
use crate::told::list_of;
use frame_shown::form::Order;
use link_msg::numbers::{IFLA_CARRIER_CHANGES, IFLA_IFALIAS};
use message_diff::{Compared, Snapshot, push_new};
use std::alloc::{AllocError, Global};

/// The header of a message, and the name `lo`.
const FRONT: [u8; 24] = [
    0, 0, 4, 3, 1, 0, 0, 0, 73, 0, 1, 0, 0, 0, 0, 0, 7, 0, 3, 0, 108, 111, 0, 0,
];

/// A message with an attribute of this number.
fn with(alloc: Global, number: u16, payload: &[u8]) -> Result<Vec<u8>, AllocError> {
    let mut made = FRONT.to_vec(alloc)?;
    let size = u16::try_from(payload.len()).unwrap_or(0);
    made.extend_from_slice(&size.saturating_add(4).to_le_bytes())?;
    made.extend_from_slice(&number.to_le_bytes())?;
    made.extend_from_slice(payload)?;
    made.resize(made.len().next_multiple_of(4), 0)?;
    Ok(made)
}

/// Whether this is the list that is told where an attribute of this number has one payload and then another; `refused`
/// where one of them is.
fn lists(
    alloc: Global,
    by: Compared,
    number: u16,
    payloads: (&[u8], &[u8]),
    expected: &str,
) -> Result<bool, AllocError> {
    let was = with(alloc, number, payloads.0)?;
    let is = with(alloc, number, payloads.1)?;
    let list = list_of(alloc, by, was.as_slice(), is.as_slice())?;
    Ok(list.as_slice() == expected.as_bytes())
}

/// An alias in Latin-1.
const LATIN: &[u8] = &[0xe9];

/// An alias that ends within a character.
const CUT: &[u8] = &[0xc3, 0x28];

/// An alias.
const ALIAS: &[u8] = b"abc\0";

#[test]
fn another_alias(rt: HostRuntime) {
    let list = r#"[{"path":"refused.ifla_ifalias","old":"c328","new":"e9"}]"#;
    for by in [Compared::LenientState, Compared::LenientMessage] {
        assert!(rt; lists(rt.alloc(), by, IFLA_IFALIAS, (CUT, LATIN), list) == Ok(true));
    }
}

#[test]
fn a_valid_alias(rt: HostRuntime) {
    let came = r#"[{"path":"refused.ifla_ifalias","old":"e9"},{"path":"ifalias","new":"abc"}]"#;
    let went = r#"[{"path":"ifalias","old":"abc"},{"path":"refused.ifla_ifalias","new":"e9"}]"#;
    let by = Compared::LenientState;
    assert!(rt; lists(rt.alloc(), by, IFLA_IFALIAS, (LATIN, ALIAS), came) == Ok(true));
    assert!(rt; lists(rt.alloc(), by, IFLA_IFALIAS, (ALIAS, LATIN), went) == Ok(true));
    assert!(rt; lists(rt.alloc(), by, IFLA_IFALIAS, (LATIN, LATIN), "") == Ok(true));
}

#[test]
fn strictly(rt: HostRuntime) {
    for by in [Compared::State, Compared::Message] {
        assert!(rt; lists(rt.alloc(), by, IFLA_IFALIAS, (LATIN, ALIAS), "refused") == Ok(true));
        assert!(rt; lists(rt.alloc(), by, IFLA_IFALIAS, (ALIAS, LATIN), "refused") == Ok(true));
    }
}

/// Counters of five bytes, which are refused.
const COUNTS: (&[u8], &[u8]) = (&[1, 2, 3, 4, 5], &[9, 9, 9, 9, 9]);

#[test]
fn a_refused_counter(rt: HostRuntime) {
    let list = r#"[{"path":"refused.ifla_carrier_changes","old":"0102030405","new":"0909090909"}]"#;
    let number = IFLA_CARRIER_CHANGES;
    let state = lists(rt.alloc(), Compared::LenientState, number, COUNTS, "");
    let message = lists(rt.alloc(), Compared::LenientMessage, number, COUNTS, list);
    assert!(rt; state == Ok(true));
    assert!(rt; message == Ok(true));
}

/// The line of one that came with a refused alias.
const NEW: &[u8] = b"{\"change\":\"new\",\"ifi-family\":0,\"ifi-index\":1,\"ifname\":\"lo\"}\n";

/// Whether it is.
fn is_new(alloc: Global) -> Result<bool, AllocError> {
    let bytes = with(alloc, IFLA_IFALIAS, LATIN)?;
    let mut line = Vec::new(alloc);
    match Snapshot::new(
        alloc,
        Compared::LenientState,
        Order::Since,
        bytes.as_slice(),
    ) {
        Ok(snapshot) => push_new(alloc, b"", &snapshot, &mut line)?,
        Err(_) => {}
    }
    Ok(line.as_slice() == NEW)
}

#[test]
fn that_came(rt: HostRuntime) {
    assert!(rt; is_new(rt.alloc()) == Ok(true));
}

/// Whether between two messages that are accepted the same differs, strictly and leniently.
fn is_one(alloc: Global, by: Compared, old: &[u8], new: &[u8]) -> bool {
    match (
        list_of(alloc, by, old, new),
        list_of(alloc, by.leniently(), old, new),
    ) {
        (Ok(one), Ok(other)) => one.as_slice() == other.as_slice() && one.starts_with(b"[{"),
        _ => false,
    }
}

#[test]
fn accepted_messages(rt: HostRuntime) {
    let old = bytes_of(rt.alloc(), &PORT).expect(&rt, "memory");
    let mut new = bytes_of(rt.alloc(), &PORT).expect(&rt, "memory");
    if let Some(letter) = new.as_mut_slice().get_mut(20) {
        *letter = b'x';
    }
    for by in [Compared::State, Compared::Message] {
        assert!(rt; is_one(rt.alloc(), by, old.as_slice(), new.as_slice()));
    }
}
