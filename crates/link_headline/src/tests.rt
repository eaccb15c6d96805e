//! The law is asked once of bytes that mean a message, and once of bytes that are refused.

use crate::{Answers, law_headline};
use link_msg::{CanonError, Cause};

/// The name "lo" after a header of zeros, without its NUL and its padding.
const NAMED: [u8; 22] = [
    0, 0, 0, 0, 0, 0, 0, 0, 0, 0, 0, 0, 0, 0, 0, 0, // the header
    6, 0, 3, 0, b'l', b'o',
];

/// Its canonical encoding.
const ENCODING: [u8; 24] = [
    0, 0, 0, 0, 0, 0, 0, 0, 0, 0, 0, 0, 0, 0, 0, 0, // the header
    7, 0, 3, 0, b'l', b'o', 0, 0,
];

/// An MTU of one byte.
const REFUSED: [u8; 21] = [
    0, 0, 0, 0, 0, 0, 0, 0, 0, 0, 0, 0, 0, 0, 0, 0, // the header
    5, 0, 4, 0, 10,
];

#[test]
fn accepted(rt: HostRuntime) {
    let Answers {
        parsed,
        checked,
        canonical,
        same,
    } = law_headline(rt.alloc(), &NAMED, &ENCODING);
    assert!(rt; parsed.expect(&rt, "it is read").attributes.len() == 1);
    assert!(rt; checked.is_ok());
    assert!(rt; canonical.expect(&rt, "it has an encoding").as_slice() == ENCODING.as_slice());
    assert!(rt; same.expect(&rt, "both have an encoding"));
}

#[test]
fn refused(rt: HostRuntime) {
    let Answers {
        parsed,
        checked,
        canonical,
        same,
    } = law_headline(rt.alloc(), &REFUSED, &NAMED);
    let cause = Cause::WrongLength { got: 1, want: 4 };
    assert!(rt; parsed.is_err_and(|error| error.cause == cause));
    assert!(rt; checked.is_err_and(|error| error.cause == cause));
    assert!(rt; matches!(canonical, Err(CanonError::Decode(_))));
    assert!(rt; matches!(same, Err(CanonError::Decode(_))));
}
