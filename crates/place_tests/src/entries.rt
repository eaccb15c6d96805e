//! Entries of functions and of ports, alone and in lists: what is refused of them.

use crate::testing::{holds, is_same};
use expected::{BAD_FRAMES, cause_of, equal};
use link_vf::*;
use nla_wire::Cause;
use std::alloc::Global;
use std::process::Abort;

/// What an entry's payload is refused for, or nothing. It has a text where it is not refused.
fn entry_faults<E: Entry>(
    rt: &impl Abort,
    alloc: Global,
    label: &str,
    payload: &[u8],
    cause: Option<Cause>,
) {
    is_same(rt, label, &cause_of(E::parse(alloc, payload)), &cause);
    is_same(rt, label, &cause_of(E::check(payload)), &cause);
    holds(
        rt,
        label,
        E::measure_entry(payload).is_none() == cause.is_some(),
    );
}

/// What a list of entries is refused for, or nothing. It has a text where it is not refused.
fn list_faults<E: Entry>(
    rt: &impl Abort,
    alloc: Global,
    label: &str,
    payload: &[u8],
    cause: Option<Cause>,
) {
    is_same(rt, label, &cause_of(E::parse_list(alloc, payload)), &cause);
    is_same(rt, label, &cause_of(E::check_list(payload)), &cause);
    holds(
        rt,
        label,
        E::measure_list(payload).is_none() == cause.is_some(),
    );
}

/// What is no frame is refused, in an entry and as one, and so is an entry of no bytes. A list of none is read, and so
/// is one whose one entry has another number.
pub(crate) fn refuses_bad_entries<E: Entry>(rt: &impl Abort, alloc: Global) {
    for (bytes, cause) in &BAD_FRAMES {
        entry_faults::<E>(rt, alloc, "in an entry", bytes, Some(*cause));
        list_faults::<E>(rt, alloc, "as an entry", bytes, Some(*cause));
    }
    entry_faults::<E>(
        rt,
        alloc,
        "an entry of no bytes",
        &[],
        Some(Cause::EmptyList),
    );
    list_faults::<E>(rt, alloc, "a list of no bytes", &[], None);
    for (label, payload, cause) in [
        (
            "an empty entry",
            [0x04, 0x00, 0x01, 0x00],
            Some(Cause::EmptyList),
        ),
        (
            "an empty entry with a flag",
            [0x04, 0x00, 0x01, 0x80],
            Some(Cause::EmptyList),
        ),
        (
            "an entry with another number",
            [0x04, 0x00, 0x02, 0x00],
            None,
        ),
    ] {
        list_faults::<E>(rt, alloc, label, &payload, cause);
    }
}

#[test]
fn entries_of_functions(rt: HostRuntime) {
    let alloc = rt.alloc();
    refuses_bad_entries::<LinkVfInfo>(&rt, alloc);
    let first = Some(Cause::TooShort { got: 0, need: 8 });
    let payload = [0x04, 0x00, 0x09, 0x00, 0x03, 0x00, 0x09, 0x00];
    entry_faults::<LinkVfInfo>(&rt, alloc, "a short record first", &payload, first);
}

/// An entry of functions that is dropped, whose payload is no list.
const DROPPED: [u8; 8] = [0x08, 0x00, 0x05, 0x00, 0xff, 0xff, 0xff, 0xff];

/// Entries in a list of functions, and what they are refused for, or nothing.
const ENTRIES: &[(&str, &[u8], Option<Cause>)] = &[
    ("an entry that is dropped", &DROPPED, None),
    (
        "a function without counters",
        &[0x08, 0x00, 0x01, 0x00, 0x04, 0x00, 0x08, 0x00],
        None,
    ),
    (
        "a short record before a length of 3",
        &[
            0x08, 0x00, 0x01, 0x00, 0x04, 0x00, 0x09, 0x00, 0x03, 0x00, 0x01, 0x00,
        ],
        Some(Cause::TooShort { got: 0, need: 8 }),
    ),
    (
        "a length that passes the list",
        &[0xff, 0xff, 0x07, 0x00],
        Some(Cause::FrameOver {
            length: 65535,
            left: 4,
        }),
    ),
    (
        "a counter of seven bytes",
        &[
            0x14, 0x00, 0x01, 0x00, 0x10, 0x00, 0x08, 0x00, 0x0b, 0x00, 0x00, 0x00, 0x00, 0x00,
            0x00, 0x00, 0x00, 0x00, 0x00, 0x00,
        ],
        Some(Cause::WrongLength { got: 7, want: 8 }),
    ),
];

#[test]
fn entries_in_lists_of_functions(rt: HostRuntime) {
    let alloc = rt.alloc();
    for (label, payload, cause) in ENTRIES {
        list_faults::<LinkVfInfo>(&rt, alloc, label, payload, *cause);
    }
    let dropped = LinkVfInfo::parse_list(alloc, &DROPPED);
    assert!(rt; dropped.expect(&rt, "memory").len() == 0);
}

/// What is refused as an entry is not written, and changes no byte.
fn writes_no_entry<E: Entry>(rt: &impl Abort, label: &str, payload: &[u8]) {
    let mut out = [255; 8];
    holds(rt, label, E::measure_entry(payload).is_none());
    let Err(_error) = E::check(payload) else {
        panic!(rt; "there is an entry: {label}");
    };
    holds(rt, label, E::canon(payload, &mut out).is_none());
    holds(rt, label, equal(&out, &[255; 8]));
}

/// What is refused as a list of entries is not written, and changes no byte.
fn writes_no_list<E: Entry>(rt: &impl Abort, label: &str, payload: &[u8]) {
    let mut out = [255; 8];
    holds(rt, label, E::measure_list(payload).is_none());
    let Err(_error) = E::check_list(payload) else {
        panic!(rt; "there is a list: {label}");
    };
    holds(rt, label, E::canon_list(payload, &mut out).is_none());
    holds(rt, label, equal(&out, &[255; 8]));
}

/// No bytes, and what passes them.
fn writes_no_bad_entries<E: Entry>(rt: &impl Abort) {
    writes_no_entry::<E>(rt, "no bytes", &[]);
    writes_no_entry::<E>(
        rt,
        "a length that passes the entry",
        &[0x05, 0x00, 0x09, 0x00],
    );
    writes_no_list::<E>(rt, "an empty entry", &[0x04, 0x00, 0x01, 0x00]);
    writes_no_list::<E>(
        rt,
        "a length that passes the list",
        &[0x05, 0x00, 0x01, 0x00],
    );
}

#[test]
fn refused_functions_written(rt: HostRuntime) {
    writes_no_bad_entries::<LinkVfInfo>(&rt);
    writes_no_entry::<LinkVfInfo>(&rt, "a short record", &[0x04, 0x00, 0x09, 0x00]);
}

#[test]
fn refused_ports_written(rt: HostRuntime) {
    writes_no_bad_entries::<LinkVfPort>(&rt);
}
