//! Empty lists of ports, which are read, and have no canonical encoding.

use crate::rows::*;
use crate::testing::{list_of, text_of, vec_of};
use expected::GROWTH;
use link_msg::laws::law_room;
use link_msg::*;
use std::alloc::Global;
use std::process::Abort;

/// A header of zeros and a list of ports whose one entry is foreign.
const NO_PORTS: [u8; 24] = [
    0x00, 0x00, 0x00, 0x00, 0x00, 0x00, 0x00, 0x00, 0x00, 0x00, 0x00, 0x00, 0x00, 0x00, 0x00, 0x00,
    0x08, 0x00, 0x18, 0x00, 0x04, 0x00, 0x02, 0x00,
];

/// What such a list is written as is refused.
#[test]
fn no_ports(rt: HostRuntime) {
    let alloc = rt.alloc();
    let text = with_header(&rt, alloc, 0, &[0x04, 0x00, 0x18, 0x00]);
    let made = message_of(
        &rt,
        alloc,
        [LinkAttribute::VfPorts(list_of(&rt, alloc, []))],
    );
    is_portless_row(
        &rt,
        alloc,
        "a foreign entry",
        &NO_PORTS,
        &made,
        text.as_slice(),
    );
    is_refused_row(&rt, alloc, "its text", text.as_slice(), Cause::EmptyList);
}

#[test]
fn in_a_long_buffer(rt: HostRuntime) {
    let mut out = [255; 2000];
    assert!(rt; 24 * GROWTH <= 2000);
    law_room(&NO_PORTS);
    let answer = canonical_into(&NO_PORTS, &mut out);
    is_refused_so(&rt, "a foreign entry", answer, CanonError::EmptyVfPorts);
    assert!(rt; are_all(&out, 255));
}

/// These bytes, and an alias that gets no room for its NUL.
fn with_alias(rt: &impl Abort, alloc: Global, front: &[u8]) -> Vec<u8> {
    let mut bytes = vec_of(rt, alloc, front);
    bytes
        .extend_from_slice(&[0xff, 0xff, 0x14, 0x00])
        .expect(rt, "memory");
    bytes.extend_from_slice(&[0x61; 65531]).expect(rt, "memory");
    bytes
}

/// Of one message the fit is judged first.
#[test]
fn what_does_not_fit_comes_first(rt: HostRuntime) {
    let alloc = rt.alloc();
    let unfit = with_alias(&rt, alloc, &NO_PORTS);
    let alias = text_of(
        &rt,
        alloc,
        std::str::from_utf8(&[0x61; 65531]).expect(&rt, "memory"),
    );
    let ports = LinkAttribute::VfPorts(list_of(&rt, alloc, []));
    let wanted = message_of(&rt, alloc, [ports, LinkAttribute::IfAlias(alias)]);
    is_unfit_row(
        &rt,
        alloc,
        "no ports and an alias",
        unfit.as_slice(),
        &wanted,
    );
}

/// Of two messages the first is judged first.
#[test]
fn refusals_have_an_order(rt: HostRuntime) {
    let alloc = rt.alloc();
    let unfit = with_alias(&rt, alloc, &[0; 16]);
    for (label, first, second, wanted) in [
        (
            "no ports, and no header",
            NO_PORTS.as_slice(),
            [0; 15].as_slice(),
            CanonError::EmptyVfPorts,
        ),
        (
            "no ports, and an alias",
            NO_PORTS.as_slice(),
            unfit.as_slice(),
            CanonError::EmptyVfPorts,
        ),
        (
            "an alias, and no ports",
            unfit.as_slice(),
            NO_PORTS.as_slice(),
            CanonError::DoesNotFit,
        ),
    ] {
        is_refused_so(&rt, label, same_message(alloc, first, second), wanted);
    }
}

/// An attribute of a number that no place lists, with a length below 4.
const SHORT: [u8; 4] = [0x03, 0x00, 0x63, 0x00];

/// These bytes, and a frame that is no frame.
fn with_fault(rt: &impl Abort, alloc: Global, front: &[u8]) -> Vec<u8> {
    let mut bytes = vec_of(rt, alloc, front);
    bytes.extend_from_slice(&SHORT).expect(rt, "memory");
    bytes
}

/// A fault comes before what stands in front of it: an alias that does not fit, and an empty list of ports.
#[test]
fn faults_come_first(rt: HostRuntime) {
    let alloc = rt.alloc();
    let mut unfit = with_alias(&rt, alloc, &[0; 16]);
    // the padding of the alias
    unfit.push(0).expect(&rt, "memory");
    let cause = Cause::FrameUnder { length: 3 };
    let zeros = [0; 16];
    for (label, front) in [
        ("an alias", unfit.as_slice()),
        ("no ports", NO_PORTS.as_slice()),
    ] {
        let faulty = with_fault(&rt, alloc, front);
        let faulty = faulty.as_slice();
        is_refused_row(&rt, alloc, label, faulty, cause);
        for (one, other) in [
            (faulty, zeros.as_slice()),
            (&zeros, faulty),
            (faulty, faulty),
        ] {
            is_refused_so(
                &rt,
                label,
                same_message(alloc, one, other),
                no_message(cause),
            );
        }
    }
}
