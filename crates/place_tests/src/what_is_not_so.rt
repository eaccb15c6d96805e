//! The shared calls of the tests say no where something does not hold.

use crate::testing::{holds, kept_byte_of};
use expected::{
    are_told_apart, equal, has_value, is_copied, is_stored, means, refuses, rewrites, writes,
};
use link_vf::{VfPort, VfStats};
use nla_wire::Cause;

/// An attribute that is kept, with its padding.
const TEXT: [u8; 8] = [0x05, 0x00, 0x63, 0x80, 0x01, 0x00, 0x00, 0x00];

/// The same with another payload.
const OTHER: [u8; 8] = [0x05, 0x00, 0x63, 0x80, 0x02, 0x00, 0x00, 0x00];

#[test]
fn bytes(rt: HostRuntime) {
    assert!(rt; equal(&TEXT, &TEXT));
    assert!(rt; !equal(&TEXT, &OTHER));
    assert!(rt; !equal(&TEXT, &TEXT[..5]));
    assert!(rt; is_stored(1, &[0x01, 0xff], &[1]));
    for (label, len, out) in [
        ("another length", 2, [0x01, 0xff]),
        ("another byte", 1, [0x02, 0xff]),
        ("another byte after it", 1, [0x01, 0x00]),
    ] {
        holds(&rt, label, !is_stored(len, &out, &[0x01]));
    }
}

#[test]
fn refusals(rt: HostRuntime) {
    let alloc = rt.alloc();
    let cause = Cause::FrameUnder { length: 3 };
    assert!(rt; refuses::<VfPort>(alloc, &[0x03, 0x00, 0x01, 0x00], cause));
    assert!(rt; !refuses::<VfPort>(alloc, &[0x02, 0x00, 0x01, 0x00], cause));
    assert!(rt; !refuses::<VfPort>(alloc, &TEXT, cause));
}

#[test]
fn texts(rt: HostRuntime) {
    let alloc = rt.alloc();
    let value = [VfPort::Other(kept_byte_of(&rt, alloc, 1))];
    assert!(rt; means(alloc, &TEXT, &value, &TEXT));
    assert!(rt; !means(alloc, &OTHER, &value, &TEXT));
    assert!(rt; !means(alloc, &TEXT, &value, &OTHER));
    assert!(rt; !means::<VfPort>(alloc, &TEXT, &[], &[]));
    assert!(rt; !writes(&value, &OTHER));
    assert!(rt; !rewrites::<VfPort>(&TEXT, &OTHER));
    assert!(rt; !rewrites::<VfPort>(&TEXT[..4], &[]));
}

#[test]
fn values(rt: HostRuntime) {
    let alloc = rt.alloc();
    let one = kept_byte_of(&rt, alloc, 1);
    let twin = kept_byte_of(&rt, alloc, 1);
    let other = kept_byte_of(&rt, alloc, 2);
    assert!(rt; is_copied(alloc, &one, &twin));
    assert!(rt; !is_copied(alloc, &one, &other));
    assert!(rt; !are_told_apart(alloc, &[one, twin], &[]));
    assert!(rt; are_told_apart(alloc, &[other], &[]));
    let counter = VfStats::RxBytes(1);
    assert!(rt;
        has_value(
            &counter,
            2,
            &[0x01, 0x00, 0x00, 0x00, 0x00, 0x00, 0x00, 0x00]
        )
    );
    assert!(rt;
        !has_value(
            &counter,
            1,
            &[0x01, 0x00, 0x00, 0x00, 0x00, 0x00, 0x00, 0x00]
        )
    );
    assert!(rt;
        !has_value(
            &counter,
            2,
            &[0x00, 0x00, 0x00, 0x00, 0x00, 0x00, 0x00, 0x01]
        )
    );
}
