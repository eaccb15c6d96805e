//! Ports: what they mean, are refused for, and are written as.

use crate::entries::refuses_bad_entries;
use crate::testing::{kept_of, list_of, refuses_bad_frames};
use expected::{has_value, is_copied, is_stored, means};
use link_vf::*;
use std::alloc::Global;
use std::process::Abort;

#[test]
fn refused_ports(rt: HostRuntime) {
    let alloc = rt.alloc();
    refuses_bad_frames::<VfPort>(&rt, alloc);
    refuses_bad_entries::<LinkVfPort>(&rt, alloc);
}

#[test]
fn ports(rt: HostRuntime) {
    let alloc = rt.alloc();
    let kind_one = VfPort::Other(kept_of(&rt, alloc, 1 | 0x8000, &[7]));
    let text = [0x05, 0x00, 0x01, 0x80, 0x07, 0x00, 0x00, 0x00];
    assert!(rt; means(alloc, &[0x05, 0x00, 0x01, 0x80, 0x07], &[kind_one], &text));
}

/// An entry of one member, as `port_of_one`.
const ENTRY: [u8; 8] = [0x08, 0x00, 0x01, 0x00, 0x05, 0x00, 0x00, 0x00];

/// A port with one member.
fn port_of_one(rt: &impl Abort, alloc: Global) -> LinkVfPort {
    let member = VfPort::Other(kept_of(rt, alloc, 1, &[0x05, 0x00, 0x00, 0x00]));
    LinkVfPort(list_of(rt, alloc, [member]))
}

#[test]
fn one_port(rt: HostRuntime) {
    let port = port_of_one(&rt, rt.alloc());
    let read = LinkVfPort::parse(rt.alloc(), &ENTRY).expect(&rt, "it is read");
    assert!(rt; is_copied(rt.alloc(), &read, &port));
    assert!(rt; has_value(&port, 1, &ENTRY));
}

#[test]
fn ports_written(rt: HostRuntime) {
    assert!(rt; LinkVfPort::check(&ENTRY).is_ok());
    assert!(rt; LinkVfPort::measure_entry(&ENTRY) == Some(8));
    let mut out = [255; 13];
    assert!(rt; LinkVfPort::canon(&ENTRY, &mut out) == Some(8));
    assert!(rt; is_stored(8, &out, &ENTRY));
    let len = LinkVfPort::write_entry(25, &ENTRY, &mut out);
    let text = [
        0x0c, 0x00, 0x19, 0x00, 0x08, 0x00, 0x01, 0x00, 0x05, 0x00, 0x00, 0x00,
    ];
    assert!(rt; is_stored(len, &out, &text));
}

#[test]
fn lists_of_ports_written(rt: HostRuntime) {
    let list = [
        0x05, 0x00, 0x03, 0x00, 0x01, 0x00, 0x00, 0x00, 0x08, 0x00, 0x01, 0x00, 0x04, 0x00, 0x09,
        0x00,
    ];
    assert!(rt; LinkVfPort::check_list(&list).is_ok());
    assert!(rt; LinkVfPort::measure_list(&list) == Some(8));
    let mut out = [255; 13];
    assert!(rt; LinkVfPort::canon_list(&list, &mut out) == Some(8));
    assert!(rt; is_stored(8, &out, &list[8..]));
    let len = LinkVfPort::write_list(24, &list, &mut out);
    let text = [
        0x0c, 0x00, 0x18, 0x00, 0x08, 0x00, 0x01, 0x00, 0x04, 0x00, 0x09, 0x00,
    ];
    assert!(rt; is_stored(len, &out, &text));
}
