//! Numbers, addresses and texts as payloads.

use crate::testing::{is_read, is_text, refuses};
use nla_wire::error::checked;
use nla_wire::*;
use std::alloc::Global;
use std::net::Ipv6Addr;
use std::process::Abort;

#[test]
fn reads_numbers(rt: HostRuntime) {
    is_read(&rt, parse_u8(&[255]), &255);
    is_read(&rt, parse_u16(&[0x34, 0x12]), &0x1234);
    is_read(&rt, parse_u32(&[0xdc, 0x05, 0x00, 0x00]), &1500);
    is_read(&rt, parse_i32(&[0xfe, 0xff, 0xff, 0xff]), &-2);
    let long = parse_u64(&[0xef, 0xcd, 0xab, 0x89, 0x67, 0x45, 0x23, 0x01]);
    is_read(&rt, long, &0x0123_4567_89ab_cdef);
}

#[test]
fn reads_addresses(rt: HostRuntime) {
    let octets = [
        0x20, 0x01, 0x0d, 0xb8, 0x00, 0x00, 0x00, 0x00, 0x00, 0x00, 0x00, 0x00, 0x00, 0x00, 0x00,
        0x01,
    ];
    let address = Ipv6Addr::new(0x2001, 0xdb8, 0, 0, 0, 0, 0, 1);
    is_read(&rt, parse_ipv6_addr(&octets), &address);
}

#[test]
fn refuses_payloads(rt: HostRuntime) {
    let long = Cause::WrongLength { got: 5, want: 4 };
    refuses(&rt, parse_u32(&[0; 5]), long);
    refuses(&rt, checked(parse_u32(&[0; 5])), long);
    refuses(&rt, parse_string(rt.alloc(), &[0xc3, 0x28]), Cause::NotUtf8);
    refuses(&rt, check_string(&[0xc3, 0x28]), Cause::NotUtf8);
}

#[test]
fn writes_numbers(rt: HostRuntime) {
    let mut out = [255; 9];
    emit_u16(&mut out, 0x1234);
    is_text(
        &rt,
        &out,
        &[0x34, 0x12, 0xff, 0xff, 0xff, 0xff, 0xff, 0xff, 0xff],
    );
    emit_u32(&mut out, 1500);
    is_text(
        &rt,
        &out,
        &[0xdc, 0x05, 0x00, 0x00, 0xff, 0xff, 0xff, 0xff, 0xff],
    );
    emit_u64(&mut out, 0x0123_4567_89ab_cdef);
    is_text(
        &rt,
        &out,
        &[0xef, 0xcd, 0xab, 0x89, 0x67, 0x45, 0x23, 0x01, 0xff],
    );
    emit_i32(&mut out, -2);
    is_text(
        &rt,
        &out,
        &[0xfe, 0xff, 0xff, 0xff, 0x67, 0x45, 0x23, 0x01, 0xff],
    );
}

/// The bytes are read as this text.
fn reads(rt: &impl Abort, alloc: Global, bytes: &[u8], text: &str) {
    check_string(bytes).expect(rt, "it is read");
    let found = parse_string(alloc, bytes).expect(rt, "it is read");
    assert!(rt; found.as_str() == text);
}

#[test]
fn reads_texts(rt: HostRuntime) {
    reads(&rt, rt.alloc(), &[], "");
    reads(&rt, rt.alloc(), &[0], "");
    reads(&rt, rt.alloc(), &[0x00, 0x00], "\0");
    reads(&rt, rt.alloc(), b"lo", "lo");
    reads(&rt, rt.alloc(), &[0xc3, 0xa4, 0x00], "ä");
}
