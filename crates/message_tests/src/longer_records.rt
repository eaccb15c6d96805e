//! Messages whose records are longer when they are written than when they were read.

use crate::rows::*;
use crate::testing::{holds, list_of, text_of};
use expected::{COUNTERS, GROWTH, SETTINGS, is_stored, zeros_after};
use link_msg::laws::law_room;
use link_msg::*;
use std::alloc::Global;
use std::process::Abort;

/// The attributes of IPv4 settings and of IPv6 counters, as kernels send them.
const KERNEL_SETTINGS: usize = SETTINGS - 4;

const KERNEL_COUNTERS: usize = COUNTERS - 8;

/// A header of zeros, these headers of IFLA_AF_SPEC and of the list of a family, so many times this member, and the
/// bytes after them.
fn message(
    rt: &impl Abort,
    alloc: Global,
    headers: &[u8; 8],
    count: usize,
    member: &[u8],
    after: &[u8],
) -> Vec<u8> {
    let mut bytes = with_header(rt, alloc, 0, headers);
    for _ in 0..count {
        bytes.extend_from_slice(member).expect(rt, "memory");
    }
    bytes.extend_from_slice(after).expect(rt, "memory");
    bytes
}

/// The settings of this family.
fn families(rt: &impl Abort, alloc: Global, family: AfSpecUnspec) -> LinkAttribute {
    LinkAttribute::AfSpecUnspec(list_of(rt, alloc, [family]))
}

/// A message of these settings of IPv4.
fn of_settings(rt: &impl Abort, alloc: Global, settings: AfSpecInet) -> LinkMessage {
    let inet = AfSpecUnspec::Inet(list_of(rt, alloc, [settings]));
    message_of(rt, alloc, [families(rt, alloc, inet)])
}

/// So many counters of IPv6 that are all zero.
fn counters(rt: &impl Abort, alloc: Global, count: usize) -> LinkAttribute {
    let mut members = Vec::new(alloc);
    for _ in 0..count {
        let stats = AfSpecInet6::Stats(Inet6Stats::default());
        members.push(stats).expect(rt, "memory");
    }
    families(rt, alloc, AfSpecUnspec::Inet6(List::new(members)))
}

/// A message of so many counters.
fn of_counters(rt: &impl Abort, alloc: Global, count: usize) -> LinkMessage {
    message_of(rt, alloc, [counters(rt, alloc, count)])
}

/// The bytes of so many counters of four bytes, with the lengths of their lists.
fn short_counters(rt: &impl Abort, alloc: Global, count: usize) -> Vec<u8> {
    assert!(rt; count < 1000);
    let [outer_low, outer_high] = (8 + 4 * count as u16).to_le_bytes();
    let [low, high] = (4 + 4 * count as u16).to_le_bytes();
    let headers = [outer_low, outer_high, 0x1a, 0x00, low, high, 0x0a, 0x00];
    message(rt, alloc, &headers, count, &[0x04, 0x00, 0x03, 0x00], &[])
}

/// A message of two settings, and its text.
fn two_settings(rt: &impl Abort, alloc: Global) -> (LinkMessage, Vec<u8>) {
    let conf = AfSpecInet::DevConf(InetDevConf {
        forwarding: 65544,
        mc_forwarding: 1,
        ..InetDevConf::default()
    });
    let member: [u8; SETTINGS] = zeros_after(&[
        0x8c, 0x00, 0x01, 0x00, 0x08, 0x00, 0x01, 0x00, 0x01,
    ]);
    let headers = [0x94, 0x00, 0x1a, 0x00, 0x90, 0x00, 0x02, 0x00];
    let text = message(rt, alloc, &headers, 1, &member, &[]);
    (of_settings(rt, alloc, conf), text)
}

#[test]
fn settings_become_longer(rt: HostRuntime) {
    let alloc = rt.alloc();
    let (wanted, text) = two_settings(&rt, alloc);
    let numbers = [
        0x0c, 0x00, 0x01, 0x00, 0x08, 0x00, 0x01, 0x00, 0x01, 0x00, 0x00, 0x00,
    ];
    let short = message(
        &rt,
        alloc,
        &[0x14, 0x00, 0x1a, 0x00, 0x10, 0x00, 0x02, 0x00],
        1,
        &numbers,
        &[],
    );
    is_row(
        &rt,
        alloc,
        "two numbers",
        short.as_slice(),
        &wanted,
        text.as_slice(),
    );
    let member: [u8; KERNEL_SETTINGS] = zeros_after(&[
        0x88, 0x00, 0x01, 0x00, 0x08, 0x00, 0x01, 0x00, 0x01,
    ]);
    let headers = [0x90, 0x00, 0x1a, 0x00, 0x8c, 0x00, 0x02, 0x00];
    let sent = message(&rt, alloc, &headers, 1, &member, &[]);
    is_row(
        &rt,
        alloc,
        "as a kernel sends",
        sent.as_slice(),
        &wanted,
        text.as_slice(),
    );
}

/// A message of a request for these settings, made by hand, is written as these attributes.
fn asks(
    rt: &impl Abort,
    alloc: Global,
    label: &str,
    settings: InetDevConf,
    attributes: &[u8],
) -> Vec<u8> {
    let made = of_settings(rt, alloc, AfSpecInet::DevConfRequest(settings));
    let text = with_header(rt, alloc, 0, attributes);
    is_written(rt, alloc, label, &made, text.as_slice());
    text
}

/// A request is written as its attributes, which are read as the front of a record.
#[test]
fn requests_become_settings(rt: HostRuntime) {
    let alloc = rt.alloc();
    let none = InetDevConf::default();
    asks(
        &rt,
        alloc,
        "nothing",
        none,
        &[
            0x0c, 0x00, 0x1a, 0x00, 0x08, 0x00, 0x02, 0x00, 0x04, 0x00, 0x01, 0x80,
        ],
    );
    let one = InetDevConf {
        forwarding: 1,
        ..none
    };
    let asked = asks(
        &rt,
        alloc,
        "forwarding",
        one,
        &[
            0x14, 0x00, 0x1a, 0x00, 0x10, 0x00, 0x02, 0x00, 0x0c, 0x00, 0x01, 0x80, 0x08, 0x00,
            0x01, 0x00, 0x01, 0x00, 0x00, 0x00,
        ],
    );
    let (wanted, text) = two_settings(&rt, alloc);
    is_row(
        &rt,
        alloc,
        "forwarding",
        asked.as_slice(),
        &wanted,
        text.as_slice(),
    );
}

/// The attributes at all levels of a message whose lists are those of families.
fn attributes_in(message: &LinkMessage) -> usize {
    let mut count = message.attributes.len();
    for attribute in message.attributes.as_slice() {
        if let LinkAttribute::AfSpecUnspec(members) = attribute {
            count = count.saturating_add(families_in(members));
        }
    }
    count
}

/// The families of a list, and their members.
fn families_in(families: &List<AfSpecUnspec>) -> usize {
    let mut count = families.len();
    for family in families.as_slice() {
        if let AfSpecUnspec::Inet6(members) = family {
            count = count.saturating_add(members.len());
        }
    }
    count
}

/// Of counters of four bytes, each of which grows by its record, 207 fit. So do as many that kernels send.
#[test]
fn the_most_counters(rt: HostRuntime) {
    let alloc = rt.alloc();
    let short = short_counters(&rt, alloc, 207);
    assert!(rt; short.len() == 16 + 836);
    let wanted = of_counters(&rt, alloc, 207);
    let count = attributes_in(&wanted);
    assert!(rt; count == 209);
    assert!(rt; 4 * count == 836);
    let text = most_counters(&rt, alloc);
    assert!(rt; text.len() == 16 + 65420);
    is_row(
        &rt,
        alloc,
        "headers alone",
        short.as_slice(),
        &wanted,
        text.as_slice(),
    );
    let headers = [0x14, 0xf9, 0x1a, 0x00, 0x10, 0xf9, 0x0a, 0x00];
    let sent = message(&rt, alloc, &headers, 207, &sent_counters(), &[]);
    is_row(
        &rt,
        alloc,
        "as a kernel sends",
        sent.as_slice(),
        &wanted,
        text.as_slice(),
    );
}

/// With 839 bytes of attributes a message fits, whatever they are.
#[test]
fn counters_and_a_name(rt: HostRuntime) {
    let alloc = rt.alloc();
    let mut short = short_counters(&rt, alloc, 206);
    short
        .extend_from_slice(&[0x07, 0x00, 0x03, 0x00, 0x6c, 0x6f, 0x00])
        .expect(&rt, "memory");
    assert!(rt; short.len() == 16 + 839);
    let name = LinkAttribute::IfName(text_of(&rt, alloc, "lo"));
    let wanted = message_of(&rt, alloc, [counters(&rt, alloc, 206), name]);
    let headers = [0x50, 0xfe, 0x1a, 0x00, 0x4c, 0xfe, 0x0a, 0x00];
    let name = [0x07, 0x00, 0x03, 0x00, 0x6c, 0x6f, 0x00, 0x00];
    let text = message(&rt, alloc, &headers, 206, &zero_counters(), &name);
    assert!(rt; text.len() == 16 + 65112);
    is_row(
        &rt,
        alloc,
        "839 bytes",
        short.as_slice(),
        &wanted,
        text.as_slice(),
    );
}

/// One more does not fit, nor do 212 that kernels send, which are 65304 bytes and become more.
#[test]
fn too_many_counters(rt: HostRuntime) {
    let alloc = rt.alloc();
    for (label, count, len) in [
        ("208 of them", 208, 840),
        ("212 of them", 212, 856),
        ("213 of them", 213, 860),
    ] {
        let short = short_counters(&rt, alloc, count);
        holds(&rt, label, short.len() == 16 + len);
        let wanted = of_counters(&rt, alloc, count);
        is_unfit_row(&rt, alloc, label, short.as_slice(), &wanted);
    }
    let headers = [0x18, 0xff, 0x1a, 0x00, 0x14, 0xff, 0x0a, 0x00];
    let sent = message(&rt, alloc, &headers, 212, &sent_counters(), &[]);
    assert!(rt; sent.len() == 16 + 65304);
    let wanted = of_counters(&rt, alloc, 212);
    is_unfit_row(
        &rt,
        alloc,
        "212 as a kernel sends",
        sent.as_slice(),
        &wanted,
    );
}

/// Counters that are all zero, as they are written.
fn zero_counters() -> [u8; COUNTERS] {
    zeros_after(&[0x3c, 0x01, 0x03, 0x00])
}

/// The same, as kernels send them.
fn sent_counters() -> [u8; KERNEL_COUNTERS] {
    zeros_after(&[0x34, 0x01, 0x03, 0x00])
}

/// The text of the most counters that fit, which are all zero.
fn most_counters(rt: &impl Abort, alloc: Global) -> Vec<u8> {
    let headers = [0x8c, 0xff, 0x1a, 0x00, 0x88, 0xff, 0x0a, 0x00];
    message(rt, alloc, &headers, 207, &zero_counters(), &[])
}

/// A buffer of 100000 bytes is enough for the most counters that fit, and for one more.
#[test]
fn counters_in_a_long_buffer(rt: HostRuntime) {
    let alloc = rt.alloc();
    let mut out = [255; 100000];
    let fit = short_counters(&rt, alloc, 207);
    assert!(rt; GROWTH * 852 <= 100000);
    assert!(rt; fit.len() == 852);
    law_room(fit.as_slice());
    assert!(rt; canonical_into(fit.as_slice(), &mut out) == Ok(65436));
    let text = most_counters(&rt, alloc);
    assert!(rt; is_stored(65436, &out, text.as_slice()));
}

#[test]
fn too_many_counters_in_a_long_buffer(rt: HostRuntime) {
    let alloc = rt.alloc();
    let mut out = [255; 100000];
    let unfit = short_counters(&rt, alloc, 208);
    assert!(rt; GROWTH * 856 <= 100000);
    assert!(rt; unfit.len() == 856);
    law_room(unfit.as_slice());
    let answer = canonical_into(unfit.as_slice(), &mut out);
    is_refused_so(&rt, "208 of them", answer, CanonError::DoesNotFit);
    assert!(rt; are_all(&out, 255));
}
