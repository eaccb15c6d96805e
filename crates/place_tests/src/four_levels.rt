//! The VLANs of a virtual function, four levels deep: read, written and filled in.

use crate::testing::list_of;
use expected::{equal, is_copied, is_stored};
use link_vals::VlanProtocol;
use link_vf::*;
use link_vfrec::VfVlanInfo;
use nla_wire::Nla;
use nla_wire::exact::same;
use std::alloc::Global;
use std::process::Abort;

/// Two entries of a list of functions, the first of which is foreign; then the text of the other.
const VLAN_ENTRIES: [u8; 32] = [
    0x04, 0x00, 0x02, 0x00, 0x1c, 0x00, 0x01, 0x40, 0x18, 0x00, 0x0c, 0x00, 0x14, 0x00, 0x01, 0x00,
    0x01, 0x00, 0x00, 0x00, 0x64, 0x00, 0x00, 0x00, 0x00, 0x00, 0x00, 0x00, 0x88, 0xa8, 0x12, 0x34,
];

const VLAN_TEXT: [u8; 28] = [
    0x1c, 0x00, 0x01, 0x00, 0x18, 0x00, 0x0c, 0x00, 0x14, 0x00, 0x01, 0x00, 0x01, 0x00, 0x00, 0x00,
    0x64, 0x00, 0x00, 0x00, 0x00, 0x00, 0x00, 0x00, 0x88, 0xa8, 0x00, 0x00,
];

/// A function with a list of one vlan.
fn vlan_function(rt: &impl Abort, alloc: Global) -> LinkVfInfo {
    let vlan = VfVlan::Info(VfVlanInfo::new(1, 100, 0, VlanProtocol::Ieee8021Ad));
    let vlans = VfInfo::VlanList(list_of(rt, alloc, [vlan]));
    LinkVfInfo(list_of(rt, alloc, [vlans]))
}

#[test]
fn four_levels_read(rt: HostRuntime) {
    let alloc = rt.alloc();
    let function = vlan_function(&rt, alloc);
    let functions = LinkVfInfo::parse_list(alloc, &VLAN_ENTRIES).expect(&rt, "it is read");
    assert!(rt; functions.len() == 1);
    assert!(rt; is_copied(alloc, &functions[0], &function));
    let entry = LinkVfInfo::parse(alloc, &VLAN_TEXT[4..]).expect(&rt, "it is read");
    assert!(rt; same(&entry, &function));
}

#[test]
fn four_levels_written(rt: HostRuntime) {
    let mut out = [255; 29];
    assert!(rt; LinkVfInfo::check_list(&VLAN_ENTRIES).is_ok());
    assert!(rt; LinkVfInfo::measure_list(&VLAN_ENTRIES) == Some(28));
    assert!(rt; LinkVfInfo::canon_list(&VLAN_ENTRIES, &mut out) == Some(28));
    assert!(rt; is_stored(28, &out, &VLAN_TEXT));
    let mut out = [255; 33];
    let len = LinkVfInfo::write_list(22, &VLAN_ENTRIES, &mut out);
    assert!(rt; len == 32);
    assert!(rt; out.starts_with(&[0x20, 0x00, 0x16, 0x00]));
    assert!(rt; is_stored(28, &out[4..], &VLAN_TEXT));
}

#[test]
fn four_levels_written_alone(rt: HostRuntime) {
    let payload = &VLAN_ENTRIES[8..];
    assert!(rt; LinkVfInfo::check(payload).is_ok());
    assert!(rt; LinkVfInfo::measure_entry(payload) == Some(24));
    let mut out = [255; 29];
    assert!(rt; LinkVfInfo::canon(payload, &mut out) == Some(24));
    assert!(rt; is_stored(24, &out, &VLAN_TEXT[4..]));
    let mut out = [255; 29];
    let len = LinkVfInfo::write_entry(1, payload, &mut out);
    assert!(rt; is_stored(len, &out, &VLAN_TEXT));
}

/// An attribute of this kind fits, and is written as this text, at the end of a longer buffer too.
fn is_filled<N: Nla>(rt: &impl Abort, nla: &N, kind: u16, text: &[u8; 28]) {
    assert!(rt; nla.kind() == kind);
    assert!(rt; nla.fits());
    assert!(rt; nla.measure() == Some(24));
    assert!(rt; nla.buffer_len() == 28);
    let mut front = [255; 30];
    nla.emit(&mut front);
    assert!(rt; is_stored(28, &front, text));
    let mut end = [255; 30];
    assert!(rt; nla.fill(&mut end) == 2);
    assert!(rt; equal(&end[..2], &[0xff, 0xff]));
    assert!(rt; equal(&end[2..], text));
}

#[test]
fn four_levels_filled(rt: HostRuntime) {
    is_filled(&rt, &vlan_function(&rt, rt.alloc()), 1, &VLAN_TEXT);
}
