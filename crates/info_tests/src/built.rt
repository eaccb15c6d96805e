//! Data set by name, and read again.

use crate::values::{set, set_flags};
use link_info::Value;
use link_info::info::{Info, InfoError};
use link_nest::LinkInfo;
use nla_wire::{DefaultNla, NlaRead};

/// `IFLA_INFO_KIND` vlan, and `IFLA_INFO_DATA` with the id 100 and the protocol 802.1ad, as `ip link add link .. type
/// vlan proto 802.1ad id 100` has them.
const VLAN: [u8; 32] = [
    0x09, 0x00, 0x01, 0x00, 0x76, 0x6c, 0x61, 0x6e, 0x00, 0x00, 0x00, 0x00, 0x14, 0x00, 0x02, 0x00,
    0x06, 0x00, 0x01, 0x00, 0x64, 0x00, 0x00, 0x00, 0x06, 0x00, 0x05, 0x00, 0x88, 0xa8, 0x00, 0x00,
];

/// `IFLA_INFO_KIND` dummy, as `ip link add type dummy` has it: no data.
const DUMMY: [u8; 12] = [
    0x0a, 0x00, 0x01, 0x00, 0x64, 0x75, 0x6d, 0x6d, 0x79, 0x00, 0x00, 0x00,
];

/// Data of a kind without a table: an attribute of number 1, with a number of four bytes.
const KEPT: [u8; 8] = [0x08, 0x00, 0x01, 0x00, 0x07, 0x00, 0x00, 0x00];

/// Whether this is a number.
fn is_number(value: Option<Value<'_>>, wanted: u64) -> bool {
    match value {
        Some(Value::Unsigned(n)) => n == wanted,
        _ => false,
    }
}

#[test]
fn a_vlan_is_made(rt: HostRuntime) {
    let alloc = rt.alloc();
    let mut vlan = Info::new(alloc, "vlan").expect(&rt, "it has a table");
    set(&mut vlan, alloc, "id", Value::Unsigned(7)).expect(&rt, "it is a number of two bytes");
    set(&mut vlan, alloc, "protocol", Value::Unsigned(0x88a8)).expect(&rt, "it is one too");
    set(&mut vlan, alloc, "id", Value::Unsigned(100)).expect(&rt, "it is set again");
    assert!(rt; is_number(vlan.value("id"), 100));
    assert!(rt; is_number(vlan.value("protocol"), 0x88a8));
    assert!(rt; vlan.value("flag").is_none());
    let made = vlan.list(alloc).expect(&rt, "it is short");
    let wanted = LinkInfo::parse_list(alloc, &VLAN).expect(&rt, "it is a list");
    assert!(rt; made.as_slice() == wanted.as_slice());
}

#[test]
fn a_vlan_is_read(rt: HostRuntime) {
    let alloc = rt.alloc();
    let list = LinkInfo::parse_list(alloc, &VLAN).expect(&rt, "it is a list");
    let vlan = Info::of(alloc, list.as_slice()).expect(&rt, "it has a kind and data");
    assert!(rt; vlan.kind() == "vlan");
    assert!(rt; is_number(vlan.value("id"), 100));
    assert!(rt; is_number(vlan.value("protocol"), 0x88a8));
}

#[test]
fn a_number_is_set_by_its_name(rt: HostRuntime) {
    let alloc = rt.alloc();
    let mut bond = Info::new(alloc, "bond").expect(&rt, "it has a table");
    set(&mut bond, alloc, "mode", Value::Text("802.3ad")).expect(&rt, "a mode has this name");
    assert!(rt; is_number(bond.value("mode"), 4));
    set(&mut bond, alloc, "mode", Value::Unsigned(99)).expect(&rt, "a number may be new");
    assert!(rt; is_number(bond.value("mode"), 99));
    let unknown = set(&mut bond, alloc, "mode", Value::Text("802.3"));
    assert!(rt; unknown == Err(InfoError::NotHeld));
    assert!(rt; is_number(bond.value("mode"), 99));
    let number = set(&mut bond, alloc, "miimon", Value::Text("802.3ad"));
    assert!(rt; number == Err(InfoError::NotHeld));
    let mut vlan = Info::new(alloc, "vlan").expect(&rt, "it has a table");
    set(&mut vlan, alloc, "protocol", Value::Text("8021ad")).expect(&rt, "it is in network order");
    assert!(rt; is_number(vlan.value("protocol"), 0x88a8));
}

#[test]
fn flags_are_set_by_their_names(rt: HostRuntime) {
    let alloc = rt.alloc();
    let mut gre = Info::new(alloc, "gre").expect(&rt, "it has a table");
    set_flags(&mut gre, alloc, "iflags", &["key", "csum", "key"]).expect(&rt, "they are flags");
    assert!(rt; is_number(gre.value("iflags"), 0xa000));
    set(&mut gre, alloc, "oflags", Value::Text("seq")).expect(&rt, "it is a flag");
    assert!(rt; is_number(gre.value("oflags"), 0x1000));
    set_flags(&mut gre, alloc, "encap-flags", &["csum6"]).expect(&rt, "it is in host order");
    assert!(rt; is_number(gre.value("encap-flags"), 2));
    set_flags(&mut gre, alloc, "iflags", &[]).expect(&rt, "none of them");
    assert!(rt; is_number(gre.value("iflags"), 0));
    let unknown = set_flags(&mut gre, alloc, "oflags", &["key", "keys"]);
    assert!(rt; unknown == Err(InfoError::NotHeld));
    assert!(rt; is_number(gre.value("oflags"), 0x1000));
    let number = set_flags(&mut gre, alloc, "ttl", &[]);
    assert!(rt; number == Err(InfoError::NotHeld));
    let none = set_flags(&mut gre, alloc, "iflag", &["key"]);
    assert!(rt; none == Err(InfoError::UnknownName));
}

#[test]
fn without_options_there_are_no_data(rt: HostRuntime) {
    let alloc = rt.alloc();
    let dummy = Info::new(alloc, "dummy").expect(&rt, "a kind without a table");
    let made = dummy.list(alloc).expect(&rt, "it is short");
    let wanted = LinkInfo::parse_list(alloc, &DUMMY).expect(&rt, "it is a list");
    assert!(rt; made.as_slice() == wanted.as_slice());
    let vlan = Info::new(alloc, "vlan").expect(&rt, "it has a table");
    assert_eq!(rt; vlan.list(alloc).expect(&rt, "it is short").len(), 1);
}

#[test]
fn data_of_a_kind_without_a_table_are_kept(rt: HostRuntime) {
    let alloc = rt.alloc();
    let mut list = LinkInfo::parse_list(alloc, &DUMMY).expect(&rt, "it is a list");
    let data = Vec::from_slice(alloc, &KEPT).expect(&rt, "there is memory");
    list.push(LinkInfo::Other(DefaultNla::new(2, data)))
        .expect(&rt, "there is memory");
    let dummy = Info::of(alloc, list.as_slice()).expect(&rt, "it has a kind");
    assert!(rt; dummy.kind() == "dummy");
    assert!(rt; dummy.place().is_none());
    assert!(rt; dummy.value("id").is_none());
    let again = dummy.list(alloc).expect(&rt, "it is short");
    assert!(rt; again.as_slice() == list.as_slice());
}

#[test]
fn what_does_not_fit_is_refused(rt: HostRuntime) {
    let alloc = rt.alloc();
    let mut dummy = Info::new(alloc, "dummy").expect(&rt, "a kind without a table");
    assert!(rt; dummy.place().is_none());
    let nothing = set(&mut dummy, alloc, "id", Value::Unsigned(1));
    assert!(rt; nothing == Err(InfoError::UnknownName));
    let mut vlan = Info::new(alloc, "vlan").expect(&rt, "it has a table");
    let unknown = set(&mut vlan, alloc, "ident", Value::Unsigned(1));
    assert!(rt; unknown == Err(InfoError::UnknownName));
    let long = set(&mut vlan, alloc, "id", Value::Unsigned(65536));
    assert!(rt; long == Err(InfoError::NotHeld));
    let text = set(&mut vlan, alloc, "id", Value::Text("100"));
    assert!(rt; text == Err(InfoError::NotHeld));
    let short = set(
        &mut vlan,
        alloc,
        "flag",
        Value::Bytes(&[0x01, 0x00, 0x00, 0x00]),
    );
    assert!(rt; short == Err(InfoError::NotHeld));
    set(
        &mut vlan,
        alloc,
        "flag",
        Value::Bytes(&[0x01, 0x00, 0x00, 0x00, 0x01, 0x00, 0x00, 0x00]),
    )
    .expect(&rt, "flags and mask");
}

#[test]
fn damaged_data_are_refused(rt: HostRuntime) {
    let alloc = rt.alloc();
    let mut damaged = VLAN;
    damaged[16] = 3;
    let list = LinkInfo::parse_list(alloc, &damaged).expect(&rt, "data are kept undecoded");
    assert!(rt; matches!(Info::of(alloc, list.as_slice()), Err(InfoError::Damaged)));
    let none = LinkInfo::parse_list(alloc, &damaged[12..]).expect(&rt, "it is a list");
    assert!(rt;
        matches!(
            Info::of(alloc, none.as_slice()),
            Err(InfoError::UnknownKind)
        )
    );
}
