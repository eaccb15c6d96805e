//! Calls whose memory is refused: they say so and change nothing, and succeed when they are called again.

use crate::values;
use link_info::info::{Info, InfoError};
use link_info::{Field, Place, Value};
use link_nest::LinkInfo;
use nla_wire::{Cause, NlaBuffer, NlaRead};
use std::alloc::Global;
use std::process::Abort;

/// `IFLA_INFO_KIND` vxlan, and `IFLA_INFO_DATA` with the id 42, the port 4789 and collect-metadata 1.
const VXLAN: [u8; 40] = [
    0x0a, 0x00, 0x01, 0x00, 0x76, 0x78, 0x6c, 0x61, 0x6e, 0x00, 0x00, 0x00, 0x1c, 0x00, 0x02, 0x00,
    0x08, 0x00, 0x01, 0x00, 0x2a, 0x00, 0x00, 0x00, 0x06, 0x00, 0x0f, 0x00, 0x12, 0xb5, 0x00, 0x00,
    0x05, 0x00, 0x19, 0x00, 0x01, 0x00, 0x00, 0x00,
];

/// What is set: names and numbers, the id twice.
const SET: [(&str, u64); 4] = [
    ("id", 7),
    ("port", 4789),
    ("id", 42),
    ("collect-metadata", 1),
];

/// The flags that are set, by name (`MACVLAN_FLAG_*`, linux/if_link.h).
const FLAGS: &[&str] = &["nopromisc"];

/// The number that was set.
fn number(info: &Info, name: &str) -> Option<u64> {
    match info.value(name) {
        Some(Value::Unsigned(n)) => Some(n),
        _ => None,
    }
}

/// The numbers of all names that are set here.
fn numbers(info: &Info) -> [Option<u64>; 3] {
    [
        number(info, "id"),
        number(info, "port"),
        number(info, "collect-metadata"),
    ]
}

/// The call that was refused memory, if one was: it is refused once.
type Refused = Option<&'static str>;

/// An interface of this kind, nothing of which is set.
fn new(rt: &impl Abort, alloc: Global, kind: &str, refused: &mut Refused) -> Info {
    match Info::new(alloc, kind) {
        Ok(info) => info,
        Err(error) => {
            assert_eq!(rt; error, InfoError::OutOfMemory);
            *refused = Some("Info::new");
            Info::new(alloc, kind).expect(rt, "memory is refused once")
        }
    }
}

/// Sets a number.
fn set(rt: &impl Abort, alloc: Global, info: &mut Info, name: &str, n: u64, refused: &mut Refused) {
    let before = numbers(info);
    match values::set(info, alloc, name, Value::Unsigned(n)) {
        Ok(()) => (),
        Err(error) => {
            assert_eq!(rt; error, InfoError::OutOfMemory);
            assert!(rt; numbers(info) == before, "{name}: all is as it was");
            *refused = Some("Info::set");
            values::set(info, alloc, name, Value::Unsigned(n)).expect(rt, "memory is refused once");
        }
    }
    assert!(rt; number(info, name) == Some(n), "{name}");
}

/// Sets a flag of a macvlan.
fn set_flags(rt: &impl Abort, alloc: Global, refused: &mut Refused) {
    let mut info = new(rt, alloc, "macvlan", refused);
    match values::set_flags(&mut info, alloc, "flags", FLAGS) {
        Ok(()) => (),
        Err(error) => {
            assert_eq!(rt; error, InfoError::OutOfMemory);
            assert!(rt; number(&info, "flags").is_none(), "all is as it was");
            *refused = Some("Info::set_flags");
            values::set_flags(&mut info, alloc, "flags", FLAGS).expect(
                rt,
                "memory is refused once",
            );
        }
    }
    assert!(rt; number(&info, "flags") == Some(1));
}

/// What `IFLA_LINKINFO` holds.
fn list(rt: &impl Abort, alloc: Global, info: &Info, refused: &mut Refused) -> Vec<LinkInfo> {
    match info.list(alloc) {
        Ok(list) => list,
        Err(error) => {
            assert_eq!(rt; error, InfoError::OutOfMemory);
            *refused = Some("Info::list");
            info.list(alloc).expect(rt, "memory is refused once")
        }
    }
}

/// The kind and data that these members have.
fn of(rt: &impl Abort, alloc: Global, list: &[LinkInfo], refused: &mut Refused) -> Info {
    match Info::of(alloc, list) {
        Ok(info) => info,
        Err(error) => {
            assert_eq!(rt; error, InfoError::OutOfMemory);
            *refused = Some("Info::of");
            Info::of(alloc, list).expect(rt, "memory is refused once")
        }
    }
}

/// The members of these bytes.
fn members(rt: &impl Abort, alloc: Global, bytes: &[u8], refused: &mut Refused) -> Vec<LinkInfo> {
    match LinkInfo::parse_list(alloc, bytes) {
        Ok(list) => list,
        Err(error) => {
            assert!(rt; error.cause == Cause::OutOfMemory);
            *refused = Some("LinkInfo::parse_list");
            LinkInfo::parse_list(alloc, bytes).expect(rt, "memory is refused once")
        }
    }
}

/// These data of a vxlan in canonical encoding.
fn rewritten(rt: &impl Abort, alloc: Global, data: &[u8], refused: &mut Refused) -> Vec<u8> {
    match values::rewrite(alloc, Place::Vxlan.rows(), data) {
        Ok(bytes) => bytes,
        Err(error) => {
            assert_eq!(rt; error, InfoError::OutOfMemory);
            *refused = Some("rewrite");
            values::rewrite(alloc, Place::Vxlan.rows(), data).expect(rt, "memory is refused once")
        }
    }
}

/// Adds the attribute that these data of a vxlan begin with.
fn add_first(
    rt: &impl Abort,
    alloc: Global,
    out: &mut Vec<u8>,
    data: &[u8],
    refused: &mut Refused,
) {
    let frame = NlaBuffer::new_checked(data).expect(rt, "it is whole");
    let field = Field::new(Place::Vxlan.rows(), &frame);
    let before = out.len();
    match values::push_field(alloc, out, &field) {
        Ok(()) => (),
        Err(error) => {
            assert_eq!(rt; error, InfoError::OutOfMemory);
            assert_eq!(rt; out.len(), before, "all is as it was");
            *refused = Some("push_field");
            values::push_field(alloc, out, &field).expect(rt, "memory is refused once");
        }
    }
}

/// Attributes are written again, and added.
fn write_again(rt: &impl Abort, alloc: Global, data: &[u8], refused: &mut Refused) {
    let again = rewritten(rt, alloc, data, refused);
    assert!(rt; again.as_slice() == data);
    let mut added = Vec::new(alloc);
    add_first(rt, alloc, &mut added, data, refused);
    assert_eq!(rt; added.len(), 8);
    assert!(rt; data.starts_with(added.as_slice()));
}

/// An interface that is set has these members.
fn is_made(rt: &impl Abort, alloc: Global, wanted: &[LinkInfo], refused: &mut Refused) {
    let mut vxlan = new(rt, alloc, "vxlan", refused);
    for (name, n) in SET {
        set(rt, alloc, &mut vxlan, name, n, refused);
    }
    let made = list(rt, alloc, &vxlan, refused);
    assert!(rt; made.as_slice() == wanted);
}

/// These members are read, and come back.
fn is_read(rt: &impl Abort, alloc: Global, members: &[LinkInfo], refused: &mut Refused) {
    let read = of(rt, alloc, members, refused);
    assert!(rt; read.kind() == "vxlan");
    assert!(rt; numbers(&read) == [Some(42), Some(4789), Some(1)]);
    let again = list(rt, alloc, &read, refused);
    assert!(rt; again.as_slice() == members);
}

/// Where memory is refused, the test says of which call; `scripts/test/refused_info.sh` refuses each one in turn.
#[test]
fn refused_memory_changes_nothing(rt: HostRuntime) {
    let alloc = rt.alloc();
    let mut refused = None;
    let wanted = members(&rt, alloc, &VXLAN, &mut refused);
    is_made(&rt, alloc, wanted.as_slice(), &mut refused);
    set_flags(&rt, alloc, &mut refused);
    is_read(&rt, alloc, wanted.as_slice(), &mut refused);
    write_again(&rt, alloc, &VXLAN[16..], &mut refused);
    if let Some(call) = refused {
        let _ = eprintln!(rt; "refused: {call}");
    }
}
