//! Each style: payloads that are read and written, and those that are not of its form.

use crate::values::are_same;
use link_info::holds::holds;
use link_info::laws::{
    law_each, law_list_read_again, law_list_written, law_one_field_each, law_read_again,
    law_rewritten, law_written,
};
use link_info::read::{read, read_plain};
use link_info::write::push_payload;
use link_info::{Element, Member, Names, Place, Plain, Size, Style, Value};
use std::alloc::{AllocError, Global};
use std::net::{Ipv4Addr, Ipv6Addr};
use std::process::Abort;

/// Names of the tests' own.
const NAMES: Names = &[(1, "one"), (2, "two")];

/// A record of seven bytes.
const MEMBERS: &[Member] = &[
    Member("number", Plain::Unsigned(Size::One)),
    Member("address", Plain::Mac),
];

/// A frame of number 1 with a payload of four bytes, and one of number 2 with none.
const FRAMES: &[u8] = &[
    0x08, 0x00, 0x01, 0x00, 0x0a, 0x00, 0x00, 0x01, 0x04, 0x00, 0x02, 0x00,
];

/// The first of them.
const FRAME: &[u8] = &[0x08, 0x00, 0x01, 0x00, 0x0a, 0x00, 0x00, 0x01];

/// The bytes of an address.
const ADDRESS: [u8; 16] = [
    0xfd, 0x00, 0x00, 0x00, 0x00, 0x00, 0x00, 0x00, 0x00, 0x00, 0x00, 0x00, 0x00, 0x00, 0x00, 0x01,
];

/// A spelling of a size, a payload, and the value that it is read as.
const PLAINS: &[(Plain, &[u8], Value<'static>)] = &[
    (Plain::Unsigned(Size::One), &[200], Value::Unsigned(200)),
    (
        Plain::Unsigned(Size::Two),
        &[0x01, 0x02],
        Value::Unsigned(0x201),
    ),
    (
        Plain::Unsigned(Size::Four),
        &[0x01, 0x02, 0x03, 0x04],
        Value::Unsigned(0x4030201),
    ),
    (
        Plain::Unsigned(Size::Eight),
        &[0x01, 0x02, 0x03, 0x04, 0x05, 0x06, 0x07, 0x08],
        Value::Unsigned(0x807060504030201),
    ),
    (Plain::BigEndian(Size::One), &[200], Value::Unsigned(200)),
    (
        Plain::BigEndian(Size::Two),
        &[0x01, 0x02],
        Value::Unsigned(0x102),
    ),
    (
        Plain::BigEndian(Size::Four),
        &[0x01, 0x02, 0x03, 0x04],
        Value::Unsigned(0x1020304),
    ),
    (
        Plain::BigEndian(Size::Eight),
        &[0x01, 0x02, 0x03, 0x04, 0x05, 0x06, 0x07, 0x08],
        Value::Unsigned(0x102030405060708),
    ),
    (Plain::Signed(Size::One), &[255], Value::Signed(-1)),
    (
        Plain::Signed(Size::Two),
        &[0x00, 0x80],
        Value::Signed(-32768),
    ),
    (
        Plain::Signed(Size::Four),
        &[0xfe, 0xff, 0xff, 0xff],
        Value::Signed(-2),
    ),
    (
        Plain::Signed(Size::Eight),
        &[0xff, 0xff, 0xff, 0xff, 0xff, 0xff, 0xff, 0x7f],
        Value::Signed(i64::MAX),
    ),
    (
        Plain::Named(Size::Two, NAMES),
        &[0x02, 0x00],
        Value::Unsigned(2),
    ),
    (
        Plain::BigEndianNamed(Size::Two, NAMES),
        &[0x00, 0x02],
        Value::Unsigned(2),
    ),
    (
        Plain::Flags(Size::Four, NAMES),
        &[0x03, 0x00, 0x00, 0x80],
        Value::Unsigned(0x80000003),
    ),
    (
        Plain::BigEndianFlags(Size::Two, NAMES),
        &[0x80, 0x03],
        Value::Unsigned(0x8003),
    ),
    (
        Plain::Mac,
        &[0x02, 0x00, 0x00, 0x00, 0x00, 0x07],
        Value::Mac([0x02, 0x00, 0x00, 0x00, 0x00, 0x07]),
    ),
    (
        Plain::Octets(3),
        &[0x07, 0x08, 0x09],
        Value::Bytes(&[0x07, 0x08, 0x09]),
    ),
];

/// The same of styles that are no values of a fixed size.
const STYLES: &[(Style, &[u8], Value<'static>)] = &[
    (Style::Bytes, &[0x01, 0x02], Value::Bytes(&[0x01, 0x02])),
    (Style::Flag, &[], Value::Flag),
    (Style::Text, &[0x61, 0x62, 0x00], Value::Text("ab")),
    (
        Style::Record(MEMBERS),
        &[0x09, 0x02, 0x00, 0x00, 0x00, 0x00, 0x07],
        Value::Record(MEMBERS, &[0x09, 0x02, 0x00, 0x00, 0x00, 0x00, 0x07]),
    ),
    (
        Style::Array(Plain::Unsigned(Size::Two)),
        &[0x01, 0x00, 0x02, 0x00],
        Value::Array(Plain::Unsigned(Size::Two), &[0x01, 0x00, 0x02, 0x00]),
    ),
    (
        Style::List(Plain::Ipv4),
        FRAME,
        Value::List(Plain::Ipv4, FRAME),
    ),
    (
        Style::Nest(Place::Vlan),
        FRAMES,
        Value::Nest(Place::Vlan, FRAMES),
    ),
    (
        Style::Each(Element::Plain(Plain::Mac)),
        &[0x02, 0x00, 0x00, 0x00, 0x00, 0x07],
        Value::Mac([0x02, 0x00, 0x00, 0x00, 0x00, 0x07]),
    ),
    (
        Style::Each(Element::Record(MEMBERS)),
        &[0x09, 0x02, 0x00, 0x00, 0x00, 0x00, 0x07],
        Value::Record(MEMBERS, &[0x09, 0x02, 0x00, 0x00, 0x00, 0x00, 0x07]),
    ),
    (
        Style::Each(Element::Nest(Place::Vlan)),
        FRAMES,
        Value::Nest(Place::Vlan, FRAMES),
    ),
];

/// Writes a value that was read of a payload of this style.
fn write(out: &mut Vec<u8>, style: Style, value: Value<'_>) -> Result<(), AllocError> {
    match value {
        Value::Record(members, bytes) => push_payload(out, style, Value::Record(members, bytes)),
        Value::Array(plain, bytes) => push_payload(out, style, Value::Array(plain, bytes)),
        Value::List(plain, bytes) => push_payload(out, style, Value::List(plain, bytes)),
        Value::Nest(place, bytes) => push_payload(out, style, Value::Nest(place, bytes)),
        value if holds(style, value) => push_payload(out, style, value),
        _ => Ok(()),
    }
}

/// Whether the payload is read as this value, and the value written as this payload.
fn is_row(alloc: Global, style: Style, payload: &[u8], value: Value<'_>) -> bool {
    let found = read(style, payload);
    let mut written = Vec::new(alloc);
    write(&mut written, style, found).is_ok()
        && written.as_slice() == payload
        && are_same(found, value)
}

/// A payload is read as the value of this spelling, and the value written as it. One byte less is no number, address or
/// octets.
fn is_plain_row(rt: &impl Abort, alloc: Global, plain: Plain, payload: &[u8], value: Value<'_>) {
    let style = Style::Plain(plain);
    assert_eq!(rt; plain.size(), payload.len(), "{plain:?}");
    assert!(rt; is_row(alloc, style, payload, value), "{plain:?}");
    assert!(rt; holds(style, value), "{plain:?}");
    if plain.size() == payload.len() {
        assert!(rt; are_same(read_plain(plain, payload), value), "{plain:?}");
    }
    let [_, short @ ..] = payload else {
        panic!(rt; "it has a byte");
    };
    assert!(rt;
        are_same(read(style, short), Value::Bytes(short)),
        "{plain:?}"
    );
    assert!(rt; !holds(style, Value::Text("1")), "{plain:?}");
    assert!(rt; !holds(style, Value::Flag), "{plain:?}");
}

#[test]
fn each_plain_is_read(rt: HostRuntime) {
    for (plain, payload, value) in PLAINS {
        is_plain_row(&rt, rt.alloc(), *plain, payload, *value);
    }
    let ipv4 = Value::Ipv4(Ipv4Addr::new(10, 0, 0, 1));
    is_plain_row(
        &rt,
        rt.alloc(),
        Plain::Ipv4,
        &[0x0a, 0x00, 0x00, 0x01],
        ipv4,
    );
    let ipv6 = Value::Ipv6(Ipv6Addr::new(0xfd00, 0, 0, 0, 0, 0, 0, 1));
    is_plain_row(&rt, rt.alloc(), Plain::Ipv6, &ADDRESS, ipv6);
}

#[test]
fn each_style_is_read(rt: HostRuntime) {
    for (style, payload, value) in STYLES {
        assert!(rt; is_row(rt.alloc(), *style, payload, *value), "{style:?}");
        assert!(rt; !holds(*style, Value::Unsigned(1)), "{style:?}");
    }
}

/// A style, and a payload that is not of its form.
const OTHERS: &[(Style, &[u8])] = &[
    (Style::Flag, &[0]),
    (Style::Text, &[0xff, 0x00]),
    (Style::Text, &[0x61, 0xc3]),
    (
        Style::Record(MEMBERS),
        &[0x09, 0x02, 0x00, 0x00, 0x00, 0x00],
    ),
    (
        Style::Record(MEMBERS),
        &[0x09, 0x02, 0x00, 0x00, 0x00, 0x00, 0x07, 0x01],
    ),
    (
        Style::Array(Plain::Unsigned(Size::Two)),
        &[0x01, 0x00, 0x02],
    ),
    (Style::Array(Plain::Octets(0)), &[0x01, 0x00]),
    (Style::List(Plain::Ipv4), FRAMES),
    (Style::List(Plain::Ipv4), &[0x03, 0x00, 0x00, 0x00]),
    (
        Style::Nest(Place::Vlan),
        &[0x09, 0x00, 0x01, 0x00, 0x0a, 0x00, 0x00, 0x01],
    ),
    (
        Style::Each(Element::Plain(Plain::Mac)),
        &[0x02, 0x00, 0x00, 0x00, 0x00, 0x07, 0x01],
    ),
    (
        Style::Each(Element::Record(MEMBERS)),
        &[0x09, 0x02, 0x00, 0x00, 0x00, 0x00],
    ),
    (
        Style::Each(Element::Nest(Place::Vlan)),
        &[0x09, 0x00, 0x01, 0x00, 0x0a, 0x00, 0x00, 0x01],
    ),
];

#[test]
fn what_is_of_another_form_is_bytes(rt: HostRuntime) {
    for (style, payload) in OTHERS {
        assert!(rt;
            are_same(read(*style, payload), Value::Bytes(payload)),
            "{style:?}"
        );
        let is_held = holds(*style, Value::Bytes(payload));
        assert!(rt; !is_held, "{style:?}");
    }
}

/// A spelling of numbers, a number that it has room for, and one that it has not.
const BOUNDS: &[(Plain, Value<'static>, Value<'static>)] = &[
    (
        Plain::Unsigned(Size::One),
        Value::Unsigned(255),
        Value::Unsigned(256),
    ),
    (
        Plain::Unsigned(Size::Two),
        Value::Unsigned(65535),
        Value::Unsigned(65536),
    ),
    (
        Plain::Flags(Size::Four, NAMES),
        Value::Unsigned(4294967295),
        Value::Unsigned(4294967296),
    ),
    (
        Plain::BigEndian(Size::Two),
        Value::Unsigned(65535),
        Value::Unsigned(65536),
    ),
    (
        Plain::BigEndianNamed(Size::Two, NAMES),
        Value::Unsigned(3),
        Value::Unsigned(65536),
    ),
    (
        Plain::Signed(Size::One),
        Value::Signed(127),
        Value::Signed(128),
    ),
    (
        Plain::Signed(Size::One),
        Value::Signed(-128),
        Value::Signed(-129),
    ),
    (
        Plain::Signed(Size::Two),
        Value::Signed(-32768),
        Value::Signed(-32769),
    ),
    (
        Plain::Signed(Size::Four),
        Value::Signed(-2147483648),
        Value::Signed(-2147483649),
    ),
    (
        Plain::Signed(Size::Eight),
        Value::Signed(i64::MIN),
        Value::Unsigned(0),
    ),
    (
        Plain::Unsigned(Size::Eight),
        Value::Unsigned(u64::MAX),
        Value::Signed(0),
    ),
    (
        Plain::Octets(3),
        Value::Bytes(&[0x01, 0x02, 0x03]),
        Value::Bytes(&[0x01, 0x02]),
    ),
];

#[test]
fn values_are_held_up_to_their_size(rt: HostRuntime) {
    for (plain, held, refused) in BOUNDS {
        assert!(rt; holds(Style::Plain(*plain), *held), "{plain:?}");
        assert!(rt; !holds(Style::Plain(*plain), *refused), "{plain:?}");
    }
}

#[test]
fn laws_are_called(_rt: HostRuntime) {
    law_written();
    law_read_again();
    law_one_field_each();
    law_list_written();
    law_list_read_again();
    law_rewritten();
    law_each();
}
