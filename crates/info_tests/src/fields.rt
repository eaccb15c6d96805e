//! Fields of lists of attributes.

use crate::values::{are_same, next_field};
use link_info::{Field, Fields, Place, Row, Style, Value};
use nla_wire::{Cause, NlaBuffer};

/// Data of a vlan: its id with a flag bit of its kind, its protocol, an id of three bytes, and a number without a row.
const DATA: [u8; 32] = [
    0x06, 0x00, 0x01, 0x80, 0x64, 0x00, 0x00, 0x00, 0x06, 0x00, 0x05, 0x00, 0x88, 0xa8, 0x00, 0x00,
    0x07, 0x00, 0x01, 0x00, 0x01, 0x02, 0x03, 0x00, 0x05, 0x00, 0x63, 0x00, 0x07, 0x00, 0x00, 0x00,
];

/// The row's name, the kind and the value of each field.
const FIELDS: &[(&str, u16, Value<'static>)] = &[
    ("id", 0x8001, Value::Unsigned(100)),
    ("protocol", 5, Value::Unsigned(0x88a8)),
    ("id", 1, Value::Bytes(&[0x01, 0x02, 0x03])),
    ("", 99, Value::Bytes(&[7])),
];

/// The name of the field's row; of one without a row, none.
fn name(field: &Field<'_>) -> &'static str {
    match field.row() {
        Some(Row(_, name, _)) => name,
        None => "",
    }
}

#[test]
fn each_frame_has_a_field(rt: HostRuntime) {
    let mut fields = Fields::new(Place::Vlan.rows(), &DATA);
    for (wanted, kind, value) in FIELDS {
        let field = match next_field(&mut fields) {
            Some(Ok(field)) => field,
            _ => panic!(rt; "there are four"),
        };
        assert_eq!(rt; name(&field), *wanted);
        assert_eq!(rt; field.kind(), *kind, "{wanted}");
        assert!(rt; are_same(field.value(), *value), "{wanted}");
    }
    assert!(rt; next_field(&mut fields).is_none());
}

#[test]
fn a_damaged_list_ends_in_its_fault(rt: HostRuntime) {
    let mut fields = Fields::new(Place::Vlan.rows(), &DATA[..15]);
    assert!(rt; matches!(next_field(&mut fields), Some(Ok(_))));
    assert!(rt; matches!(next_field(&mut fields), Some(Ok(_))));
    assert!(rt; next_field(&mut fields).is_none(), "padding may lack");
    let mut fields = Fields::new(Place::Vlan.rows(), &DATA[..13]);
    assert!(rt; matches!(next_field(&mut fields), Some(Ok(_))));
    match next_field(&mut fields) {
        Some(Err(error)) => {
            assert!(rt; error.cause == Cause::FrameOver { length: 6, left: 5 });
        }
        _ => panic!(rt; "six bytes are said, and five are there"),
    }
    assert!(rt; next_field(&mut fields).is_none());
    assert!(rt; next_field(&mut Fields::new(&[], &[])).is_none());
}

#[test]
fn a_field_is_made_of_a_frame(rt: HostRuntime) {
    let frame = NlaBuffer::new_checked(&DATA[8..16]).expect(&rt, "it is whole");
    let field = Field::new(Place::Vlan.rows(), &frame);
    assert_eq!(rt; name(&field), "protocol");
    assert!(rt; are_same(field.value(), Value::Unsigned(0x88a8)));
    let field = Field::new(Place::Vrf.rows(), &frame);
    assert_eq!(rt; name(&field), "");
    assert!(rt; are_same(field.value(), Value::Bytes(&[0x88, 0xa8])));
}

/// Each row that is a list: its place, an attribute of it, its name, and the value of the attribute.
const LISTS: &[(Place, &[u8], &str, Value<'static>)] = &[
    (
        Place::BridgeSpec,
        &[0x08, 0x00, 0x02, 0x00, 0x06, 0x00, 0x0a, 0x00],
        "vlan-info",
        Value::Record(&[], &[0x06, 0x00, 0x0a, 0x00]),
    ),
    (
        Place::BridgeSpec,
        &[
            0x0c, 0x00, 0x03, 0x00, 0x06, 0x00, 0x02, 0x00, 0x0a, 0x00, 0x00, 0x00,
        ],
        "vlan-tunnel-info",
        Value::Nest(
            Place::BridgeVlanTunnel,
            &[0x06, 0x00, 0x02, 0x00, 0x0a, 0x00, 0x00, 0x00],
        ),
    ),
    (
        Place::BridgeMst,
        &[
            0x0c, 0x00, 0x01, 0x00, 0x06, 0x00, 0x01, 0x00, 0x03, 0x00, 0x00, 0x00,
        ],
        "entry",
        Value::Nest(
            Place::BridgeMstEntry,
            &[0x06, 0x00, 0x01, 0x00, 0x03, 0x00, 0x00, 0x00],
        ),
    ),
    (
        Place::VlanQos,
        &[
            0x0c, 0x00, 0x01, 0x00, 0x01, 0x00, 0x00, 0x00, 0x02, 0x00, 0x00, 0x00,
        ],
        "mapping",
        Value::Record(&[], &[0x01, 0x00, 0x00, 0x00, 0x02, 0x00, 0x00, 0x00]),
    ),
    (
        Place::MacvlanAddresses,
        &[
            0x0a, 0x00, 0x04, 0x00, 0x02, 0x00, 0x00, 0x00, 0x00, 0x07, 0x00, 0x00,
        ],
        "macaddr",
        Value::Mac([0x02, 0x00, 0x00, 0x00, 0x00, 0x07]),
    ),
];

/// Whether the row of a field is a list.
fn is_list(field: &Field<'_>) -> bool {
    match field.row() {
        Some(Row(_, _, Style::Each(_))) => true,
        _ => false,
    }
}

#[test]
fn an_attribute_of_a_list_is_one_value(rt: HostRuntime) {
    for (place, frame, row, value) in LISTS {
        let field = match next_field(&mut Fields::new(place.rows(), frame)) {
            Some(Ok(field)) => field,
            _ => panic!(rt; "it is whole"),
        };
        assert_eq!(rt; name(&field), *row);
        assert!(rt; is_list(&field), "{row}");
        assert!(rt; are_same(field.value(), *value), "{row}");
    }
}
