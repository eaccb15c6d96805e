//! Attributes, and lists of them, under the family of a header, with no message round them.

use expected::{equal, is_stored, list};
use link_msg::*;
use nla_wire::{nlas_measure, nlas_write};

/// A name without its NUL, an MTU whose kind has both flag bits, and an attribute of no known number, whose padding is
/// no zeros.
const LIST: [u8; 24] = [
    0x06, 0x00, 0x03, 0x00, 0x6c, 0x6f, 0x09, 0x09, 0x08, 0x00, 0x04, 0xc0, 0xdc, 0x05, 0x00, 0x00,
    0x05, 0x00, 0x63, 0xc0, 0x07, 0x09, 0x09, 0x09,
];

/// The canonical encoding of `LIST`.
const TEXT: [u8; 24] = [
    0x07, 0x00, 0x03, 0x00, 0x6c, 0x6f, 0x00, 0x00, 0x08, 0x00, 0x04, 0x00, 0xdc, 0x05, 0x00, 0x00,
    0x05, 0x00, 0x63, 0xc0, 0x07, 0x00, 0x00, 0x00,
];

/// IFLA_AF_SPEC with bytes that are a member under AF_BRIDGE, and a damaged list of settings under AF_UNSPEC.
const BRIDGE: [u8; 12] = [
    0x0c, 0x00, 0x1a, 0x00, 0x08, 0x00, 0x02, 0x00, 0x01, 0x00, 0x02, 0x00,
];

#[test]
fn one_is_written(rt: HostRuntime) {
    let frame = NlaBuffer::new_checked(&LIST[..6]).expect(&rt, "it is read");
    let family = AddressFamily::Unspec;
    let Ok(name) = LinkAttribute::parse_with_param(rt.alloc(), &frame, family) else {
        panic!(rt; "there is no attribute");
    };
    assert!(rt; LinkAttribute::check_with_param(&frame, family).is_ok());
    assert!(rt; name.measure() == Some(3));
    let mut out = [255; 9];
    let len = name.write(&mut out);
    assert!(rt; is_stored(len, &out, &TEXT[..8]));
    let mut out = [255; 9];
    assert!(rt; LinkAttribute::canon_with_param(&frame, family, &mut out) == Some(8));
    assert!(rt; is_stored(8, &out, &TEXT[..8]));
}

#[test]
fn lists_are_written(rt: HostRuntime) {
    let family = AddressFamily::Unspec;
    let Ok(values) = LinkAttribute::parse_list_with_param(rt.alloc(), &LIST, family) else {
        panic!(rt; "there is no list");
    };
    assert!(rt; LinkAttribute::check_list_with_param(&LIST, family).is_ok());
    assert!(rt; nlas_measure(values.as_slice()) == Some(24));
    let mut out = [255; 25];
    let len = nlas_write(values.as_slice(), &mut out);
    assert!(rt; is_stored(len, &out, &TEXT));
    let mut out = [255; 25];
    assert!(rt; LinkAttribute::canon_list_with_param(&LIST, family, &mut out) == Some(24));
    assert!(rt; is_stored(24, &out, &TEXT));
}

/// What the family of the header refuses is not written, and changes no byte.
#[test]
fn families_refuse(rt: HostRuntime) {
    let frame = NlaBuffer::new_checked(&BRIDGE).expect(&rt, "it is read");
    let (bridge, none) = (AddressFamily::Bridge, AddressFamily::Unspec);
    let cause = Cause::FrameUnder { length: 1 };
    assert!(rt; LinkAttribute::check_with_param(&frame, bridge).is_ok());
    assert!(rt; LinkAttribute::check_list_with_param(&BRIDGE, bridge).is_ok());
    let Err(error) = LinkAttribute::check_with_param(&frame, none) else {
        panic!(rt; "there is an attribute");
    };
    assert_eq!(rt; error.cause, cause);
    let mut out = [255; 12];
    assert!(rt; LinkAttribute::canon_with_param(&frame, none, &mut out).is_none());
    assert!(rt; equal(&out, &[255; 12]));
}

#[test]
fn lists_that_are_refused(rt: HostRuntime) {
    let none = AddressFamily::Unspec;
    let Err(error) = LinkAttribute::check_list_with_param(&BRIDGE, none) else {
        panic!(rt; "there is a list");
    };
    assert_eq!(rt; error.cause, Cause::FrameUnder { length: 1 });
    let mut out = [255; 12];
    assert!(rt; LinkAttribute::canon_list_with_param(&BRIDGE, none, &mut out).is_none());
    assert!(rt; equal(&out, &[255; 12]));
}

/// A number, a record and a list under a kind with a flag, each with what its value is written from.
#[test]
fn values_are_lent(rt: HostRuntime) {
    let index = LinkAttribute::NewIfIndex(-2);
    assert!(rt; matches!(index.view(), (49, View::Flat(FlatView::I32(-2)))));
    let map = LinkAttribute::Map(Map::default());
    assert!(rt; matches!(map.view(), (14, View::Map(_))));
    let pin = DpllPin::PinId(9);
    let pins = LinkAttribute::DpllPin(list(rt.alloc(), [pin]).expect(&rt, "memory"));
    assert!(rt; matches!(pins.view(), (0x8041, View::DpllPins([DpllPin::PinId(9)]))));
}
