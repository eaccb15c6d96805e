//! The place that a refusal names: of a fault that no attribute holds it is the message, whichever call refuses.

use link_msg::*;

/// A header, and three bytes that are no frame.
const STRAY: [u8; 19] = [0; 19];

/// A header, and an MTU of two bytes.
const SHORT_MTU: [u8; 24] = [
    0x00, 0x00, 0x00, 0x00, 0x00, 0x00, 0x00, 0x00, 0x00, 0x00, 0x00, 0x00, 0x00, 0x00, 0x00, 0x00,
    0x06, 0x00, 0x04, 0x00, 0xdc, 0x05, 0x00, 0x00,
];

#[test]
fn of_bytes_that_are_no_frame(rt: HostRuntime) {
    let fault = DecodeError::new("message", Cause::FrameShort { left: 3 });
    assert!(rt; LinkMessage::check(&STRAY) == Err(fault));
    assert!(rt; canonical_len(&STRAY) == Err(CanonError::Decode(fault)));
    match canonical(rt.alloc(), &STRAY) {
        Ok(_) => panic!(rt; "the bytes have no canonical encoding"),
        Err(error) => assert!(rt; error == CanonError::Decode(fault)),
    }
    let mut out = [0; 19];
    let written = canonical_within(&STRAY, &mut out);
    assert!(rt; written == Err(RoomError::NoEncoding(CanonError::Decode(fault))));
}

#[test]
fn of_attributes(rt: HostRuntime) {
    let fault = DecodeError::new("IFLA_MTU", Cause::WrongLength { got: 2, want: 4 });
    assert!(rt; LinkMessage::check(&SHORT_MTU) == Err(fault));
    assert!(rt; canonical_len(&SHORT_MTU) == Err(CanonError::Decode(fault)));
}
