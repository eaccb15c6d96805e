//! Frames at the front of bytes, and the frames of a byte string.

use crate::testing::{is_same, is_text, refuses};
use nla_wire::*;

#[test]
fn refuses_fronts(rt: HostRuntime) {
    let over = Cause::FrameOver { length: 8, left: 7 };
    refuses(
        &rt,
        NlaBuffer::new_checked(&[]),
        Cause::FrameShort { left: 0 },
    );
    refuses(
        &rt,
        NlaBuffer::new_checked(&[0x04, 0x00]),
        Cause::FrameShort { left: 2 },
    );
    refuses(
        &rt,
        NlaBuffer::new_checked(&[0x08, 0x00, 0x01, 0x00, 0x07, 0x07, 0x07]),
        over,
    );
    refuses(
        &rt,
        NlaBuffer::new_checked(&[0x03, 0x00, 0x01, 0x00]),
        Cause::FrameUnder { length: 3 },
    );
}

#[test]
fn reads_frames(rt: HostRuntime) {
    let frame = NlaBuffer::new_checked(&[0x06, 0x00, 0x2a, 0xc0, 0xde, 0xad, 0x09, 0x09]).expect(
        &rt,
        "it is read",
    );
    let numbers = [frame.kind_with_flags(), frame.kind(), frame.length()];
    is_same(&rt, &numbers, &[0xc02a, 42, 6]);
    let flags = [frame.nested_flag(), frame.network_byte_order_flag()];
    is_same(&rt, &flags, &[true, true]);
    is_text(&rt, frame.value(), &[0xde, 0xad]);
    assert!(rt; frame.clone().expect(&rt, "memory") == frame);
}

/// The kind of the next frame, or the number of the fault.
fn next_kind(frames: &mut NlasIterator<'_>) -> Option<Result<u16, u8>> {
    match frames.next()? {
        Ok(frame) => Some(Ok(frame.kind_with_flags())),
        Err(error) => Some(Err(error.number())),
    }
}

#[test]
fn goes_over_frames(rt: HostRuntime) {
    let bytes = [
        0x05, 0x00, 0x03, 0x00, 0x6c, 0x09, 0x09, 0x09, 0x04, 0x00, 0x2a, 0xc0, 0x03, 0x00, 0x01,
        0x00,
    ];
    let mut frames = NlasIterator::new(&bytes);
    assert!(rt; next_kind(&mut frames) == Some(Ok(3)));
    assert!(rt; next_kind(&mut frames) == Some(Ok(0xc02a)));
    assert!(rt; next_kind(&mut frames) == Some(Err(4)));
    assert!(rt; next_kind(&mut frames).is_none());
}

#[test]
fn ends_without_padding(rt: HostRuntime) {
    let mut frames = NlasIterator::new(&[0x05, 0x00, 0x03, 0x00, 0x6c]);
    assert!(rt; next_kind(&mut frames) == Some(Ok(3)));
    assert!(rt; next_kind(&mut frames).is_none());
}

#[test]
fn states_laws() {
    laws::law_one_reading();
    laws::law_spellings();
}
