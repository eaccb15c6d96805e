//! Fields of records, read past the end and put at their places.

use crate::testing::{is_same, is_text};
use nla_wire::fields::*;

#[test]
fn reads_short_fields(rt: HostRuntime) {
    let bytes = [0x01, 0x02, 0x03, 0xfc];
    let found = [u8_at(&bytes, 3), u8_at(&bytes, 4)];
    is_same(&rt, &found, &[0xfc, 0x00]);
    let found = [u16_at(&bytes, 0), u16_at(&bytes, 3)];
    is_same(&rt, &found, &[0x0201, 0xfc]);
    let found = [be16_at(&bytes, 0), be16_at(&bytes, 3)];
    is_same(&rt, &found, &[0x0102, 0xfc00]);
}

#[test]
fn reads_long_fields(rt: HostRuntime) {
    let bytes = [0x01, 0x02, 0x03, 0x04, 0x05, 0x06, 0x07, 0x88, 0xfc];
    let found = [u32_at(&bytes, 0), u32_at(&bytes, 8)];
    is_same(&rt, &found, &[0x0403_0201, 0xfc]);
    is_same(&rt, &i32_at(&bytes, 5), &-0x0377_f8fa);
    let found = [u64_at(&bytes, 0), u64_at(&bytes, 8)];
    is_same(&rt, &found, &[0x8807_0605_0403_0201, 0xfc]);
    is_same(&rt, &i64_at(&bytes, 1), &-0x0377_f8f9_fafb_fcfe);
}

#[test]
fn fills_up_with_zeros(rt: HostRuntime) {
    let mut filled = [0; 32];
    filled[..2].copy_from_slice(&[0x07, 0x08]);
    is_text(&rt, &zero_filled_32(&[0x07, 0x08]), &filled);
    is_text(&rt, &zero_filled_32(&[]), &[0; 32]);
    is_text(&rt, &zero_filled_32(&[9; 40]), &[9; 32]);
    assert!(rt; too_short(15, 16).number() == 1);
}

#[test]
fn puts_fields(rt: HostRuntime) {
    let mut out = [255; 8];
    put_bytes(&mut out, 1, &[0x01, 0x02]);
    put_u16(&mut out, 3, 0x1234);
    put_be16(&mut out, 5, 0x1234);
    is_text(&rt, &out, &[0xff, 0x01, 0x02, 0x34, 0x12, 0x12, 0x34, 0xff]);
    put_u32(&mut out, 0, 1500);
    put_i32(&mut out, 4, -2);
    is_text(&rt, &out, &[0xdc, 0x05, 0x00, 0x00, 0xfe, 0xff, 0xff, 0xff]);
    put_u64(&mut out, 0, 0x0123_4567_89ab_cdef);
    is_text(&rt, &out, &[0xef, 0xcd, 0xab, 0x89, 0x67, 0x45, 0x23, 0x01]);
    put_i64(&mut out, 0, -2);
    is_text(&rt, &out, &[0xfe, 0xff, 0xff, 0xff, 0xff, 0xff, 0xff, 0xff]);
}

#[test]
fn puts_rows_of_numbers(rt: HostRuntime) {
    let mut out = [255; 8];
    put_u32s(&mut out, &[1500, 7]);
    is_text(&rt, &out, &[0xdc, 0x05, 0x00, 0x00, 0x07, 0x00, 0x00, 0x00]);
    put_i32s(&mut out, &[-1, -2]);
    is_text(&rt, &out, &[0xff, 0xff, 0xff, 0xff, 0xfe, 0xff, 0xff, 0xff]);
    put_u64s(&mut out, &[1500]);
    is_text(&rt, &out, &[0xdc, 0x05, 0x00, 0x00, 0x00, 0x00, 0x00, 0x00]);
    put_i64s(&mut out, &[-2]);
    is_text(&rt, &out, &[0xfe, 0xff, 0xff, 0xff, 0xff, 0xff, 0xff, 0xff]);
}
