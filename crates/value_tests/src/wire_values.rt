//! Causes, fault texts, and bytes, texts and lists as values.

use crate::testing::{copied, is_same, is_text, prints};
use nla_wire::error::checked;
use nla_wire::*;

#[test]
fn numbers_causes(rt: HostRuntime) {
    let error = DecodeError::new("record", Cause::TooShort { got: 15, need: 16 });
    let numbers = [
        error.number(),
        Cause::OutOfMemory.number(),
        empty_list().number(),
    ];
    is_same(&rt, &numbers, &[1, 9, 5]);
    assert!(rt; error.place == "record");
    checked(parse_u8(&[1])).expect(&rt, "it is read");
}

#[test]
fn prints_faults(rt: HostRuntime) {
    let cause = Cause::WrongLength { got: 5, want: 4 };
    let error = DecodeError::new("number", cause);
    let text = "number: 5 bytes where exactly 4 are wanted";
    prints(&rt, rt.alloc(), &error, text);
}

#[test]
fn keeps_bytes(rt: HostRuntime) {
    let bytes = Bytes::new(Vec::from_slice(rt.alloc(), &[1, 2, 3]).expect(&rt, "memory"));
    is_same(&rt, &bytes.len(), &3);
    is_same(&rt, &bytes.is_empty(), &false);
    let copy = copied(&rt, rt.alloc(), &bytes);
    let other = Bytes::from_slice(rt.alloc(), &[1, 2, 4]).expect(&rt, "memory");
    assert!(rt; other != bytes);
    is_text(&rt, bytes.as_slice(), &[1, 2, 3]);
    is_text(&rt, copy.into_vec().as_slice(), &[1, 2, 3]);
}

#[test]
fn keeps_texts(rt: HostRuntime) {
    let text = Text::new(String::from_str(rt.alloc(), "ä0").expect(&rt, "memory"));
    is_same(&rt, &text.len(), &3);
    is_same(&rt, &text.is_empty(), &false);
    let copy = copied(&rt, rt.alloc(), &text);
    let other = Text::from_str(rt.alloc(), "a0").expect(&rt, "memory");
    assert!(rt; other != text);
    assert!(rt; text.as_str() == "ä0");
    assert!(rt; copy.into_string().as_str() == "ä0");
}

#[test]
fn keeps_lists(rt: HostRuntime) {
    let text = Text::from_str(rt.alloc(), "lo").expect(&rt, "memory");
    let list = List::new(Vec::from_array(rt.alloc(), [text]).expect(&rt, "memory"));
    is_same(&rt, &list.is_empty(), &false);
    assert!(rt; list.len() == 1);
    let copy = copied(&rt, rt.alloc(), &list);
    assert!(rt; list.as_slice()[0].as_str() == "lo");
    assert!(rt; copy.into_vec().len() == 1);
}

#[test]
fn changes_lists(rt: HostRuntime) {
    let mut list = List::new(Vec::new(rt.alloc()));
    for value in [1u32, 2, 3] {
        list.push(value).expect(&rt, "memory");
    }
    for value in list.as_mut_slice().iter_mut() {
        *value = if *value == 2 { 20 } else { *value };
    }
    let mut places = list.iter();
    assert!(rt; places.next() == Some(&1));
    assert!(rt; places.next_back() == Some(&3));
    assert!(rt; places.next() == Some(&20));
    assert!(rt; places.next().is_none());
    list.as_mut_slice()[0] = 7;
    is_same(&rt, &list.len(), &3);
    assert!(rt; list.as_slice() == [7, 20, 3].as_slice());
}
