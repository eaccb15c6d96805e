//! Messages whose one attribute is as long as fits, or longer by one byte.

use crate::rows::*;
use crate::testing::{holds, kept_of, list_of, text_of, value_of};
use link_msg::*;
use std::alloc::Global;
use std::process::Abort;
use std::str::from_utf8;

/// The letters of the longest names.
const LETTERS: [u8; 65531] = [0x61; 65531];

/// A header of zeros, these headers of attributes, so many letters, and these bytes after them.
fn bytes_of(
    rt: &impl Abort,
    alloc: Global,
    headers: &[u8],
    letters: usize,
    after: &[u8],
) -> Vec<u8> {
    assert!(rt; letters <= 65531);
    let mut bytes = with_header(rt, alloc, 0, headers);
    bytes
        .extend_from_slice(&LETTERS[..letters])
        .expect(rt, "memory");
    bytes.extend_from_slice(after).expect(rt, "memory");
    bytes
}

/// A text of so many letters.
fn letters(rt: &impl Abort, alloc: Global, count: usize) -> Text {
    assert!(rt; count <= 65531);
    text_of(
        rt,
        alloc,
        from_utf8(&LETTERS[..count]).expect(rt, "it is written"),
    )
}

/// The attribute of so many letters, an alias or else a name.
fn named(rt: &impl Abort, alloc: Global, is_alias: bool, count: usize) -> LinkMessage {
    let text = letters(rt, alloc, count);
    let attribute = if is_alias {
        LinkAttribute::IfAlias(text)
    } else {
        LinkAttribute::IfName(text)
    };
    message_of(rt, alloc, [attribute])
}

#[test]
fn names_and_aliases(rt: HostRuntime) {
    let alloc = rt.alloc();
    for (label, kind, is_alias) in [("IFLA_IFNAME", 0x03, false), ("IFLA_IFALIAS", 0x14, true)] {
        let fit = named(&rt, alloc, is_alias, 65530);
        let bytes = bytes_of(&rt, alloc, &[0xfe, 0xff, kind, 0x00], 65530, &[]);
        let text = bytes_of(&rt, alloc, &[0xff, 0xff, kind, 0x00], 65530, &[0x00, 0x00]);
        holds(&rt, label, text.len() == 16 + 65536);
        is_row(&rt, alloc, label, bytes.as_slice(), &fit, text.as_slice());
        let unfit = named(&rt, alloc, is_alias, 65531);
        let bytes = bytes_of(&rt, alloc, &[0xff, 0xff, kind, 0x00], 65531, &[]);
        is_unfit_row(&rt, alloc, label, bytes.as_slice(), &unfit);
    }
}

/// The properties of a link with one more name.
fn renamed(rt: &impl Abort, alloc: Global, count: usize) -> LinkMessage {
    let name = Prop::AltIfName(letters(rt, alloc, count));
    message_of(
        rt,
        alloc,
        [LinkAttribute::PropList(list_of(rt, alloc, [name]))],
    )
}

#[test]
fn names_in_a_list(rt: HostRuntime) {
    let alloc = rt.alloc();
    let headers = [0xfb, 0xff, 0x34, 0x00, 0xf7, 0xff, 0x35, 0x00];
    let bytes = bytes_of(&rt, alloc, &headers, 65523, &[]);
    let headers = [0xfc, 0xff, 0x34, 0x80, 0xf8, 0xff, 0x35, 0x00];
    let text = bytes_of(&rt, alloc, &headers, 65523, &[0]);
    let fit = renamed(&rt, alloc, 65523);
    is_row(
        &rt,
        alloc,
        "a name of 65523 letters",
        bytes.as_slice(),
        &fit,
        text.as_slice(),
    );
    let headers = [0xfc, 0xff, 0x34, 0x00, 0xf8, 0xff, 0x35, 0x00];
    let bytes = bytes_of(&rt, alloc, &headers, 65524, &[]);
    let unfit = renamed(&rt, alloc, 65524);
    is_unfit_row(&rt, alloc, "a letter more", bytes.as_slice(), &unfit);
}

#[test]
fn bytes_that_are_kept(rt: HostRuntime) {
    let alloc = rt.alloc();
    let nla = LinkAttribute::Other(kept_of(&rt, alloc, 42, &LETTERS));
    let bytes = bytes_of(&rt, alloc, &[0xff, 0xff, 0x2a, 0x00], 65531, &[]);
    let text = bytes_of(&rt, alloc, &[0xff, 0xff, 0x2a, 0x00], 65531, &[0]);
    assert!(rt; text.len() == 16 + 65536);
    let message = message_of(&rt, alloc, [nla]);
    is_row(
        &rt,
        alloc,
        "65531 bytes",
        bytes.as_slice(),
        &message,
        text.as_slice(),
    );
}

/// A message of a request to associate, with so many letters.
fn asked(rt: &impl Abort, alloc: Global, count: usize) -> LinkMessage {
    assert!(rt; count <= 65531);
    let request = value_of(rt, alloc, &LETTERS[..count]);
    let event = WirelessEvent::AssociateRequest(request);
    message_of(rt, alloc, [LinkAttribute::Wireless(event)])
}

#[test]
fn wireless_events(rt: HostRuntime) {
    let alloc = rt.alloc();
    let headers = [
        0xff, 0xff, 0x0b, 0x00, 0xfb, 0xff, 0x07, 0x8c, 0x00, 0x00, 0x00, 0x00,
    ];
    let bytes = bytes_of(&rt, alloc, &headers, 65523, &[]);
    let text = bytes_of(&rt, alloc, &headers, 65523, &[0]);
    let fit = asked(&rt, alloc, 65523);
    is_row(
        &rt,
        alloc,
        "a request of 65523 bytes",
        bytes.as_slice(),
        &fit,
        text.as_slice(),
    );
    assert!(rt; !asked(&rt, alloc, 65524).fits());
}
