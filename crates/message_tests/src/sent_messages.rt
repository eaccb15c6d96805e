//! Messages that are built or changed, written into memory of their own, and read back.

use crate::rows::*;
use crate::testing::{kept_of, list_of, read_message};
use expected::{equal, filled};
use link_msg::*;
use std::alloc::Global;
use std::process::Abort;

/// Whether a message is written as this text in memory of its own, and the text means it.
fn is_sent(rt: &impl Abort, alloc: Global, message: &LinkMessage, text: &[u8]) -> bool {
    equal(message.to_vec(alloc).expect(rt, "memory").as_slice(), text)
        && message.reads_back(alloc).expect(rt, "memory")
}

/// Whether the text of a message of the default header and this attribute means another message, or none.
fn is_read_otherwise(rt: &impl Abort, alloc: Global, attribute: LinkAttribute) -> bool {
    let message = message_of(rt, alloc, [attribute]);
    message.fits() && !message.reads_back(alloc).expect(rt, "memory")
}

#[test]
fn a_changed_message(rt: HostRuntime) {
    let alloc = rt.alloc();
    let bytes = with_header(
        &rt,
        alloc,
        0,
        &[
            0x07, 0x00, 0x03, 0x00, 0x6c, 0x6f, 0x00, 0x09, 0x08, 0x00, 0x04, 0x00, 0xdc, 0x05,
            0x00, 0x00,
        ],
    );
    let mut message = read_message(&rt, alloc, bytes.as_slice());
    for attribute in message.attributes.as_mut_slice() {
        if let LinkAttribute::Mtu(mtu) = attribute {
            *mtu = 9000;
        }
    }
    message
        .attributes
        .push(LinkAttribute::Carrier(1))
        .expect(&rt, "memory");
    let wanted = with_header(
        &rt,
        alloc,
        0,
        &[
            0x07, 0x00, 0x03, 0x00, 0x6c, 0x6f, 0x00, 0x00, 0x08, 0x00, 0x04, 0x00, 0x28, 0x23,
            0x00, 0x00, 0x05, 0x00, 0x21, 0x00, 0x01, 0x00, 0x00, 0x00,
        ],
    );
    assert!(rt; is_sent(&rt, alloc, &message, wanted.as_slice()));
    assert!(rt; is_sent(&rt, alloc, &LinkMessage::new(alloc), &[0; 16]));
}

#[test]
fn what_is_not_sent(rt: HostRuntime) {
    let alloc = rt.alloc();
    let ports = LinkAttribute::VfPorts(list_of(&rt, alloc, []));
    let empty = message_of(&rt, alloc, [ports]);
    is_refused_so(
        &rt,
        "no ports",
        empty.to_vec(alloc),
        CanonError::EmptyVfPorts,
    );
    assert!(rt; !empty.reads_back(alloc).expect(&rt, "memory"));
    let long = Bytes::new(filled(alloc, 0, 65532).expect(&rt, "memory"));
    let unfit = message_of(&rt, alloc, [LinkAttribute::Address(long)]);
    is_refused_so(
        &rt,
        "65532 bytes",
        unfit.to_vec(alloc),
        CanonError::DoesNotFit,
    );
    assert!(rt; !unfit.reads_back(alloc).expect(&rt, "memory"));
}

/// A list that must not be empty, settings of a bridge under no family, and a frame of a listed number.
#[test]
fn what_is_read_otherwise(rt: HostRuntime) {
    let alloc = rt.alloc();
    let infos = list_of(&rt, alloc, []);
    assert!(rt; is_read_otherwise(&rt, alloc, LinkAttribute::LinkInfo(infos)));
    let bridge = AfSpecBridge::Other(kept_of(&rt, alloc, 1, &[2]));
    let settings = LinkAttribute::AfSpecBridge(list_of(&rt, alloc, [bridge]));
    assert!(rt; is_read_otherwise(&rt, alloc, settings));
    let mtu = LinkAttribute::Other(kept_of(&rt, alloc, 4, &[0xdc, 0x05, 0x00, 0x00]));
    assert!(rt; is_read_otherwise(&rt, alloc, mtu));
}
