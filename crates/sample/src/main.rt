//! Changes the MTU of a message that was read, writes it, and reads that MTU again with no memory.
#![tactic(auto)]

use link_msg::header::HEADER_SIZE;
use link_msg::numbers::IFLA_MTU;
use link_msg::{CanonError, LinkAttribute, LinkMessage, NlasIterator, parse_u32};
use std::alloc::Global;
use std::process::ExitCode;

/// What a dump says of interface 7 after the netlink header: the name "lo", with no NUL, and an MTU of 1500.
const MESSAGE: [u8; 32] = [
    0, 9, 1, 0, 7, 0, 0, 0, 0, 0, 0, 0, 0, 0, 0, 0, // the header
    6, 0, 3, 0, b'l', b'o', 0, 0, // IFLA_IFNAME
    8, 0, 4, 0, 0xdc, 5, 0, 0, // IFLA_MTU
];

/// The message with another MTU, to be sent.
fn with_mtu(alloc: Global, message: &[u8], wanted: u32) -> Result<Vec<u8>, CanonError> {
    let mut message = LinkMessage::parse(alloc, message)?;
    for attribute in message.attributes.as_mut_slice().iter_mut() {
        if let LinkAttribute::Mtu(mtu) = attribute {
            *mtu = wanted;
        }
    }
    message.to_vec(alloc)
}

/// The first MTU in a message, with no memory taken and no other attribute read.
fn mtu_of(message: &[u8]) -> Option<u32> {
    for item in NlasIterator::new(message.get(HEADER_SIZE..)?) {
        let frame = item.ok()?;
        if frame.kind() == IFLA_MTU {
            return parse_u32(frame.value()).ok();
        }
    }
    None
}

fn main(rt: HostRuntime) -> ExitCode {
    let printed = match with_mtu(rt.alloc(), &MESSAGE, 9000) {
        Ok(text) => println!(rt; "{:?}: {text:?}", mtu_of(text.as_slice())),
        Err(error) => println!(rt; "{error}"),
    };
    match printed {
        Ok(()) => ExitCode::SUCCESS,
        Err(_) => ExitCode::FAILURE,
    }
}
