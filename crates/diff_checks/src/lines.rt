//! The lines of an interface that came, went or changed.

use crate::messages::{FRONT, bytes_behind};
use crate::told::text_of;
use frame_shown::form::Order;
use link_msg::CanonError;
use message_diff::{Compared, Desk, Snapshot, push_changed, push_gone, push_new};
use std::alloc::{AllocError, Global};
use std::test::Fail;

/// The digits of a message of the interface `e1`.
const RENAMED: &str = "000001000700000000000000000000000700030065310000";

/// The digits of a message without a name.
const NAMELESS: &str = "0000010007000000000000000000000008000400dc050000";

/// The digits of a message with five counters of IPv6.
const COUNTED: &str = "0a00010007000000000000000000000030000c002c000300\
    05000000000000000000000000000000000000000000000000000000000000000700000000000000";

/// The digits of one with the same counters behind an MTU.
const COUNTED_BEHIND: &str = "0a000100070000000000000000000000080004000100000030000c002c000300\
    05000000000000000000000000000000000000000000000000000000000000000700000000000000";

/// A message, and the order of its counters.
type Message = (Order, &'static str);

/// The words in front of a line, what is compared, two messages, and the line that is told, in pieces.
type Line = (
    &'static [u8],
    Compared,
    Message,
    Message,
    &'static [&'static str],
);

/// Lines one after another.
const LINES: [Line; 6] = [
    (
        b"type=new time=6 host=a seq=9 ",
        Compared::State,
        (Order::Unknown, FRONT),
        (Order::Unknown, RENAMED),
        &[
            r#"{"type":"new","time":"6","host":"a","change":"changed","ifi-family":0,"#,
            r#""ifi-index":7,"ifname":"e1","changes":[{"path":"ifname","old":"e0","new":"e1"}]}"#,
            "\n",
        ],
    ),
    (
        b"",
        Compared::State,
        (Order::Unknown, RENAMED),
        (Order::Since, RENAMED),
        &[],
    ),
    (
        b"host=a ",
        Compared::State,
        (Order::Unknown, RENAMED),
        (Order::Unknown, NAMELESS),
        &[
            r#"{"host":"a","change":"changed","ifi-family":0,"ifi-index":7,"#,
            r#""changes":[{"path":"ifname","old":"e1"},{"path":"mtu","new":1500}]}"#,
            "\n",
        ],
    ),
    (
        b"",
        Compared::Message,
        (Order::Before, COUNTED),
        (Order::Since, COUNTED_BEHIND),
        &[
            r#"{"change":"changed","ifi-family":10,"ifi-index":7,"changes":["#,
            r#"{"path":"protinfo.stats.outforwdatagrams","old":7,"new":0},"#,
            r#"{"path":"protinfo.stats.noectpkts","old":0,"new":7},{"path":"mtu","new":1}]}"#,
            "\n",
        ],
    ),
    (
        b"",
        Compared::Message,
        (Order::Unknown, COUNTED_BEHIND),
        (Order::Unknown, COUNTED),
        &[
            r#"{"change":"changed","ifi-family":10,"ifi-index":7,"#,
            r#""changes":[{"path":"mtu","old":1}]}"#,
            "\n",
        ],
    ),
    (
        b"",
        Compared::State,
        (Order::Before, COUNTED),
        (Order::Since, COUNTED_BEHIND),
        &[
            r#"{"change":"changed","ifi-family":10,"ifi-index":7,"#,
            r#""changes":[{"path":"mtu","new":1}]}"#,
            "\n",
        ],
    ),
];

/// A message as it is compared; nothing where it is refused.
fn seen(alloc: Global, by: Compared, message: Message) -> Result<Option<Snapshot>, AllocError> {
    let (order, digits) = message;
    let bytes = bytes_behind(alloc, "", digits)?;
    match Snapshot::new(alloc, by, order, bytes.as_slice()) {
        Ok(snapshot) => Ok(Some(snapshot)),
        Err(CanonError::OutOfMemory) => Err(AllocError),
        Err(_) => Ok(None),
    }
}

/// The line of two messages, in this room; nothing where one of them is refused.
fn line_of(
    alloc: Global,
    desk: &mut Desk,
    front: &[u8],
    by: Compared,
    old: Message,
    new: Message,
) -> Result<Vec<u8>, AllocError> {
    let mut out = Vec::new(alloc);
    match (seen(alloc, by, old)?, seen(alloc, by, new)?) {
        (Some(was), Some(is)) => {
            push_changed(alloc, by, front, &was, &is, desk, &mut out)?;
            Ok(out)
        }
        _ => Ok(out),
    }
}

#[test]
fn one_after_another(rt: HostRuntime) -> Result<(), Fail> {
    let mut desk = Desk::new(rt.alloc());
    for (front, by, old, new, line) in &LINES {
        let told = line_of(rt.alloc(), &mut desk, front, *by, *old, *new)?;
        let wanted = text_of(rt.alloc(), line)?;
        assert_eq!(rt; told.as_slice(), wanted.as_slice());
    }
    Ok(())
}

/// The line of one that came.
const CAME: &[u8] =
    b"{\"host\":\"a\",\"change\":\"new\",\"ifi-family\":0,\"ifi-index\":7,\"ifname\":\"e0\"}\n";

/// The line of one that went.
const WENT: &[u8] =
    b"{\"host\":\"a\",\"change\":\"gone\",\"ifi-family\":0,\"ifi-index\":7,\"ifname\":\"e0\"}\n";

#[test]
fn came_and_went(rt: HostRuntime) -> Result<(), Fail> {
    let mut came = Vec::new(rt.alloc());
    let mut went = Vec::new(rt.alloc());
    if let Some(it) = seen(rt.alloc(), Compared::State, (Order::Unknown, FRONT))? {
        push_new(rt.alloc(), b"host=a ", &it, &mut came)?;
        push_gone(rt.alloc(), b"host=a ", &it, &mut went)?;
    }
    assert_eq!(rt; came.as_slice(), CAME);
    assert_eq!(rt; went.as_slice(), WENT);
    Ok(())
}
