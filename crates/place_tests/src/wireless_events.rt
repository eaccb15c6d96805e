//! Wireless events: what their payloads mean, are refused for, and are written as.

use crate::testing::{bytes_of, holds, is_same};
use expected::{cause_of, equal, is_copied, is_stored};
use link_nest::*;
use nla_wire::Cause;
use std::alloc::Global;
use std::process::Abort;

/// A payload of so few bytes is no event, and changes no byte.
fn is_no_event(rt: &impl Abort, alloc: Global, label: &str, payload: &[u8], got: usize) {
    let short = Some(Cause::TooShort { got, need: 8 });
    let read = WirelessEvent::parse(alloc, payload);
    is_same(rt, label, &cause_of(read), &short);
    is_same(rt, label, &cause_of(WirelessEvent::check(payload)), &short);
    let mut out = [255; 8];
    holds(rt, label, WirelessEvent::measure(payload).is_none());
    holds(rt, label, WirelessEvent::canon(payload, &mut out).is_none());
    holds(rt, label, equal(&out, &[255; 8]));
}

#[test]
fn refused_wireless_events(rt: HostRuntime) {
    is_no_event(&rt, rt.alloc(), "7 bytes", &[0; 7], 7);
    is_no_event(&rt, rt.alloc(), "no bytes", &[], 0);
}

/// The longest event is as long as the value of an attribute may be.
#[test]
fn long_wireless_payloads(rt: HostRuntime) {
    let payload = [97; 65532];
    assert!(rt; WirelessEvent::measure(&payload[1..]) == Some(65531));
    assert!(rt; WirelessEvent::measure(&payload).is_none());
    keeps_event(&rt, &payload[1..]);
    let mut out = [255; 65532];
    assert!(rt; WirelessEvent::canon(&payload, &mut out).is_none());
    assert!(rt; out.iter().all(|byte| *byte == 255));
}

/// An event of no known command is written as it is.
fn keeps_event(rt: &impl Abort, payload: &[u8]) {
    let mut out = [255; 65532];
    assert!(rt; payload.len() <= 65531);
    assert!(rt; WirelessEvent::measure(payload) == Some(payload.len()));
    assert!(rt; WirelessEvent::canon(payload, &mut out) == Some(payload.len()));
    assert!(rt; is_stored(payload.len(), &out, payload));
}

/// A payload means this event, which is written as the text.
fn event_means(
    rt: &impl Abort,
    alloc: Global,
    payload: &[u8; 9],
    event: &WirelessEvent,
    text: &[u8; 9],
) {
    let read = WirelessEvent::parse(alloc, payload).expect(rt, "it is read");
    assert!(rt; is_copied(alloc, &read, event));
    assert!(rt; WirelessEvent::check(payload).is_ok());
    assert!(rt; WirelessEvent::measure(payload) == Some(9));
    let mut out = [255; 10];
    assert!(rt; WirelessEvent::canon(payload, &mut out) == Some(9));
    assert!(rt; is_stored(9, &out, text));
    let mut out = [255; 9];
    let len = WirelessEvent::write(payload, &mut out);
    assert!(rt; is_stored(len, &out, text));
}

/// An event is written as this text.
fn event_writes(rt: &impl Abort, event: &WirelessEvent, text: &[u8; 9]) {
    assert!(rt; event.fits());
    assert!(rt; event.buffer_len() == 9);
    let mut exact = [255; 9];
    event.emit(&mut exact);
    assert!(rt; equal(&exact, text));
    let mut longer = [255; 12];
    assert!(rt; event.fill(&mut longer) == 3);
    assert!(rt; longer.starts_with(&[0xff, 0xff, 0xff]));
    assert!(rt; equal(&longer[3..], text));
}

#[test]
fn wireless_events(rt: HostRuntime) {
    let alloc = rt.alloc();
    let event = WirelessEvent::AssociateRequest(bytes_of(&rt, alloc, &[0xaa]));
    let text = [0x09, 0x00, 0x07, 0x8c, 0x00, 0x00, 0x00, 0x00, 0xaa];
    let payload = [0xff, 0xff, 0x07, 0x8c, 0x01, 0x02, 0x03, 0x04, 0xaa];
    event_means(&rt, alloc, &payload, &event, &text);
    event_writes(&rt, &event, &text);
}

#[test]
fn more_wireless_events(rt: HostRuntime) {
    let alloc = rt.alloc();
    let event = WirelessEvent::AssociateResponse(bytes_of(&rt, alloc, &[0xbb]));
    let text = [0x09, 0x00, 0x08, 0x8c, 0x00, 0x00, 0x00, 0x00, 0xbb];
    event_means(
        &rt,
        alloc,
        &[0x00, 0x00, 0x08, 0x8c, 0x00, 0x00, 0x00, 0x00, 0xbb],
        &event,
        &text,
    );
    event_writes(&rt, &event, &text);
}

#[test]
fn other_wireless_events(rt: HostRuntime) {
    let alloc = rt.alloc();
    let text = [0x09, 0x00, 0x01, 0x8b, 0x01, 0x02, 0x03, 0x04, 0x05];
    let event = WirelessEvent::Other(bytes_of(&rt, alloc, &text));
    event_means(&rt, alloc, &text, &event, &text);
    event_writes(&rt, &event, &text);
}

/// A request of these bytes.
fn request_of(rt: &impl Abort, alloc: Global, bytes: &[u8]) -> WirelessEvent {
    WirelessEvent::AssociateRequest(bytes_of(rt, alloc, bytes))
}

#[test]
fn long_wireless_events(rt: HostRuntime) {
    let bytes = [7; 65524];
    let long = request_of(&rt, rt.alloc(), &bytes);
    assert!(rt; !long.fits());
}

#[test]
fn the_longest_wireless_event(rt: HostRuntime) {
    let bytes = [7; 65523];
    let event = request_of(&rt, rt.alloc(), &bytes);
    assert!(rt; event.fits());
    assert!(rt; event.buffer_len() == 65531);
    let mut text = [255; 65531];
    assert!(rt; event.fill(&mut text) == 0);
    assert!(rt;
        equal(
            &text[..8],
            &[0xfb, 0xff, 0x07, 0x8c, 0x00, 0x00, 0x00, 0x00]
        )
    );
    assert!(rt; equal(&text[8..], &bytes));
}
