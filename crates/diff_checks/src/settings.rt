//! Settings of many functions that turn are all told, of states and of messages.

use crate::told::list_of;
use link_msg::header::HEADER_SIZE;
use message_diff::Compared;
use std::alloc::{AllocError, Global};

/// How many functions there are.
const FUNCTIONS: u32 = 32;

/// How long a payload may be.
const MOST: usize = 65531;

/// Adds an attribute whose size is a multiple of four.
fn push_frame(out: &mut Vec<u8>, kind: u16, payload: &[u8]) -> Result<(), AllocError> {
    let len = payload.len().min(MOST) + 4;
    out.extend_from_slice(&(len as u16).to_le_bytes())?;
    out.extend_from_slice(&kind.to_le_bytes())?;
    out.extend_from_slice(payload)
}

/// Adds a setting of a function.
fn push_setting(out: &mut Vec<u8>, kind: u16, function: u32, value: u32) -> Result<(), AllocError> {
    let [a, b, c, d] = function.to_le_bytes();
    let [e, f, g, h] = value.to_le_bytes();
    push_frame(out, kind, &[a, b, c, d, e, f, g, h])
}

/// Adds a function: its rate, whether it is checked and trusted, and eight packets that it received.
fn push_function(
    alloc: Global,
    out: &mut Vec<u8>,
    function: u32,
    value: u32,
) -> Result<(), AllocError> {
    let mut counters = Vec::new(alloc);
    push_frame(&mut counters, 0, &[8, 0, 0, 0, 0, 0, 0, 0])?;
    let mut members = Vec::new(alloc);
    for kind in [3, 4, 9] {
        push_setting(&mut members, kind, function, value)?;
    }
    push_frame(&mut members, 8, counters.as_slice())?;
    push_frame(out, 1, members.as_slice())
}

/// A message of a card whose functions have this setting.
fn card(alloc: Global, value: u32) -> Result<Vec<u8>, AllocError> {
    let mut functions = Vec::new(alloc);
    for function in 0..FUNCTIONS {
        push_function(alloc, &mut functions, function, value)?;
    }
    let mut message = Vec::new(alloc);
    message.resize(HEADER_SIZE, 0)?;
    push_frame(&mut message, 22, functions.as_slice())?;
    Ok(message)
}

/// How often a text stands in a list.
fn count_of(list: &[u8], text: &[u8]) -> usize {
    let mut count = 0usize;
    let mut rest = list;
    for _byte in 0..list.len() {
        if rest.starts_with(text) {
            count = count.saturating_add(1);
        }
        rest = &rest[rest.len().min(1)..];
    }
    count
}

/// Whether three settings of each function are told, and the same where all counts.
fn are_told(alloc: Global, old: u32, new: u32) -> Result<bool, AllocError> {
    let (was, is) = (card(alloc, old)?, card(alloc, new)?);
    let states = list_of(alloc, Compared::State, was.as_slice(), is.as_slice())?;
    let messages = list_of(alloc, Compared::Message, was.as_slice(), is.as_slice())?;
    Ok(
        states.as_slice() == messages.as_slice()
            && count_of(states.as_slice(), b"\"path\":") == FUNCTIONS as usize * 3,
    )
}

#[test]
fn settings_that_turn(rt: HostRuntime) {
    assert!(rt; are_told(rt.alloc(), 0, 1) == Ok(true));
    assert!(rt; are_told(rt.alloc(), 1, 0) == Ok(true));
}
