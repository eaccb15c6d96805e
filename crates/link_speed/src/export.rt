//! What is timed: reading into values, writing values, and canonical encoding in memory that is taken for it.

use link_msg::{LinkMessage, canonical};
use std::alloc::Global;

/// Reads a message and drops it: 0, or -1 where it is refused.
#[unsafe(no_mangle)]
pub extern "C" fn bench_parse(alloc: Global, bytes: &[u8]) -> isize {
    match LinkMessage::parse(alloc, bytes) {
        Ok(_message) => 0,
        Err(_) => -1,
    }
}

/// Asks whether a message fits and how long it is, and writes it: its length, or -1.
fn emitted(message: &LinkMessage, out: &mut [u8]) -> isize {
    if !message.fits() {
        return -1;
    }
    let len = message.buffer_len();
    if out.len() < len {
        return -1;
    }
    message.emit(out);
    len as isize
}

/// Reads a message once, and writes it so many times: the length of its text, or -1.
#[unsafe(no_mangle)]
pub extern "C" fn bench_emits(alloc: Global, bytes: &[u8], out: &mut [u8], times: usize) -> isize {
    match LinkMessage::parse(alloc, bytes) {
        Ok(message) => {
            let mut len = 0;
            for _ in 0..times {
                len = emitted(&message, out);
            }
            len
        }
        Err(_) => -1,
    }
}

/// Makes the canonical encoding of a message in memory, and copies it: its length, or -1.
#[unsafe(no_mangle)]
pub extern "C" fn bench_canonical(alloc: Global, bytes: &[u8], out: &mut [u8]) -> isize {
    match canonical(alloc, bytes) {
        Ok(text) => {
            if out.len() < text.len() {
                return -1;
            }
            out[..text.len()].copy_from_slice(text.as_slice());
            text.len() as isize
        }
        Err(_) => -1,
    }
}
