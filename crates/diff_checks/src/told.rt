//! What is told of two messages, as a list.

use frame_shown::form::Order;
use link_msg::CanonError;
use message_diff::{Compared, push_list};
use std::alloc::{AllocError, Global};

/// The list that is told of two messages, whose counters of IPv6 stand as since Linux 6.16; `refused` where one of them
/// is.
pub fn list_of(alloc: Global, by: Compared, old: &[u8], new: &[u8]) -> Result<Vec<u8>, AllocError> {
    let mut list = Vec::new(alloc);
    match push_list(alloc, by, Order::Since, old, new, &mut list) {
        Ok(_told) => Ok(list),
        Err(CanonError::OutOfMemory) => Err(AllocError),
        Err(_) => b"refused".to_vec(alloc),
    }
}

/// The text that stands in pieces.
pub fn text_of(alloc: Global, pieces: &[&str]) -> Result<Vec<u8>, AllocError> {
    let mut text = Vec::new(alloc);
    for piece in pieces {
        text.extend_from_slice(piece.as_bytes())?;
    }
    Ok(text)
}
