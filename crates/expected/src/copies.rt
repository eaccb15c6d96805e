//! Copies of values: each is equal to what it was made from, and is written as the same text.

use crate::bytes::equal;
use nla_wire::exact::same;
use nla_wire::{CloneIn, Exact, List, Nla};
use std::alloc::{AllocError, Global};

/// More bytes than an attribute here has.
const MOST: usize = 400;

/// A list of these values.
pub fn list<T: Drop, const N: usize>(alloc: Global, values: [T; N]) -> Result<List<T>, AllocError> {
    Ok(List::new(Vec::from_array(alloc, values)?))
}

/// Whether a value is this one, and so is a copy of it.
pub fn is_copied<N: Exact + CloneIn + Drop>(alloc: Global, value: &N, wanted: &N) -> bool {
    match value.clone_in(alloc) {
        Ok(copy) => same(value, wanted) && same(&copy, wanted),
        Err(_) => false,
    }
}

/// Whether the values are these, and so are copies of them.
pub(crate) fn are_copied<N: Exact + CloneIn + Drop>(
    alloc: Global,
    values: &[N],
    wanted: &[N],
) -> bool {
    for (value, wanted) in values.iter().zip(wanted) {
        if !is_copied(alloc, value, wanted) {
            return false;
        }
    }
    values.len() == wanted.len()
}

/// Whether a copy is equal to the value at this place, and to no other.
fn is_that_at<N: Exact>(copy: &N, values: &[N], at: usize) -> bool {
    for (place, value) in values.iter().enumerate() {
        if same(copy, value) != (place == at) {
            return false;
        }
    }
    true
}

/// Whether a copy is equal to none of these.
fn is_none_of<N: Exact>(copy: &N, others: &[N]) -> bool {
    for other in others {
        if same(copy, other) {
            return false;
        }
    }
    true
}

/// Whether a copy of each value is equal to that value alone, and to none of the others.
pub fn are_told_apart<N: Exact + CloneIn + Drop>(
    alloc: Global,
    values: &[N],
    others: &[N],
) -> bool {
    for (at, value) in values.iter().enumerate() {
        let Ok(copy) = value.clone_in(alloc) else {
            return false;
        };
        if !is_that_at(&copy, values, at) || !is_none_of(&copy, others) {
            return false;
        }
    }
    true
}

/// The text of an attribute of at most 400 bytes, at the front of a buffer, or nothing.
fn written<N: Nla>(nla: &N) -> Option<[u8; MOST]> {
    if !nla.fits() || MOST < nla.buffer_len() {
        return None;
    }
    let mut text = [255; MOST];
    nla.emit(&mut text);
    Some(text)
}

/// Whether two attributes are written, and as the same text.
fn are_written_as_one<N: Nla>(one: &N, other: &N) -> bool {
    match (written(one), written(other)) {
        (Some(one), Some(other)) => equal(&one, &other),
        _ => false,
    }
}

/// Whether a copy of each value is written as the value is.
fn are_written_alike<N: Nla + CloneIn + Drop>(alloc: Global, values: &[N]) -> bool {
    for value in values {
        let Ok(copy) = value.clone_in(alloc) else {
            return false;
        };
        if !are_written_as_one(&copy, value) {
            return false;
        }
    }
    true
}

/// Whether attributes that are all different have copies, which are equal to them alone and written as they are.
pub fn are_copied_alike<N: Nla + Exact + CloneIn + Drop>(
    alloc: Global,
    ones: &[N],
    others: &[N],
) -> bool {
    are_told_apart(alloc, ones, others)
        && are_told_apart(alloc, others, ones)
        && are_written_alike(alloc, ones)
        && are_written_alike(alloc, others)
}
