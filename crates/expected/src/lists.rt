//! Lists of attributes: what they mean, how they are written, and what they are refused for.

use crate::bytes::{cause_of, equal, is_stored};
use crate::copies::are_copied;
use nla_wire::{
    Cause, CloneIn, Exact, Nla, NlaRead, emit_nlas, nlas_buffer_len, nlas_fill, nlas_fit,
    nlas_measure,
};
use std::alloc::Global;

/// More bytes than a text here has.
const MOST: usize = 401;

/// A stray end, a length that passes the bytes, a length below 4, and their causes.
pub const BAD_FRAMES: [(&[u8], Cause); 6] = [
    // one stray byte
    (
        &[0x04, 0x00, 0x63, 0x00, 0x01],
        Cause::FrameShort { left: 1 },
    ),
    // three stray bytes
    (
        &[0x04, 0x00, 0x63, 0x00, 0x01, 0x00, 0x00],
        Cause::FrameShort { left: 3 },
    ),
    // a length of 65535 with six bytes left
    (
        &[0xff, 0xff, 0x01, 0x00, 0x00, 0x00],
        Cause::FrameOver {
            length: 65535,
            left: 6,
        },
    ),
    // a length of 9 with eight bytes left, after a frame
    (
        &[
            0x04, 0x00, 0x63, 0x00, 0x09, 0x00, 0x01, 0x00, 0x01, 0x02, 0x03, 0x04,
        ],
        Cause::FrameOver { length: 9, left: 8 },
    ),
    // a length of 3
    (&[0x03, 0x00, 0x01, 0x00], Cause::FrameUnder { length: 3 }),
    // a length of 0
    (&[0x00, 0x00, 0x00, 0x00], Cause::FrameUnder { length: 0 }),
];

/// Whether a list is refused with this cause, when it is read and when it is checked, and is not written again.
pub fn refuses<N: NlaRead>(alloc: Global, bytes: &[u8], cause: Cause) -> bool {
    let mut out = [255; 4];
    cause_of(N::parse_list(alloc, bytes)) == Some(cause)
        && cause_of(N::check_list(bytes)) == Some(cause)
        && N::measure_list(bytes).is_none()
        && N::canon_list(bytes, &mut out).is_none()
        && equal(&out, &[255; 4])
}

/// The place in `BAD_FRAMES` of the first list that is not refused for its cause, or their number where the empty list
/// is not read; none where all is as at every place.
pub fn wrong_bad_frame<N: NlaRead>(alloc: Global) -> Option<usize> {
    for (i, (bytes, cause)) in BAD_FRAMES.into_iter().enumerate() {
        if !refuses::<N>(alloc, bytes, cause) {
            return Some(i);
        }
    }
    match N::parse_list(alloc, &[]) {
        Ok(values) if values.is_empty() && N::check_list(&[]).is_ok() => None,
        _ => Some(BAD_FRAMES.len()),
    }
}

/// Whether values are measured, and written as this text, of at most 400 bytes, to the front and to the end of a
/// longer buffer.
pub fn writes<N: Nla>(values: &[N], text: &[u8]) -> bool {
    let len = text.len();
    if MOST <= len || !nlas_fit(values) || nlas_buffer_len(values) != len {
        return false;
    }
    let mut front = [255; MOST];
    emit_nlas(values, &mut front);
    let mut end = [255; MOST];
    let start = nlas_fill(values, &mut end);
    nlas_measure(values) == Some(len)
        && is_stored(len, &front, text)
        && start == MOST - len
        && equal(&end[start..], text)
        && end[start - 1] == 255
}

/// Whether a list is written again as this text, of at most 400 bytes, with no memory, in as much room as it has and
/// in more.
pub fn rewrites<N: NlaRead>(bytes: &[u8], text: &[u8]) -> bool {
    let len = text.len();
    if MOST <= len || N::check_list(bytes).is_err() || N::measure_list(bytes) != Some(len) {
        return false;
    }
    let mut longer = [255; MOST];
    let mut exact = [255; MOST];
    N::canon_list(bytes, &mut longer) == Some(len)
        && is_stored(len, &longer, text)
        && N::canon_list(bytes, &mut exact[..len]) == Some(len)
        && is_stored(len, &exact, text)
}

/// Whether a list means these values, which are written as the text.
pub fn means<N: NlaRead + Exact + CloneIn>(
    alloc: Global,
    bytes: &[u8],
    wanted: &[N],
    text: &[u8],
) -> bool {
    match N::parse_list(alloc, bytes) {
        Ok(values) => {
            are_copied(alloc, values.as_slice(), wanted)
                && writes(wanted, text)
                && rewrites::<N>(bytes, text)
        },
        Err(_) => false,
    }
}

/// Whether an attribute of this kind fits, and its value is written as these bytes, at the end of a longer buffer too.
pub fn has_value<N: Nla>(nla: &N, kind: u16, value: &[u8; 8]) -> bool {
    if !nla.fits() || nla.value_len() != 8 {
        return false;
    }
    let mut exact = [255; 8];
    nla.emit_value(&mut exact);
    let mut longer = [255; 10];
    nla.measure() == Some(8)
        && nla.kind() == kind
        && equal(&exact, value)
        && nla.fill_value(&mut longer) == 2
        && equal(&longer[..2], &[255, 255])
        && equal(&longer[2..], value)
}
