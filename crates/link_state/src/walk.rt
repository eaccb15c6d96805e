//! Bytes written in place of others.

ghost use Rattle.std.specs.Prelude.{◌≡◌, ◌+◌, ◌≤◌, ◌<◌, ◌++◌, ℕ, List, IfSome, IsTrue};
ghost use Rattle.std.specs.Prelude.{min, length, take, drop, replicate};
ghost use Rattle.nla_wire.specs.Frames.{Frame, Begins, number, missing};
ghost use Rattle.link_state.specs.Cleared.{part, payload_by, filled};
ghost use Rattle.link_state.specs.Table.{action_of};
ghost use Rattle.link_state.specs.declared.level.Level.{Level};
ghost use Rattle.link_state.specs.Table.Action.{Keep};

use nla_wire::{NLA_HEADER_SIZE, NlaBuffer, nla_align};

/// What a list is of, and the byte that is written: it says in which of its attributes.
pub(crate) trait Listed {
    ghost level: { Self → Level };

    ghost byte: { ℕ };

    /// Whether the attributes of this number are known to be kept.
    #[inline(always)]
    fn keeps(&self, _number: u16) -> bool
        ensures { IsTrue result → action_of (level self.now) _number ≡ Keep }
    {
        false
    }

    /// Fills the payload of an attribute of this number.
    fn fill_payload(&self, number: u16, payload: &mut [u8])
        ensures { payload.new
            ≡ payload_by byte (filled byte) (action_of (level self.now) number) payload.old };
}

/// The next multiple of four after a frame with a payload of this length, counted from the place where it starts; or
/// the end of the list, where that is less.
#[inline(always)]
pub(crate) fn after(size: usize, at: usize, payload_len: usize) -> usize
    requires { at + 4 + payload_len ≤ size }
    ensures { result ≡ min (at + (4 + payload_len + missing payload_len)) size }
{
    let padding = nla_align(payload_len) - payload_len;
    let end = at + NLA_HEADER_SIZE + payload_len;
    if padding < size - end {
        end + padding
    } else {
        size
    }
}

/// The byte in place of these, of which there are four in most counters.
#[inline(always)]
pub(crate) fn fill_bytes<const BY: u8>(bytes: &mut [u8])
    ensures { bytes.new ≡ replicate (length bytes.old) BY }
{
    if bytes.len() == 4 {
        bytes.copy_from_slice(&[BY; 4]);
    } else {
        bytes.fill(BY);
    }
}

/// The byte in place of those from one place to before the other, as far as there are any.
pub(crate) fn fill_part<const BY: u8>(bytes: &mut [u8], from: usize, to: usize)
    ensures { bytes.new ≡ part BY from to bytes.old }
{
    let end = to.min(bytes.len());
    let start = from.min(end);
    fill_bytes::<BY>(&mut bytes[start..end]);
}

/// The number of the frame at this place, if it has eight bytes with its padding: most attributes of a link have.
#[inline(always)]
fn number_of_eight(list: &[u8], at: usize) -> Option<u16>
    requires { at + 8 ≤ length list.now }
    ensures { IfSome result (λ n. (f : Frame) × (rest : List ℕ)
        × Begins (drop at list.now) f rest × (n ≡ number f)
        × (4 + length f.payload + missing (length f.payload) ≡ 8)) }
{
    match NlaBuffer::new_checked(&list[at..at + 8]) {
        Ok(frame) if !frame.value().is_empty() => Some(frame.kind()),
        _ => None,
    }
}

/// Fills the attribute at this place, and returns the place of the next one; or the end of the list, where no frame
/// begins here.
#[inline(always)]
fn fill_at<L: Listed>(list: &mut [u8], at: usize, of: &L) -> usize
    requires { at < length list.old }
    ensures further { at < result }
    ensures within { result ≤ length list.old }
    ensures so_far { take result list.new ++ filled L.byte (L.level of.now) (drop result list.new)
        ≡ take at list.old ++ filled L.byte (L.level of.now) (drop at list.old) }
{
    let Ok(frame) = NlaBuffer::new_checked(&list[at..]) else {
        return list.len();
    };
    let len = frame.value().len();
    let number = frame.kind();
    of.fill_payload(
        number,
        &mut list[at + NLA_HEADER_SIZE..at + NLA_HEADER_SIZE + len],
    );
    after(list.len(), at, len)
}

/// Fills the attribute at this place, in the last bytes of the list.
#[inline(never)]
fn fill_last<L: Listed>(list: &mut [u8], at: usize, of: &L) -> usize
    requires { at < length list.old }
    ensures further { at < result }
    ensures within { result ≤ length list.old }
    ensures so_far { take result list.new ++ filled L.byte (L.level of.now) (drop result list.new)
        ≡ take at list.old ++ filled L.byte (L.level of.now) (drop at list.old) }
{
    fill_at(list, at, of)
}

/// Fills the attributes of a list.
///
/// Lengths, kinds and padding are kept, and all that stands after a fault of the frames.
pub(crate) fn fill_list<L: Listed>(list: &mut [u8], of: &L)
    ensures { list.new ≡ filled L.byte (L.level of.now) list.old }
{
    let mut at = 0;
    while at < list.len() {
        if list.len() - at < 8 {
            at = fill_last(list, at, of);
        } else {
            at = match number_of_eight(list, at) {
                Some(number) if of.keeps(number) => at + 8,
                _ => fill_at(list, at, of),
            };
        }
    }
}
