//! The walk over a list to its first fault.

ghost use Rattle.std.specs.Prelude.{◌+◌, ◌≤◌, length, IfSome, MatchOption};
ghost use Rattle.nla_wire.specs.declared.error.Cause.{Cause};
ghost use Rattle.link_msg.specs.Nested.{Accepts, Refuses};
ghost use Rattle.link_msg.specs.FaultAt.{IsFirstFault, AllAccepted};

use nla_wire::{Nla, NlaBuffer, NlasIterator, Place, padded_len};

/// The first frame of a list that is refused, or the bytes there that are no frame.
#[derive(Debug, Drop)]
pub(crate) struct Found<'a> {
    /// Where it starts: how many bytes of the list stand before it.
    pub(crate) at: usize,
    /// The frame; `None` where the bytes are none.
    pub(crate) frame: Option<NlaBuffer<'a>>,
}

/// The first fault of a list of members of this place, with no memory taken. Those that it drops have none.
pub(crate) fn first_fault<'a, V: Nla + Drop, P: Place<V>>(
    place: &P,
    bytes: &'a [u8],
) -> Option<Found<'a>>
    ensures first { MatchOption result
        (AllAccepted (Accepts (P.picks place.now) (P.grammar place.now)) bytes.now)
        (λ found. (c : Cause) × IsFirstFault (Accepts (P.picks place.now) (P.grammar place.now))
        (Refuses (P.picks place.now) (P.grammar place.now)) bytes.now c found.at found.frame) }
    ensures inside { IfSome result (λ found. IfSome found.frame
        (λ f. found.at + 4 + length f.payload ≤ length bytes.now)) }
{
    let mut at = 0;
    for item in NlasIterator::new(bytes) {
        let Ok(frame) = item else {
            return Some(Found { at, frame: None });
        };
        if !place.drops(frame.kind()) && place.check(&frame).is_err() {
            return Some(Found {
                at,
                frame: Some(frame),
            });
        }
        at += padded_len(frame.value().len());
    }
    None
}
