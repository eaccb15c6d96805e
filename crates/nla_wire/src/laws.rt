//! Laws of frames: functions that do nothing, whose contracts are laws over the definitions alone.

ghost use Rattle.std.specs.Prelude.{◌*◌, ◌+◌, length};
ghost use Rattle.nla_wire.specs.Sizes.{growth_per_byte};
ghost use Rattle.nla_wire.specs.Grammar.{list, members, not_empty};
ghost use Rattle.nla_wire.specs.Canon.{canon, canons, AllFit, RoomWhereFit};
ghost use Rattle.nla_wire.specs.FrameLaws.{SomeReading, OneListOfFrames, NeverBoth, OneFault, FramesAreSpellings};
ghost use Rattle.nla_wire.specs.FrameLaws.{FaultIsAfter};

use crate::buffer::NlaBuffer;
use crate::nla::Nla;
use crate::nla_read::{NlaRead, OwnPlace};
use crate::place::Place;

/// Every byte string has exactly one reading: its frames, or the frames in front of one fault.
pub fn law_one_reading()
    ensures some { SomeReading }
    ensures frames { OneListOfFrames }
    ensures apart { NeverBoth }
    ensures fault { OneFault }
{}

/// The frames of a byte string in the format's own words: it is a concatenation of spellings, each with all of its
/// padding, but for the last, which may lack some.
pub fn law_spellings()
    ensures frames { FramesAreSpellings }
    ensures fault { FaultIsAfter }
{}

/// `growth_per_byte` bytes of buffer for each byte of an attribute's header and payload are room for its canonical
/// encoding at a place.
pub fn law_place_room<V: Nla + Drop, P: Place<V>>(place: &P, buffer: &NlaBuffer<'_>)
    ensures { RoomWhereFit (λ v. canon (V.frame v)) V.fits ((P.grammar place.now).reads buffer.now)
        (growth_per_byte * (4 + length buffer.now.payload)) }
{
    buffer.is_frame();
}

/// `growth_per_byte` bytes of buffer for each byte of a list of members of a place are room for its canonical encoding.
pub fn law_members_room<V: Nla + Drop, P: Place<V>>(place: &P, bytes: &[u8])
    ensures { RoomWhereFit (canons V.frame) (AllFit V.fits V.frame)
        ((members (P.picks place.now) (P.grammar place.now)).reads bytes.now)
        (growth_per_byte * length bytes.now) }
{}

/// `growth_per_byte` bytes of buffer for each byte of an attribute's header and payload are room for its canonical
/// encoding.
pub fn law_room<N: NlaRead>(buffer: &NlaBuffer<'_>)
    ensures { RoomWhereFit (λ v. canon (N.frame v)) N.fits (N.grammar.reads buffer.now)
        (growth_per_byte * (4 + length buffer.now.payload)) }
{
    law_place_room::<N, OwnPlace>(&OwnPlace, buffer);
}

/// `growth_per_byte` bytes of buffer for each byte of a list are room for its canonical encoding.
pub fn law_list_room<N: NlaRead>(bytes: &[u8])
    ensures { RoomWhereFit (canons N.frame) (AllFit N.fits N.frame)
        ((list N.grammar).reads bytes.now) (growth_per_byte * length bytes.now) }
{
    law_members_room::<N, OwnPlace>(&OwnPlace, bytes);
}

/// The same of a list that must not be empty.
pub fn law_some_room<N: NlaRead>(bytes: &[u8])
    ensures { RoomWhereFit (canons N.frame) (AllFit N.fits N.frame)
        ((not_empty (list N.grammar)).reads bytes.now) (growth_per_byte * length bytes.now) }
{
    law_list_room::<N>(bytes);
}
