//! Laws of the state encoding.

ghost use Rattle.link_state.specs.Laws.{StateIsCanonical, StateIsAsLong, StateTwice, ZeroAtItsMask, MaskStays};
ghost use Rattle.link_state.specs.Laws.{MaskByFrames, OneState};
ghost use Rattle.link_state.specs.Still.{StateMeansStill, CountersLeave, MovingLeaves};
ghost use Rattle.link_state.specs.Laws.{ListTwice, ListZeroAtItsMask, ListMaskByFrames, OneList};
ghost use Rattle.link_state.specs.Laws.{Inet6Thinned, FamiliesThinned, Inet6Apart, FamiliesApart};
ghost use Rattle.link_state.specs.LenientState.{LenientStateIsCanonical, LenientFilledIsCanonical, StrictStateStays};
ghost use Rattle.link_state.specs.Laws.{ListFilledTwice, ListFilledAtItsMask, ListMaskStays, FilledIsCanonical};

/// The state encoding of canonical encoding is canonical, and as long; and the state of a state is itself.
pub fn law_state()
    ensures canonical { StateIsCanonical }
    ensures as_long { StateIsAsLong }
    ensures twice { StateTwice }
{}

/// The state of canonical encoding means the message of which no flags are changed and no attribute has what moves by
/// itself; and two accepted byte strings whose messages differ in the values of counters alone have one state, as two
/// have that differ, at any depth, in bytes that move by themselves.
pub fn law_still()
    ensures means { StateMeansStill }
    ensures counters { CountersLeave }
    ensures inside { MovingLeaves }
{}

/// The state encoding is the canonical encoding with zeros at a mask, which depends on the frames alone. Two canonical
/// encodings have one state encoding exactly where they have one mask, and are equal outside of it.
pub fn law_mask()
    ensures zero { ZeroAtItsMask }
    ensures stays { MaskStays }
    ensures frames { MaskByFrames }
    ensures one { OneState }
{}

/// The same of the lists in a message.
pub fn law_lists()
    ensures twice { ListTwice }
    ensures zero { ListZeroAtItsMask }
    ensures frames { ListMaskByFrames }
    ensures one { OneList }
{}

/// Of lists in which another byte than zero is written: it stands exactly where their mask says so, the mask stays, and
/// of two bytes that are written one after the other the first does not count. Canonical encoding of which the list is
/// filled so stays canonical.
pub fn law_filled()
    ensures twice { ListFilledTwice }
    ensures stamped { ListFilledAtItsMask }
    ensures stays { ListMaskStays }
    ensures canonical { FilledIsCanonical }
{}

/// What is left of canonical encoding that is thinned is canonical, and means the values of which something is cleared;
/// and nothing is filled of what is left out.
pub fn law_thinned()
    ensures inet6 { Inet6Thinned }
    ensures families { FamiliesThinned }
    ensures inet6_apart { Inet6Apart }
    ensures families_apart { FamiliesApart }
{}

/// The state encoding of a lenient canonical encoding is the lenient canonical encoding of some message, of which the
/// same attributes are kept raw; so it is where another byte than zero is written. What has a state encoding has the
/// same one leniently.
pub fn law_lenient_state()
    ensures canonical { LenientStateIsCanonical }
    ensures filled { LenientFilledIsCanonical }
    ensures strict { StrictStateStays }
{}
