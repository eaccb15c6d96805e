//! What the flags of a call say.

ghost use Rattle.link_c.specs.Flags.{AreFlags};

use crate::refusal::Refusal;

/// `LINKWIRE_LENIENT` of linkwire.h.
const LENIENT: u32 = 1;

/// `LINKWIRE_COUNTERS` of linkwire.h.
const COUNTERS: u32 = 2;

/// What the flags of a call say.
#[derive(Clone, Copy, Debug, PartialEq, Eq)]
pub struct Flags {
    /// An attribute that is refused hides none of the others.
    pub lenient: bool,
    /// What moves by itself is compared too.
    pub counters: bool,
}

/// What the flags of this number say.
///
/// Refuses `UnknownFlag` where it has a bit that is none of them.
pub fn flags_of(number: u32) -> Result<Flags, Refusal>
    ensures { AreFlags number result }
{
    if number > LENIENT + COUNTERS {
        return Err(Refusal::UnknownFlag);
    }
    Ok(Flags {
        lenient: number & LENIENT != 0,
        counters: number & COUNTERS != 0,
    })
}
