//! Where the fault of a message is, and the numbers of the attributes that lead there.

ghost use Rattle.std.specs.Prelude.{◌≡◌, MatchOption};
ghost use Rattle.link_c.specs.Paths.{Tells, IsLookAlong};

use crate::message::check_message;
use crate::refusal::Refusal;
use link_msg::{FaultPath, LinkMessage};

/// The most numbers that lead to a fault.
const MOST_DEPTH: usize = 4;

/// Where a fault is: `struct linkwire_path` of linkwire.h.
#[repr(C)]
#[derive(Clone, Copy, Debug)]
pub struct Path {
    /// The offset of the innermost attribute at fault, or of the bytes where one should start.
    pub at: usize,
    /// How many of the numbers count.
    pub depth: usize,
    /// The numbers of the attributes at fault, the outermost first, and zeros after them.
    pub numbers: [u16; MOST_DEPTH],
}

/// A path that was found, for C.
pub(crate) fn told(found: &FaultPath) -> Path
    ensures { Tells result found.now }
{
    let some = found.numbers();
    let mut numbers = [0; MOST_DEPTH];
    numbers[..some.len()].copy_from_slice(some);
    Path {
        at: found.offset,
        depth: some.len(),
        numbers,
    }
}

/// Moves to a place, if there is one.
fn move_to(path: &mut Path, place: Option<FaultPath>)
    ensures { MatchOption place (path.new ≡ path.old) (λ found. Tells path.new found) }
{
    if let Some(found) = place {
        *path = told(&found);
    }
}

/// What `check_message` finds; after a fault the path leads to it, and else it is unchanged.
pub fn look_along(bytes: &[u8], path: &mut Path) -> Result<(), Refusal>
    ensures { IsLookAlong bytes.now path.old path.new result }
{
    match check_message(bytes) {
        Ok(()) => Ok(()),
        Err(refusal) => {
            move_to(path, LinkMessage::fault_path(bytes));
            Err(refusal)
        }
    }
}
