//! The room in which messages are compared.

use frame_diff::leaf::Texts;
use shown::Room;
use std::alloc::Global;

/// The room in which messages are compared, which is kept from one line to the next.
#[derive(Drop)]
pub struct Desk {
    /// That of values whose texts are compared.
    pub(crate) texts: Texts,
    /// That of the line that is told.
    pub(crate) line: Room,
}

impl Desk {
    /// No room yet. It takes no memory.
    pub fn new(alloc: Global) -> Desk {
        Desk {
            texts: Texts::new(alloc),
            line: Room::new(alloc),
        }
    }
}
