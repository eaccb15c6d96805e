//! Messages over borrowed bytes: their attributes are found and read with no memory.
// Tests: `rust/tests/{views,typed,memory}.rs`, over this code without its contracts. Edits: edits/link_view.txt.
#![tactic(auto)]

pub mod afspec;
pub mod attributes;
pub mod borrowed;
pub mod entries;
pub mod laws;
pub mod message_view;
pub mod nest;
pub mod payload;
pub mod sought;
pub mod vf;

pub use afspec::{
    BorrowedAfSpecInet, BorrowedAfSpecInet6, BorrowedAfSpecMctp, BorrowedAfSpecUnspec,
    BorrowedLinkProtoInfoInet6,
};
pub use attributes::{BorrowedAttributes, borrow_frame};
pub use borrowed::BorrowedAttribute;
pub use entries::{borrow_entry, entries_in, next_entry};
pub use message_view::{LinkView, last_in};
pub use nest::{
    BorrowedDevlinkPort, BorrowedDpllPin, BorrowedLinkInfo, BorrowedLinkProtocolDownReason,
    BorrowedLinkXdp, BorrowedProp,
};
pub use payload::WirelessEventView;
pub use sought::{Sought, frame_of, last_each};
pub use vf::{BorrowedVfInfo, BorrowedVfPort, BorrowedVfStats, BorrowedVfVlan};
