//! What the attributes of a kind of link say: tables of rows, one reader and one writer that go by any table.
// Tests: the crate `info_tests`. Edits: edits/link_info.txt.
#![tactic(auto)]

pub mod field;
pub mod holds;
pub mod info;
pub mod laws;
pub(crate) mod named;
pub mod number;
pub mod place;
pub mod read;
pub mod style;
pub mod tables;
pub mod value;
pub mod write;
pub mod written;

pub use field::{Field, Fields};
pub use info::{Info, InfoError};
pub use place::{KINDS, KindRow, PLACES, Place, SLAVE_KINDS, Tables, all_rows};
pub use style::{Element, Member, Names, Plain, Row, Size, Style};
pub use value::Value;
pub use written::{push_field, rewrite};
