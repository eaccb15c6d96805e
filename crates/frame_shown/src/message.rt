//! What the bytes of a message say.

ghost use Rattle.std.specs.Prelude.{◌≡◌, [], ◌∷◌, OnOk, codes, drop};
ghost use Rattle.std.specs.Int.{w32};
ghost use Rattle.std.specs.Fmt.{signed_decimal};
ghost use Rattle.json.specs.Token.{number};
ghost use Rattle.nla_wire.specs.Fields.{signed_at};
ghost use Rattle.nla_wire.specs.Items.{items};
ghost use Rattle.link_info.specs.Tables.{frames_in};
ghost use Rattle.shown.specs.Values.{flags_of};
ghost use Rattle.shown.specs.Drafts.{with_members, with_value};
ghost use Rattle.frame_shown.specs.Messages.{address_len, attribute_members, frames_shown, header_members};
ghost use Rattle.frame_shown.specs.Messages.{link_flag_names, rest_members, message_members};

use crate::depth::{Above, Bottom};
use crate::form::{Around, List};
use crate::list::show_members;
use crate::tables::LINK_FLAGS;
use nla_wire::NlasIterator;
use nla_wire::fields::{i32_at, u8_at, u16_at, u32_at};
use shown::Page;
use std::alloc::AllocError;

/// The number of the hardware address among the attributes of a link (linux/if_link.h).
const IFLA_ADDRESS: u16 = 1;

/// How many bytes the header has.
const HEADER_LEN: usize = 16;

/// As deep as lists go.
type Whole = Above<Above<Above<Above<Above<Bottom>>>>>;

/// Adds the flags of a link.
pub fn show_link_flags(page: &mut Page, bits: u64) -> Result<(), AllocError>
    ensures { OnOk result (page.new
        ≡ with_value (codes "ifi-flags") (flags_of link_flag_names bits) page.old) }
{
    page.flags("ifi-flags", bits, &LINK_FLAGS)
}

/// Adds the index of a link.
pub(crate) fn show_index(page: &mut Page, bytes: &[u8]) -> Result<(), AllocError>
    ensures { OnOk result (page.new ≡ with_value (codes "ifi-index")
        (number (signed_decimal (signed_at w32 bytes.now 4)) ∷ []) page.old) }
{
    page.keyed_signed("ifi-index", i32_at(bytes, 4).into())
}

/// Adds what the header says after its family.
fn show_rest(page: &mut Page, bytes: &[u8]) -> Result<(), AllocError>
    ensures { OnOk result (page.new ≡ with_members (rest_members bytes.now) page.old) }
{
    page.keyed_number("ifi-type", u16_at(bytes, 2).into())?;
    show_index(page, bytes)?;
    show_link_flags(page, u32_at(bytes, 8).into())?;
    page.keyed_number("ifi-change", u32_at(bytes, 12).into())
}

/// Adds what the header says.
pub(crate) fn show_header(page: &mut Page, bytes: &[u8]) -> Result<(), AllocError>
    ensures { OnOk result (page.new ≡ with_members (header_members bytes.now) page.old) }
{
    page.keyed_number("ifi-family", u8_at(bytes, 0).into())?;
    show_rest(page, bytes)
}

/// How many bytes the first address has; 0 where there is none.
pub fn address_len(bytes: &[u8]) -> usize
    ensures { result ≡ address_len (frames_in (items bytes.now)) }
{
    for item in NlasIterator::new(bytes) {
        let Ok(frame) = item else {
            break;
        };
        if frame.kind() == IFLA_ADDRESS {
            return frame.value().len();
        }
    }
    0
}

/// Adds what attributes say of a message of this family.
#[tactic(auto, unfolding(crate::specs::Messages::frames_shown))]
fn show_frames(cx: &Around<'_>, page: &mut Page, family: u8, bytes: &[u8]) -> Result<(), AllocError>
    ensures { OnOk result
        (page.new ≡ with_members (frames_shown cx.now family bytes.now) page.old) }
{
    show_members::<Whole>(cx, page, &List::Message(family), bytes)
}

/// Adds what the attributes of a message of this family say.
pub(crate) fn show_attributes(
    cx: &Around<'_>,
    page: &mut Page,
    family: u8,
    bytes: &[u8],
) -> Result<(), AllocError>
    ensures { OnOk result
        (page.new ≡ with_members (attribute_members cx.now family bytes.now) page.old) }
{
    let around = Around {
        address_len: address_len(bytes),
        ..*cx
    };
    show_frames(&around, page, family, bytes)
}

/// The bytes behind the header.
pub fn rest_of(bytes: &[u8]) -> &[u8]
    ensures { result.now ≡ drop 16 bytes.now }
{
    &bytes[HEADER_LEN.min(bytes.len())..]
}

/// Adds what a message says: its header, and its attributes by their rows.
pub fn show_message(cx: &Around<'_>, page: &mut Page, bytes: &[u8]) -> Result<(), AllocError>
    ensures { OnOk result (page.new ≡ with_members (message_members cx.now bytes.now) page.old) }
{
    show_header(page, bytes)?;
    show_attributes(cx, page, u8_at(bytes, 0), rest_of(bytes))
}
