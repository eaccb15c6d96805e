//! What differs between two encodings.

ghost use Rattle.std.specs.Prelude.{◌≡◌, ◌∷◌, [], IfOk, OnOk, codes, false, true};
ghost use Rattle.shown.specs.Drafts.{with_members, with_value};
ghost use Rattle.shown.specs.Print.{ends_value};
ghost use Rattle.frame_shown.specs.Items.{objects};
ghost use Rattle.frame_diff.specs.Items.{change_item};
ghost use Rattle.frame_diff.specs.Members.{leniently};
ghost use Rattle.frame_diff.specs.Messages.{parts_of};
ghost use Rattle.message_diff.specs.Changed.{change_tokens, items_asked, state_change};
ghost use Rattle.message_diff.specs.Changed.{written_items};
ghost use Rattle.message_diff.specs.Compared.{is_lenient};
ghost use Rattle.message_diff.specs.Split.{parts_in};

use crate::snapshot::{Compared, Snapshot};
use frame_diff::leaf::Texts;
use frame_diff::message::{Asked, Message, tell};
use frame_shown::accepted::parted;
use frame_shown::message::rest_of;
use nla_wire::fields::u8_at;
use shown::{Nest, Page};
use std::alloc::{AllocError, Global};

/// An encoding of which some attributes are refused, and those apart from the others.
#[derive(Drop)]
struct Split<'a> {
    text: &'a [u8],
    accepted: Vec<u8>,
    refused: Vec<u8>,
}

impl<'a> Split<'a> {
    /// The attributes of an encoding, apart.
    fn of(alloc: Global, text: &'a [u8]) -> Result<Split<'a>, AllocError>
        ensures { IfOk result (λ split. parts_in split ≡ leniently text.now) }
    {
        let family = u8_at(text, 0);
        let (accepted, refused) = parted(alloc, rest_of(text), family)?;
        Ok(Split {
            text,
            accepted,
            refused,
        })
    }

    /// What is compared of it.
    fn message(&self) -> Message<'_>
        ensures { parts_of result ≡ parts_in self.now }
    {
        Message {
            header: self.text,
            attributes: self.accepted.as_slice(),
            refused: self.refused.as_slice(),
        }
    }
}

/// Adds what is asked of two encodings that are read leniently, as values of a list.
fn tell_leniently(
    texts: &mut Texts,
    asked: Asked,
    by: Compared,
    old: &Snapshot,
    new: &Snapshot,
    page: &mut Page,
) -> Result<(), AllocError>
    requires { is_lenient by ≡ true }
    ensures { OnOk result (page.new ≡ with_members
        (objects (items_asked asked by old.now new.now)) page.old) }
{
    let was = Split::of(texts.alloc, old.text())?;
    let is = Split::of(texts.alloc, new.text())?;
    let orders = (old.order(), new.order());
    tell(
        texts,
        asked,
        by.is_state(),
        orders,
        page,
        was.message(),
        is.message(),
    )
}

/// Adds what is asked of two encodings, as values of a list: what differs, or the lists in another order.
fn tell_asked(
    texts: &mut Texts,
    asked: Asked,
    by: Compared,
    old: &Snapshot,
    new: &Snapshot,
    page: &mut Page,
) -> Result<(), AllocError>
    ensures { OnOk result (page.new ≡ with_members
        (objects (items_asked asked by old.now new.now)) page.old) }
{
    if by.is_lenient() {
        return tell_leniently(texts, asked, by, old, new, page);
    }
    let orders = (old.order(), new.order());
    let was = Message::whole(old.text());
    let is = Message::whole(new.text());
    tell(texts, asked, by.is_state(), orders, page, was, is)
}

/// Adds both encodings in hexadecimal, as a change.
fn show_texts(page: &mut Page, old: &[u8], new: &[u8]) -> Result<(), AllocError>
    ensures { OnOk result (page.new ≡ with_members
        (objects (change_item (state_change old.now new.now) ∷ [])) page.old) }
{
    page.begin("", Nest::Object)?;
    page.keyed_string("path", "state")?;
    page.hex("old", old)?;
    page.hex("new", new)?;
    page.end()
}

/// Adds what differs between two encodings, as values of a list that holds none yet: lists in another order, where
/// nothing else does, or both encodings.
fn tell_all(
    texts: &mut Texts,
    by: Compared,
    old: &Snapshot,
    new: &Snapshot,
    page: &mut Page,
) -> Result<(), AllocError>
    requires { ends_value page.now.tokens ≡ false }
    ensures { OnOk result (page.new ≡ with_members
        (objects (written_items by old.now new.now)) page.old) }
{
    tell_asked(texts, Asked::Changes, by, old, new, page)?;
    if page.ends_value() {
        return Ok(());
    }
    tell_asked(texts, Asked::Moved, by, old, new, page)?;
    if page.ends_value() {
        return Ok(());
    }
    show_texts(page, old.text(), new.text())
}

/// Adds the list of what changed between two encodings: of both of them, where nothing else did.
pub fn show_changes(
    texts: &mut Texts,
    by: Compared,
    old: &Snapshot,
    new: &Snapshot,
    page: &mut Page,
) -> Result<(), AllocError>
    ensures { OnOk result (page.new ≡ with_value (codes "changes")
        (change_tokens (written_items by old.now new.now)) page.old) }
{
    page.keyed_begin("changes", Nest::List)?;
    tell_all(texts, by, old, new, page)?;
    page.end()
}
