//! A line for an interface that came, went or changed.

ghost use Rattle.std.specs.Prelude.{◌≡◌, ◌<◌, ◌↔◌, ◌++◌, ℕ, List, IsTrue, IfOk, IfErr, OnOk, false, length, codes};
ghost use Rattle.message_diff.specs.Announced.{without_event};
ghost use Rattle.message_diff.specs.Compared.{TellsIfDiffers, Extends, IsRefusalOfTwoBy};
ghost use Rattle.message_diff.specs.Alone.{AddsAlone};
ghost use Rattle.message_diff.specs.Changed.{AddsChanged, AddsList, AddsListBy};

use crate::alone::{push_alone, show_interface};
use crate::changes::show_changes;
use crate::desk::Desk;
use crate::snapshot::{Compared, Snapshot};
use crate::words::show_told;
use frame_shown::form::Order;
use link_msg::CanonError;
use shown::Page;
use std::alloc::{AllocError, Global};

/// Adds a line that tells that the interface came: the words in front of a line that are told (`type`, `time`, `host`),
/// `change`, which is `new`, and its family, index and name.
pub fn push_new(
    alloc: Global,
    front: &[u8],
    new: &Snapshot,
    out: &mut Vec<u8>,
) -> Result<(), AllocError>
    ensures { OnOk result
        (AddsAlone front.now (codes "new") new.now.text out.old.items out.new.items) }
{
    push_alone(alloc, front, "new", new.text(), out)
}

/// Adds a line that tells that the interface went: the same, where `change` is `gone`.
pub fn push_gone(
    alloc: Global,
    front: &[u8],
    old: &Snapshot,
    out: &mut Vec<u8>,
) -> Result<(), AllocError>
    ensures { OnOk result
        (AddsAlone front.now (codes "gone") old.now.text out.old.items out.new.items) }
{
    push_alone(alloc, front, "gone", old.text(), out)
}

/// Adds a line for an interface whose encoding is another.
fn push_difference(
    alloc: Global,
    by: Compared,
    front: &[u8],
    old: &Snapshot,
    new: &Snapshot,
    desk: &mut Desk,
    out: &mut Vec<u8>,
) -> Result<(), AllocError>
    ensures { OnOk result
        (AddsChanged by front.now old.now new.now out.old.items out.new.items) }
{
    let mut page = desk.line.begin()?;
    show_told(&mut page, front)?;
    page.keyed_string("change", "changed")?;
    show_interface(alloc, &mut page, new.text())?;
    show_changes(&mut desk.texts, by, old, new, &mut page)?;
    desk.line.finish(page, out)?;
    out.push(b'\n')?;
    Ok(())
}

/// Adds a line that tells what changed of the interface, if its encoding is another, and returns whether it is.
///
/// The line has the words in front of a line that are told, `change`, which is `changed`, family, index and name of the
/// new message, and `changes`: of each path whose value differs `path`, `old` and `new`, of which one is left out where
/// the path came or went. VLANs of a bridge port beside each other that changed alike are told as one, and lists of
/// texts text by text. Of states, what moves by itself is not told. Where the encodings differ and no path does, each
/// list in another order is told whole, and if there is none, the one path `state` has both encodings in hexadecimal.
pub fn push_changed(
    alloc: Global,
    by: Compared,
    front: &[u8],
    old: &Snapshot,
    new: &Snapshot,
    desk: &mut Desk,
    out: &mut Vec<u8>,
) -> Result<bool, AllocError>
    ensures told { IfOk result (λ told. (told ≡ false) ↔ (old.now.text ≡ new.now.text)) }
    ensures silent { IfOk result (λ told. told ≡ false → out.new ≡ out.old) }
    ensures said { IfOk result
        (λ told. IsTrue told → length out.old.items < length out.new.items) }
    ensures added { OnOk result (Extends out.old.items out.new.items) }
    ensures line { IfOk result (λ told. IsTrue told
        → AddsChanged by front.now old.now new.now out.old.items out.new.items) }
{
    if old.text() == new.text() {
        return Ok(false);
    }
    push_difference(alloc, by, front, old, new, desk, out)?;
    Ok(true)
}

/// What stands in front of a list that is the one member of an object, and behind it.
const OPENED: &[u8] = b"{\"changes\":";

/// Adds the list of what changed, which is written as the one member of an object.
fn push_inside(text: &[u8], out: &mut Vec<u8>) -> Result<(), AllocError>
    ensures { OnOk result ((list : List ℕ) → text.now ≡ codes "{\"changes\":" ++ (list ++ codes "}")
        → out.new.items ≡ out.old.items ++ list) }
{
    let end = text.len().max(1) - 1;
    out.extend_from_slice(text.get(OPENED.len()..end).unwrap_or(b""))
}

/// Adds the list of what changed of an interface whose encoding is another.
fn push_changes(
    alloc: Global,
    by: Compared,
    old: &Snapshot,
    new: &Snapshot,
    out: &mut Vec<u8>,
) -> Result<(), AllocError>
    ensures { OnOk result (AddsList by old.now new.now out.old.items out.new.items) }
{
    let mut desk = Desk::new(alloc);
    let mut text = Vec::new(alloc);
    let mut page = Page::new(alloc)?;
    show_changes(&mut desk.texts, by, old, new, &mut page)?;
    page.finish(&mut text)?;
    push_inside(text.as_slice(), out)
}

/// Adds the list of what differs between the messages that the bytes are, if their encodings do, and returns whether
/// they do. Attributes IFLA_EVENT, which say why a message was announced, are not compared. It is what a line of
/// `push_changed` has as `changes`: a JSON list, and no line's end.
///
/// Refuses as `Snapshot::of_link` does, each refusal of the old one before those of the new one; then nothing was
/// added.
pub fn push_list(
    alloc: Global,
    by: Compared,
    order: Order,
    old: &[u8],
    new: &[u8],
    out: &mut Vec<u8>,
) -> Result<bool, CanonError>
    ensures told { IfOk result
        (TellsIfDiffers by (without_event old.now) (without_event new.now)) }
    ensures silent { IfOk result (λ told. told ≡ false → out.new ≡ out.old) }
    ensures said { IfOk result
        (λ told. IsTrue told → length out.old.items < length out.new.items) }
    ensures list { IfOk result (λ told. IsTrue told
        → AddsListBy by order (without_event old.now) (without_event new.now)
        out.old.items out.new.items) }
    ensures err { IfErr result
        (IsRefusalOfTwoBy by (without_event old.now) (without_event new.now)) }
{
    let was = Snapshot::of_link(alloc, by, order, old)?;
    let is = Snapshot::of_link(alloc, by, order, new)?;
    if was.text() == is.text() {
        return Ok(false);
    }
    match push_changes(alloc, by, &was, &is, out) {
        Ok(()) => Ok(true),
        Err(AllocError) => Err(CanonError::OutOfMemory),
    }
}
