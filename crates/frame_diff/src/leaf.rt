//! What values that hold no others tell.

ghost use Rattle.std.specs.Prelude.{◌≡◌, [], ◌∷◌, IfOk, OnOk, Some, option_map};
ghost use Rattle.shown.specs.Drafts.{object_of, with_members, with_value};
ghost use Rattle.frame_shown.specs.Items.{objects};
ghost use Rattle.frame_diff.specs.Items.{alone_item, is_leaf_untold, joined, leaf_item, leaf_items, turned_item};
ghost use Rattle.frame_diff.specs.Values.{value_shown};
ghost use Rattle.frame_diff.specs.declared.side.Side.TheVariants as Sides;

pub(crate) mod compare;
pub(crate) mod show;

use crate::kept::Kept;
use crate::keyed::Labelled;
use crate::leaf::compare::is_shown_same;
use crate::leaf::show::show_value;
use crate::path::join;
use crate::side::Side;
use frame_shown::depth::Depth;
use frame_shown::form::{Around, Field, Group, List, Way};
use link_info::Plain;
use link_vlans::Run;
use shown::{Nest, Page, Room};
use std::alloc::{AllocError, Global};

/// A value that holds no others.
#[derive(Clone, Copy, Drop)]
pub enum Value<'a> {
    /// A payload, and how it is shown.
    Payload(Way, &'a [u8]),
    /// The number of an attribute that is kept as it is, by its kind.
    Number(u16),
    /// The name that this number has all the same.
    Name(&'a str),
    /// The flags of such an attribute, by its kind.
    Flags(u16),
    /// A number.
    Unsigned(u64),
    /// A number that may be below zero.
    Signed(i64),
    /// A value of a fixed size, and the bytes that spell it.
    Spelled(Plain, &'a [u8]),
    /// A field of a record, the record's bytes, and the place in them at which it stands.
    Field(Field, &'a [u8], u8),
    /// Bytes, as digits.
    Octets(&'a [u8]),
    /// The flags of a link.
    LinkFlags(u64),
    /// The flags of a VLAN.
    VlanFlags(u64),
    /// VLANs of which the same is said.
    Vlans(Run),
    /// The attributes of a list that have a name, as a list of values.
    Listed(List, &'a [u8]),
    /// The attributes of a list that are the values of the list of a number.
    Array(List, u16, &'a [u8]),
    /// The entries of a list of a group.
    Entries(Group, &'a [Vec<u8>]),
    /// Attributes that are kept as they are, but for those that are passed over.
    Others(&'a [Labelled<Option<Kept<'a>>>]),
    /// An attribute that is kept as it is: the name that its number has all the same, if any, its kind and its payload.
    Kept(&'a str, u16, &'a [u8]),
}

/// Room for the texts that are compared.
#[derive(Drop)]
pub struct Texts {
    /// Where they lie.
    pub alloc: Global,
    /// What they are written in.
    pub(crate) room: Room,
    /// What one of them took up before.
    one: Vec<u8>,
    /// What the other one did.
    other: Vec<u8>,
}

impl Texts {
    /// No room yet. It takes no memory.
    pub fn new(alloc: Global) -> Texts {
        Texts {
            alloc,
            room: Room::new(alloc),
            one: Vec::new(alloc),
            other: Vec::new(alloc),
        }
    }
}

/// Adds the change of a value that one side alone has.
pub(crate) fn put_alone<D: Depth>(
    cx: &Around<'_>,
    page: &mut Page,
    path: &str,
    side: Side,
    value: Value<'_>,
) -> Result<(), AllocError>
    ensures { OnOk result (page.new ≡ with_value [] (object_of
        (alone_item path.now side (value_shown (D.nest cx.now) cx.now value.entry))) page.old) }
{
    page.begin("", Nest::Object)?;
    page.keyed_string("path", path)?;
    show_value::<D>(cx, page, side.name(), value)?;
    page.end()
}

/// Adds the change of a value that turned.
pub(crate) fn put_turned<D: Depth>(
    cx: &Around<'_>,
    theirs: &Around<'_>,
    page: &mut Page,
    path: &str,
    was: Value<'_>,
    is: Value<'_>,
) -> Result<(), AllocError>
    ensures { OnOk result (page.new ≡ with_value [] (object_of (turned_item path.now
        (value_shown (D.nest cx.now) cx.now was.entry)
        (value_shown (D.nest theirs.now) theirs.now is.entry))) page.old) }
{
    page.begin("", Nest::Object)?;
    page.keyed_string("path", path)?;
    show_value::<D>(cx, page, "old", was)?;
    show_value::<D>(theirs, page, "new", is)?;
    page.end()
}

/// Whether nothing is told of a value: it is shown as the one beside it, or what turned is told of the old one.
fn is_untold<D: Depth>(
    texts: &mut Texts,
    cx: &Around<'_>,
    theirs: &Around<'_>,
    side: Side,
    own: Value<'_>,
    beside: Option<Value<'_>>,
) -> Result<bool, AllocError>
    ensures { IfOk result (λ untold. untold
        ≡ is_leaf_untold side (value_shown (D.nest cx.now) cx.now own.entry)
        (option_map (value_shown (D.nest theirs.now) theirs.now) beside.entry)) }
{
    let Some(other) = beside else {
        return Ok(side.is_moved());
    };
    match side {
        Side::Old => is_shown_same::<D>(texts, cx, theirs, own, other),
        Side::New | Side::Moved => Ok(true),
    }
}

/// Adds the change of a value: one that turned, if another one stands beside it.
#[inline(always)]
fn put<D: Depth>(
    cx: &Around<'_>,
    theirs: &Around<'_>,
    page: &mut Page,
    path: &str,
    side: Side,
    own: Value<'_>,
    beside: Option<Value<'_>>,
) -> Result<(), AllocError>
    ensures { OnOk result (page.new ≡ with_value [] (object_of (leaf_item side path.now
        (value_shown (D.nest cx.now) cx.now own.entry)
        (option_map (value_shown (D.nest theirs.now) theirs.now) beside.entry))) page.old) }
{
    match beside {
        None => put_alone::<D>(cx, page, path, side, own),
        Some(other) => put_turned::<D>(cx, theirs, page, path, own, other),
    }
}

/// Tells of a value beside another one, if there is one: it came or went, or it turned, which is told of the old one.
#[tactic(auto, using(crate::proofs::Items::leaf_untold, crate::proofs::Items::leaf_told))]
pub(crate) fn tell_leaf<D: Depth>(
    texts: &mut Texts,
    cx: &Around<'_>,
    theirs: &Around<'_>,
    page: &mut Page,
    path: &str,
    side: Side,
    own: Value<'_>,
    beside: Option<Value<'_>>,
) -> Result<(), AllocError>
    ensures { OnOk result (page.new ≡ with_members (objects (leaf_items side path.now
        (value_shown (D.nest cx.now) cx.now own.entry)
        (option_map (value_shown (D.nest theirs.now) theirs.now) beside.entry)))
        page.old) }
{
    let untold = is_untold::<D>(texts, cx, theirs, side, own, beside)?;
    if untold {
        return Ok(());
    }
    put::<D>(cx, theirs, page, path, side, own, beside)
}

/// Tells of an old value beside a new one, where they are not shown as the same.
pub(crate) fn tell_turned<D: Depth>(
    texts: &mut Texts,
    cx: &Around<'_>,
    theirs: &Around<'_>,
    page: &mut Page,
    path: &str,
    was: Value<'_>,
    is: Value<'_>,
) -> Result<(), AllocError>
    ensures { OnOk result (page.new ≡ with_members (objects (leaf_items Sides.Old path.now
        (value_shown (D.nest cx.now) cx.now was.entry)
        (Some (value_shown (D.nest theirs.now) theirs.now is.entry)))) page.old) }
{
    tell_leaf::<D>(texts, cx, theirs, page, path, Side::Old, was, Some(is))
}

/// Adds the change of a value one step further.
#[inline(always)]
pub(crate) fn put_step<D: Depth>(
    texts: &mut Texts,
    cx: &Around<'_>,
    theirs: &Around<'_>,
    page: &mut Page,
    path: &str,
    step: &str,
    side: Side,
    own: Value<'_>,
    beside: Option<Value<'_>>,
) -> Result<(), AllocError>
    ensures { OnOk result (page.new
        ≡ with_members (objects (leaf_item side (joined path.now step.now)
        (value_shown (D.nest cx.now) cx.now own.entry)
        (option_map (value_shown (D.nest theirs.now) theirs.now) beside.entry) ∷ [])) page.old) }
{
    let text = join(texts.alloc, path, step)?;
    put::<D>(cx, theirs, page, text.as_str(), side, own, beside)
}

/// Tells of a value one step further beside another one, if there is one. A path is written where something is told.
#[inline(always)]
#[tactic(auto, using(crate::proofs::Items::leaf_untold, crate::proofs::Items::leaf_told))]
pub(crate) fn tell_step<D: Depth>(
    texts: &mut Texts,
    cx: &Around<'_>,
    theirs: &Around<'_>,
    page: &mut Page,
    path: &str,
    step: &str,
    side: Side,
    own: Value<'_>,
    beside: Option<Value<'_>>,
) -> Result<(), AllocError>
    ensures { OnOk result (page.new
        ≡ with_members (objects (leaf_items side (joined path.now step.now)
        (value_shown (D.nest cx.now) cx.now own.entry)
        (option_map (value_shown (D.nest theirs.now) theirs.now) beside.entry))) page.old) }
{
    if is_untold::<D>(texts, cx, theirs, side, own, beside)? {
        return Ok(());
    }
    put_step::<D>(texts, cx, theirs, page, path, step, side, own, beside)
}
