//! What differs between two messages.

ghost use Rattle.std.specs.Prelude.{◌≡◌, ◌==◌, ◌&&◌, [], IfOk, OnOk, map, slice_index, true};
ghost use Rattle.std.specs.List.{flat_map};
ghost use Rattle.nla_wire.specs.Items.{items};
ghost use Rattle.link_info.specs.Rows.{AreAllRows};
ghost use Rattle.link_info.specs.Tables.{frames_in};
ghost use Rattle.shown.specs.Drafts.{with_members};
ghost use Rattle.frame_shown.specs.Items.{objects};
ghost use Rattle.frame_shown.specs.Messages.{address_len, header_members, with_address_len};
ghost use Rattle.frame_shown.specs.Plain.{plain};
ghost use Rattle.frame_shown.specs.declared.form.Around.{Around as Beside};
ghost use Rattle.frame_diff.specs.Forests.{forest};
ghost use Rattle.frame_diff.specs.Items.{items_told};
ghost use Rattle.frame_diff.specs.Laws.{messages_asked, messages_by, messages_moved};
ghost use Rattle.frame_diff.specs.Members.{attributes_in, fields, message_made, refused_in, whole};
ghost use Rattle.frame_diff.specs.Messages.{parts_of, with_order};
ghost use Rattle.frame_diff.specs.Ranges.{told_items};
ghost use Rattle.frame_diff.specs.Rows.{row_shown};

use crate::leaf::{Texts, Value};
use crate::members::tell_members;
use crate::rows::{Row, tell_rows};
use crate::side::Side;
use crate::walk::{Attributes, Pass, Walk};
use frame_shown::depth::{Above, Bottom};
use frame_shown::form::{Around, List, Order};
use frame_shown::message::{address_len, rest_of};
use link_info::all_rows;
use nla_wire::fields::{i32_at, u8_at, u16_at, u32_at};
use shown::Page;
use std::alloc::{AllocError, Global};

/// As deep as lists go.
type Whole = Above<Above<Above<Above<Above<Bottom>>>>>;

/// A list in which there are no others.
type Flat = Above<Bottom>;

/// A message that is compared, or a state.
#[derive(Clone, Copy, Drop)]
pub struct Message<'a> {
    /// The bytes of its header, and what stands behind them.
    pub header: &'a [u8],
    /// The attributes that are accepted.
    pub attributes: &'a [u8],
    /// The attributes that are refused.
    pub refused: &'a [u8],
}

impl<'a> Message<'a> {
    /// A message of which all attributes are accepted.
    pub fn whole(bytes: &'a [u8]) -> Message<'a>
        ensures { parts_of result ≡ whole bytes.now }
    {
        Message {
            header: bytes,
            attributes: rest_of(bytes),
            refused: &[],
        }
    }
}

/// What the header says.
fn header_rows<'a>(alloc: Global, bytes: &[u8]) -> Result<Vec<Row<'a>>, AllocError>
    ensures { IfOk result (λ rows. (cx : Beside) → map (row_shown cx) rows.items ≡ header_members bytes.now) }
{
    let mut rows = Vec::with_capacity(alloc, 5)?;
    rows.push(Row {
        name: "ifi-family",
        value: Value::Unsigned(u8_at(bytes, 0).into()),
    })?;
    rows.push(Row {
        name: "ifi-type",
        value: Value::Unsigned(u16_at(bytes, 2).into()),
    })?;
    rows.push(Row {
        name: "ifi-index",
        value: Value::Signed(i32_at(bytes, 4).into()),
    })?;
    rows.push(Row {
        name: "ifi-flags",
        value: Value::LinkFlags(u32_at(bytes, 8).into()),
    })?;
    rows.push(Row {
        name: "ifi-change",
        value: Value::Unsigned(u32_at(bytes, 12).into()),
    })?;
    Ok(rows)
}

/// Tells of the header of a message beside that of another one. Both have all fields, so none comes.
fn tell_header(
    texts: &mut Texts,
    cx: &Around<'_>,
    theirs: &Around<'_>,
    page: &mut Page,
    side: Side,
    own: &[u8],
    others: &[u8],
) -> Result<(), AllocError>
    ensures { OnOk result (page.new ≡ with_members (objects (items_told side []
        (fields (header_members own.now)) (fields (header_members others.now)))) page.old) }
{
    match side {
        Side::Old => {
            let rows = header_rows(texts.alloc, own)?;
            let there = header_rows(texts.alloc, others)?;
            tell_rows(texts, cx, theirs, page, "", side, &rows, &there)
        }
        Side::New | Side::Moved => Ok(()),
    }
}

/// What the attributes of a message are shown by.
fn around<'a>(cx: &Around<'a>, bytes: &[u8]) -> Around<'a>
    ensures { result ≡ with_address_len cx.now (address_len (frames_in (items bytes.now))) }
{
    Around {
        address_len: address_len(bytes),
        ..*cx
    }
}

/// Whether the rows of two messages are known to be the same, by their addresses' sizes and by their families.
fn are_alike(pass: Pass, own: usize, other: usize, family: u8, theirs: u8) -> bool
    ensures { result ≡ (pass.is_alike && (own == other) && (family == theirs)) }
{
    pass.is_alike && own == other && family == theirs
}

/// Tells of the attributes of a message that are accepted, beside those of another one.
fn tell_attributes(
    texts: &mut Texts,
    pass: Pass,
    cx: &Around<'_>,
    theirs: &Around<'_>,
    page: &mut Page,
    own: Message<'_>,
    others: Message<'_>,
) -> Result<(), AllocError>
    requires rows { AreAllRows cx.now.tables.now }
    requires alike { pass.is_alike ≡ true → cx.now ≡ theirs.now }
    ensures { OnOk result (page.new ≡ with_members (objects (items_told pass.side []
        (forest (attributes_in pass.is_state cx.now (slice_index own.entry.header.now 0)
        own.entry.attributes.now))
        (forest (attributes_in pass.is_state theirs.now (slice_index others.entry.header.now 0)
        others.entry.attributes.now)))) page.old) }
{
    let family = u8_at(own.header, 0);
    let their_family = u8_at(others.header, 0);
    let here = around(cx, own.attributes);
    let there = around(theirs, others.attributes);
    let is_alike = are_alike(
        pass,
        here.address_len,
        there.address_len,
        family,
        their_family,
    );
    let list = Attributes {
        around: &here,
        list: List::Message(family),
        number: None,
        bytes: own.attributes,
    };
    let beside = Attributes {
        around: &there,
        list: List::Message(their_family),
        number: None,
        bytes: others.attributes,
    };
    let pass = Pass { is_alike, ..pass };
    tell_members::<Whole>(texts, pass, page, "", list, beside)
}

/// Tells of the attributes of a message that are refused, beside those of another one.
fn tell_refused(
    texts: &mut Texts,
    pass: Pass,
    cx: &Around<'_>,
    theirs: &Around<'_>,
    page: &mut Page,
    own: &[u8],
    others: &[u8],
) -> Result<(), AllocError>
    requires rows { AreAllRows cx.now.tables.now }
    requires alike { pass.is_alike ≡ true → cx.now ≡ theirs.now }
    ensures { OnOk result (page.new ≡ with_members (objects (items_told pass.side []
        (forest (refused_in pass.is_state cx.now own.now))
        (forest (refused_in pass.is_state theirs.now others.now)))) page.old) }
{
    if own.is_empty() {
        return Ok(());
    }
    let list = Attributes {
        around: cx,
        list: List::Refused,
        number: None,
        bytes: own,
    };
    let beside = Attributes {
        around: theirs,
        list: List::Refused,
        number: None,
        bytes: others,
    };
    Flat::tell_list(texts, pass, page, "refused", list, Some(beside))
}

/// Tells of a message, or of a state, beside another one: in the old one of what went or turned, in the new one of what
/// came.
pub(crate) fn tell_side(
    texts: &mut Texts,
    pass: Pass,
    cx: &Around<'_>,
    theirs: &Around<'_>,
    page: &mut Page,
    own: Message<'_>,
    others: Message<'_>,
) -> Result<(), AllocError>
    requires rows { AreAllRows cx.now.tables.now }
    requires alike { pass.is_alike ≡ true → cx.now ≡ theirs.now }
    ensures { OnOk result (page.new ≡ with_members (objects (items_told pass.side []
        (message_made pass.is_state cx.now (parts_of own.entry))
        (message_made pass.is_state theirs.now (parts_of others.entry)))) page.old) }
{
    tell_header(
        texts,
        cx,
        theirs,
        page,
        pass.side,
        own.header,
        others.header,
    )?;
    tell_attributes(texts, pass, cx, theirs, page, own, others)?;
    tell_refused(texts, pass, cx, theirs, page, own.refused, others.refused)
}

/// Whether two orders are the same.
fn is_same_order(one: Order, other: Order) -> bool
    ensures { result ≡ true → one ≡ other }
{
    match (one, other) {
        (Order::Unknown, Order::Unknown) => true,
        (Order::Before, Order::Before) => true,
        (Order::Since, Order::Since) => true,
        _ => false,
    }
}

/// Tells of all that differs between two messages, or between two states: of each path once, first of what went or
/// turned, in the order of the old one, and then of what came. The counters of IPv6 have an order of their own in each.
pub(crate) fn tell_messages(
    texts: &mut Texts,
    is_state: bool,
    cx: &Around<'_>,
    order: Order,
    page: &mut Page,
    old: Message<'_>,
    new: Message<'_>,
) -> Result<(), AllocError>
    requires { AreAllRows cx.now.tables.now }
    ensures { OnOk result (page.new ≡ with_members (objects (flat_map told_items
        (messages_by is_state cx.now (with_order cx.now order)
        (parts_of old.entry) (parts_of new.entry)))) page.old) }
{
    let theirs = Around { order, ..*cx };
    let is_alike = is_same_order(cx.order, order);
    let pass = Pass {
        is_state,
        side: Side::Old,
        is_alike,
    };
    tell_side(texts, pass, cx, &theirs, page, old, new)?;
    let pass = Pass {
        side: Side::New,
        ..pass
    };
    tell_side(texts, pass, &theirs, cx, page, new, old)
}

/// Tells of the lists whose values two messages, or two states, have in another order, or which one of both writes
/// otherwise: of each as a whole.
pub(crate) fn tell_moved(
    texts: &mut Texts,
    is_state: bool,
    cx: &Around<'_>,
    order: Order,
    page: &mut Page,
    old: Message<'_>,
    new: Message<'_>,
) -> Result<(), AllocError>
    requires { AreAllRows cx.now.tables.now }
    ensures { OnOk result (page.new ≡ with_members (objects (flat_map told_items
        (messages_moved is_state cx.now (with_order cx.now order)
        (parts_of old.entry) (parts_of new.entry)))) page.old) }
{
    let theirs = Around { order, ..*cx };
    let pass = Pass {
        is_state,
        side: Side::Moved,
        is_alike: is_same_order(cx.order, order),
    };
    tell_side(texts, pass, cx, &theirs, page, old, new)
}

/// What is asked of two messages, or of two states.
#[derive(Clone, Copy, Drop)]
pub enum Asked {
    /// All that differs.
    Changes,
    /// The lists that they have in another order, or that one of both writes otherwise. Where nothing is told of all
    /// that differs, this may be what does.
    Moved,
}

/// Tells of what differs between two messages, or between two states, by the rows of all places; each has an order of
/// the counters of IPv6.
pub fn tell(
    texts: &mut Texts,
    asked: Asked,
    is_state: bool,
    orders: (Order, Order),
    page: &mut Page,
    old: Message<'_>,
    new: Message<'_>,
) -> Result<(), AllocError>
    ensures { OnOk result (page.new ≡ with_members (objects (flat_map told_items
        (messages_asked asked is_state (plain orders.0) (plain orders.1)
        (parts_of old.entry) (parts_of new.entry)))) page.old) }
{
    let tables = all_rows();
    let cx = Around::plain(&tables, orders.0);
    match asked {
        Asked::Changes => tell_messages(texts, is_state, &cx, orders.1, page, old, new),
        Asked::Moved => tell_moved(texts, is_state, &cx, orders.1, page, old, new),
    }
}
