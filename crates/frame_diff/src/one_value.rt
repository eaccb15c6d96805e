//! What a value of a list tells beside another one, and a list of them as a whole.

ghost use Rattle.std.specs.Prelude.{◌≡◌, ◌<◌, ◌∷◌, [], ℕ, IfSome, None, OnOk, Option as Maybe, Some, false, not};
ghost use Rattle.std.specs.Prelude.{option_map, true};
ghost use Rattle.nla_wire.specs.Items.{items};
ghost use Rattle.link_info.specs.Tables.{frames_in};
ghost use Rattle.shown.specs.Drafts.{with_members};
ghost use Rattle.frame_shown.specs.Items.{objects};
ghost use Rattle.frame_shown.specs.declared.form.List.{List as Shape};
ghost use Rattle.frame_diff.specs.Differences.{leaf_in};
ghost use Rattle.frame_diff.specs.Groups.{IsSameEntry, group_held, is_entries, is_group, is_valued, list_held};
ghost use Rattle.frame_diff.specs.Groups.{value_at};
ghost use Rattle.frame_diff.specs.Items.{alone_item, leaf_items};
ghost use Rattle.frame_diff.specs.Members.{is_some};
ghost use Rattle.frame_diff.specs.Walked.{AreBeside, HasNames, StandBeside, held_items};
ghost use Rattle.frame_diff.specs.declared.walk.Attribute.{Attribute as One};
ghost use Rattle.frame_diff.specs.declared.side.Side.TheVariants as Sides;
ghost use Rattle.frame_shown.specs.declared.form.List.TheVariants as Shapes;

use crate::leaf::compare::is_same;
use crate::leaf::{Texts, Value, put_alone, tell_leaf, tell_turned};
use crate::lists::{is_without, tell_object};
use crate::picked::{bare_beside, entry_beside, entry_list, is_entries};
use crate::plain_lists::flat_value;
use crate::same::is_same_list;
use crate::side::Side;
use crate::value::tell_value;
use crate::walk::{Attribute, Attributes, Pass, Walk};
use crate::wholes::{put_entry, settled_entries};
use frame_shown::depth::Above;
use frame_shown::form::{Form, Group as Entries, List, Way};
use shown::Page;
use std::alloc::AllocError;

/// Tells of a list that holds no member beside another one.
#[tactic(auto, using(crate::proofs::Settled::bare_shown))]
fn tell_bare<W: Walk>(
    texts: &mut Texts,
    pass: Pass,
    page: &mut Page,
    path: &str,
    own: Attributes<'_>,
    beside: Option<Attributes<'_>>,
) -> Result<(), AllocError>
    requires { is_some (frames_in (items own.bytes.now)) ≡ false }
    ensures { OnOk result (page.new ≡ with_members (objects (leaf_items pass.side path.now
        (list_held W.nest W.inner pass.is_state own.entry).0
        (leaf_in (option_map (list_held W.nest W.inner pass.is_state) beside.entry)))) page.old) }
{
    let value = Value::Payload(Way::Own(Form::List(own.list)), own.bytes);
    match bare_beside(beside) {
        Some(other) => {
            let there = Some(Value::Payload(Way::Own(Form::List(other.list)), other.bytes));
            let theirs = other.around;
            tell_leaf::<Above<W>>(
                texts, own.around, theirs, page, path, pass.side, value, there,
            )
        }
        None => tell_leaf::<Above<W>>(
            texts, own.around, own.around, page, path, pass.side, value, None,
        ),
    }
}

/// Whether another list has the rows and the bytes of this one, where it is shown by the same.
fn is_same_entry(own: Attributes<'_>, beside: Option<Attributes<'_>>) -> bool
    ensures { result ≡ true → IsSameEntry own.entry beside.entry }
{
    let Some(other) = beside else {
        return false;
    };
    is_same_list(own.list, other.list) && is_same(own.bytes, other.bytes)
}

/// Tells of an object beside another one, if there is one. One that stands there as it is costs a look.
fn tell_entry<W: Walk>(
    texts: &mut Texts,
    pass: Pass,
    page: &mut Page,
    path: &str,
    own: Attributes<'_>,
    beside: Option<Attributes<'_>>,
) -> Result<(), AllocError>
    requires object { is_group own.list ≡ false }
    requires names { HasNames own.around.now }
    requires alike { pass.is_alike ≡ true → AreBeside own beside }
    ensures { OnOk result (page.new ≡ with_members (objects (held_items pass.side path.now
        (list_held W.nest W.inner pass.is_state own.entry)
        (option_map (list_held W.nest W.inner pass.is_state) beside.entry))) page.old) }
{
    if pass.is_alike {
        W::laws();
        if is_same_entry(own, beside) {
            return Ok(());
        }
    }
    if is_without(own) {
        return tell_bare::<W>(texts, pass, page, path, own, beside);
    }
    tell_object::<W>(texts, pass, page, path, own, beside)
}

/// Tells of a value that is no entry beside another one.
fn tell_no_entry<W: Walk>(
    texts: &mut Texts,
    pass: Pass,
    page: &mut Page,
    path: &str,
    own: Attribute<'_>,
    beside: Option<Attribute<'_>>,
) -> Result<(), AllocError>
    requires alone { is_entries own.list ≡ false }
    requires names { HasNames own.around.now }
    requires entries { IfSome beside (λ a. is_entries a.list ≡ is_entries own.list) }
    ensures { OnOk result (page.new ≡ with_members (objects (held_items pass.side path.now
        (value_at W.nest W.inner pass.is_state own.entry)
        (option_map (value_at W.nest W.inner pass.is_state) beside.entry))) page.old) }
{
    let pass = Pass {
        is_alike: false,
        ..pass
    };
    tell_value::<W>(texts, pass, page, path, own, beside)
}

/// Tells of a value beside another one.
fn tell_picked<W: Walk>(
    texts: &mut Texts,
    pass: Pass,
    page: &mut Page,
    path: &str,
    own: Attribute<'_>,
    beside: Option<Attribute<'_>>,
) -> Result<(), AllocError>
    requires names { HasNames own.around.now }
    requires entries { IfSome beside (λ a. is_entries a.list ≡ is_entries own.list) }
    requires alike { pass.is_alike ≡ true → StandBeside own beside }
    ensures { OnOk result (page.new ≡ with_members (objects (held_items pass.side path.now
        (value_at W.nest W.inner pass.is_state own.entry)
        (option_map (value_at W.nest W.inner pass.is_state) beside.entry))) page.old) }
{
    if is_entries(own.list) {
        let own = entry_list(own);
        let there = entry_beside(beside);
        return tell_entry::<W>(texts, pass, page, path, own, there);
    }
    tell_no_entry::<W>(texts, pass, page, path, own, beside)
}

/// Adds the change of an attribute that one side alone has.
fn put_attribute<W: Walk>(
    pass: Pass,
    page: &mut Page,
    path: &str,
    own: Attribute<'_>,
) -> Result<(), AllocError>
    requires { is_entries own.list ≡ false }
    ensures { OnOk result (page.new ≡ with_members (objects (alone_item path.now pass.side
        (value_at W.nest W.inner pass.is_state own.entry).0 ∷ [])) page.old) }
{
    let value = Value::Payload(own.way, own.payload);
    put_alone::<W>(own.around, page, path, pass.side, value)
}

/// Tells of an old list of values beside a new one, where they are not shown as the same.
fn tell_list<W: Walk>(
    texts: &mut Texts,
    is_state: bool,
    page: &mut Page,
    path: &str,
    old: Attributes<'_>,
    new: Attributes<'_>,
) -> Result<(), AllocError>
    requires entries { is_entries old.list ≡ false }
    requires same { is_entries new.list ≡ is_entries old.list }
    requires old { is_valued old.number old.list ≡ true }
    requires new { is_valued new.number new.list ≡ true }
    ensures { OnOk result (page.new ≡ with_members (objects (leaf_items Sides.Old path.now
        (group_held W.nest W.inner is_state old.entry).0
        (Some (group_held W.nest W.inner is_state new.entry).0))) page.old) }
{
    let was = flat_value(old);
    let is = flat_value(new);
    tell_turned::<W>(texts, old.around, new.around, page, path, was, is)
}

/// The group of a list of entries.
fn group_of(list: List) -> Entries
    requires { is_entries list ≡ true }
    ensures { Shapes.Entries result ≡ list }
{
    match list {
        List::Entries(group) => group,
        _ => Entries::Info,
    }
}

/// Tells of old entries beside new ones, where they are not shown as the same.
fn tell_entries<W: Walk>(
    texts: &mut Texts,
    is_state: bool,
    page: &mut Page,
    path: &str,
    old: Attributes<'_>,
    new: Attributes<'_>,
) -> Result<(), AllocError>
    requires number { old.number ≡ None }
    requires new_number { new.number ≡ None }
    requires entries { is_entries old.list ≡ true }
    requires new_entries { is_entries new.list ≡ true }
    ensures { OnOk result (page.new ≡ with_members (objects (leaf_items Sides.Old path.now
        (group_held W.nest W.inner is_state old.entry).0
        (Some (group_held W.nest W.inner is_state new.entry).0))) page.old) }
{
    let group = group_of(old.list);
    let other = group_of(new.list);
    let own = settled_entries(texts.alloc, is_state, group, old.bytes)?;
    let there = settled_entries(texts.alloc, is_state, other, new.bytes)?;
    let was = Value::Entries(group, own.as_slice());
    let is = Value::Entries(other, there.as_slice());
    tell_turned::<Above<W>>(texts, old.around, new.around, page, path, was, is)
}

/// What the values of a list are.
pub(crate) trait Values {
    /// Which lists they may be of.
    ghost fits: { Shape → Type 0 };

    /// Which of the attributes of a list they may be.
    ghost picks: { Maybe ℕ → Type 0 };

    /// Tells of one of them beside another one, if there is one.
    fn tell_one<W: Walk>(
        texts: &mut Texts,
        pass: Pass,
        page: &mut Page,
        path: &str,
        own: Attribute<'_>,
        beside: Option<Attribute<'_>>,
    ) -> Result<(), AllocError>
        requires fits { fits own.list }
        requires names { HasNames own.around.now }
        requires entries { IfSome beside (λ a. is_entries a.list ≡ is_entries own.list) }
        requires alike { pass.is_alike ≡ true → StandBeside own beside }
        ensures { OnOk result (page.new ≡ with_members (objects (held_items pass.side path.now
            (value_at W.nest W.inner pass.is_state own.entry)
            (option_map (value_at W.nest W.inner pass.is_state) beside.entry))) page.old) };

    /// Tells of an old list beside a new one, where they are not shown as the same.
    fn tell_list<W: Walk>(
        texts: &mut Texts,
        is_state: bool,
        page: &mut Page,
        path: &str,
        old: Attributes<'_>,
        new: Attributes<'_>,
    ) -> Result<(), AllocError>
        requires fits { fits old.list }
        requires picks { picks old.number }
        requires others { picks new.number }
        requires entries { is_entries new.list ≡ is_entries old.list }
        requires old { is_valued old.number old.list ≡ true }
        requires new { is_valued new.number new.list ≡ true }
        ensures { OnOk result (page.new ≡ with_members (objects (leaf_items Sides.Old path.now
            (group_held W.nest W.inner is_state old.entry).0
            (Some (group_held W.nest W.inner is_state new.entry).0))) page.old) };

    /// Tells of one of them that one side alone has, as a whole.
    fn tell_whole<W: Walk>(
        texts: &mut Texts,
        pass: Pass,
        page: &mut Page,
        path: &str,
        own: Attribute<'_>,
    ) -> Result<(), AllocError>
        requires fits { fits own.list }
        ensures { OnOk result (page.new ≡ with_members (objects (alone_item path.now pass.side
            (value_at W.nest W.inner pass.is_state own.entry).0 ∷ [])) page.old) };
}

/// Entries, or attributes that have a name.
#[derive(Drop)]
pub(crate) struct Group {}

impl Values for Group {
    ghost fits = { λ list. Unit {0} };

    ghost picks = { λ number. number ≡ None };

    fn tell_one<W: Walk>(
        texts: &mut Texts,
        pass: Pass,
        page: &mut Page,
        path: &str,
        own: Attribute<'_>,
        beside: Option<Attribute<'_>>,
    ) -> Result<(), AllocError> {
        tell_picked::<W>(texts, pass, page, path, own, beside)
    }

    fn tell_list<W: Walk>(
        texts: &mut Texts,
        is_state: bool,
        page: &mut Page,
        path: &str,
        old: Attributes<'_>,
        new: Attributes<'_>,
    ) -> Result<(), AllocError> {
        if is_entries(old.list) {
            return tell_entries::<W>(texts, is_state, page, path, old, new);
        }
        tell_list::<W>(texts, is_state, page, path, old, new)
    }

    fn tell_whole<W: Walk>(
        texts: &mut Texts,
        pass: Pass,
        page: &mut Page,
        path: &str,
        own: Attribute<'_>,
    ) -> Result<(), AllocError> {
        match own.list {
            List::Entries(group) => put_entry::<W>(texts, pass, page, path, group, own),
            _ => put_attribute::<W>(pass, page, path, own),
        }
    }
}

/// Attributes that are the values of a list.
#[derive(Drop)]
pub(crate) struct Array {}

impl Values for Array {
    ghost fits = { λ list. is_entries list ≡ false };

    ghost picks = { λ number. Unit {0} };

    fn tell_one<W: Walk>(
        texts: &mut Texts,
        pass: Pass,
        page: &mut Page,
        path: &str,
        own: Attribute<'_>,
        beside: Option<Attribute<'_>>,
    ) -> Result<(), AllocError> {
        tell_no_entry::<W>(texts, pass, page, path, own, beside)
    }

    fn tell_list<W: Walk>(
        texts: &mut Texts,
        is_state: bool,
        page: &mut Page,
        path: &str,
        old: Attributes<'_>,
        new: Attributes<'_>,
    ) -> Result<(), AllocError> {
        tell_list::<W>(texts, is_state, page, path, old, new)
    }

    fn tell_whole<W: Walk>(
        _texts: &mut Texts,
        pass: Pass,
        page: &mut Page,
        path: &str,
        own: Attribute<'_>,
    ) -> Result<(), AllocError> {
        put_attribute::<W>(pass, page, path, own)
    }
}
