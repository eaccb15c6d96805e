//! What lists tell whose values are their own keys: each value that comes more often here than there.

ghost use Rattle.std.specs.Prelude.{◌≡◌, ◌<◌, ◌^◌, ◌+◌, ◌-◌, [], ℕ, IfOk, List as Seq, None, OnOk, cond, nat_lt};
ghost use Rattle.json.specs.Token.{Token};
ghost use Rattle.shown.specs.Drafts.{with_members};
ghost use Rattle.frame_shown.specs.Items.{objects};
ghost use Rattle.frame_diff.specs.Differences.{is_shown_same, text_of};
ghost use Rattle.frame_diff.specs.Forests.{is_text};
ghost use Rattle.frame_diff.specs.Items.{alone_texts, each_items, leaf_items, texts_by};
ghost use Rattle.frame_diff.specs.Each.{each_shown, one_shown, whole_shown};
ghost use Rattle.frame_diff.specs.Texts.{left_over, times, times_in};

use crate::leaf::compare::is_same;
use crate::leaf::show::push_text;
use crate::leaf::{Texts, Value, put_turned, tell_leaf};
use crate::path::join_each;
use crate::side::Side;
use frame_shown::depth::Depth;
use frame_shown::form::Around;
use shown::Page;
use std::alloc::{AllocError, Global};
use std::collections::BTreeMap;

/// A list of values that are their own keys.
#[derive(Drop)]
pub struct Each<'a> {
    /// What it is shown by, beside its rows.
    pub around: &'a Around<'a>,
    /// All of it as one value.
    pub whole: Value<'a>,
    /// Its values.
    pub values: Vec<Value<'a>>,
}

/// How many values have each text.
type Counts = BTreeMap<Vec<u8>, usize>;

/// The text of a value.
fn text_of<D: Depth>(
    texts: &mut Texts,
    list: &Each<'_>,
    value: Value<'_>,
) -> Result<Vec<u8>, AllocError>
    ensures { IfOk result (λ text. text.items ≡ text_of (one_shown D.nest list.now value.entry)) }
{
    let mut text = Vec::new(texts.alloc);
    push_text::<D>(list.around, &mut texts.room, value, &mut text)?;
    Ok(text)
}

/// How many were counted with a text.
fn count_of(counts: &Counts, text: &[u8]) -> usize
    ensures { result ≡ times_in counts.now text.now }
{
    match counts.get(text) {
        Some(count) => *count,
        None => 0,
    }
}

/// Counts one more with a text.
fn add_one(counts: &mut Counts, text: Vec<u8>) -> Result<(), AllocError>
    requires { times_in counts.now text.items + 1 < 2 ^ 64 }
    ensures { OnOk result ((other : Seq ℕ) → times_in counts.new other
        ≡ cond (is_text other text.items) 1 0 + times_in counts.old other) }
{
    let before = count_of(counts, text.as_slice());
    counts.insert(text, before + 1)?;
    Ok(())
}

/// How many values of a list have each text.
fn count_all<D: Depth>(texts: &mut Texts, list: &Each<'_>) -> Result<Counts, AllocError>
    ensures { IfOk result (λ counts. (v : Seq Token)
        → times_in counts (text_of v) ≡ times v (each_shown D.nest list.now)) }
{
    let mut counts = Counts::new(texts.alloc);
    for value in list.values.as_slice() {
        let text = text_of::<D>(texts, list, *value)?;
        add_one(&mut counts, text)?;
    }
    Ok(counts)
}

/// Takes one with a text away, if there is one.
fn take_one(counts: &mut Counts, text: Vec<u8>) -> Result<bool, AllocError>
    ensures there { IfOk result (λ taken. taken ≡ nat_lt 0 (times_in counts.old text.items)) }
    ensures left { OnOk result ((other : Seq ℕ) → times_in counts.new other
        ≡ times_in counts.old other - cond (is_text other text.items) 1 0) }
{
    let count = count_of(counts, text.as_slice());
    if count == 0 {
        return Ok(false);
    }
    counts.insert(text, count - 1)?;
    Ok(true)
}

/// Tells of a value, unless one with its text can be taken away.
fn tell_one<D: Depth>(
    texts: &mut Texts,
    page: &mut Page,
    path: &str,
    side: Side,
    own: &Each<'_>,
    value: Value<'_>,
    counts: &mut Counts,
) -> Result<(), AllocError>
    ensures told { OnOk result (page.new ≡ with_members (objects
        (cond (nat_lt 0 (times_in counts.old (text_of (one_shown D.nest own.now value.entry)))) []
        (leaf_items side path.now (one_shown D.nest own.now value.entry) None))) page.old) }
    ensures left { OnOk result ((other : Seq ℕ) → times_in counts.new other
        ≡ times_in counts.old other
        - cond (is_text other (text_of (one_shown D.nest own.now value.entry))) 1 0) }
{
    let text = text_of::<D>(texts, own, value)?;
    let taken = take_one(counts, text)?;
    if taken {
        return Ok(());
    }
    tell_leaf::<D>(texts, own.around, own.around, page, path, side, value, None)
}

/// Tells of each value of which the other list has fewer.
fn tell_over<D: Depth>(
    texts: &mut Texts,
    page: &mut Page,
    path: &str,
    side: Side,
    own: &Each<'_>,
    other: &Each<'_>,
) -> Result<(), AllocError>
    ensures { OnOk result (page.new ≡ with_members (objects (each_items side path.now
        (left_over (each_shown D.nest other.now) (each_shown D.nest own.now)))) page.old) }
{
    let mut counts = count_all::<D>(texts, other)?;
    let text = join_each(texts.alloc, path)?;
    for value in own.values.as_slice() {
        tell_one::<D>(texts, page, text.as_str(), side, own, *value, &mut counts)?;
    }
    Ok(())
}

/// Tells of each value of a list.
fn tell_all<D: Depth>(
    texts: &mut Texts,
    page: &mut Page,
    path: &str,
    side: Side,
    own: &Each<'_>,
) -> Result<(), AllocError>
    ensures { OnOk result (page.new ≡ with_members (objects
        (each_items side path.now (each_shown D.nest own.now))) page.old) }
{
    let text = join_each(texts.alloc, path)?;
    for value in own.values.as_slice() {
        tell_leaf::<D>(
            texts,
            own.around,
            own.around,
            page,
            text.as_str(),
            side,
            *value,
            None,
        )?;
    }
    Ok(())
}

/// Tells of a list beside another one: of its values, or of both lists, where these are to be told that are in another
/// order.
pub(crate) fn tell_both<D: Depth>(
    texts: &mut Texts,
    page: &mut Page,
    path: &str,
    side: Side,
    own: &Each<'_>,
    other: &Each<'_>,
) -> Result<(), AllocError>
    ensures { OnOk result (page.new ≡ with_members (objects
        (cond (is_shown_same (whole_shown D.nest own.now) (whole_shown D.nest other.now)) []
        (texts_by side path.now (whole_shown D.nest own.now) (each_shown D.nest own.now)
        (whole_shown D.nest other.now) (each_shown D.nest other.now)))) page.old) }
{
    let cx = own.around;
    let theirs = other.around;
    let was = text_of::<D>(texts, own, own.whole)?;
    let is = text_of::<D>(texts, other, other.whole)?;
    if is_same(was.as_slice(), is.as_slice()) {
        return Ok(());
    }
    if side.is_moved() {
        return put_turned::<D>(cx, theirs, page, path, own.whole, other.whole);
    }
    tell_over::<D>(texts, page, path, side, own, other)
}

/// Tells of a list that stands alone: of its values, or, where it has none, of the list.
pub(crate) fn tell_alone<D: Depth>(
    texts: &mut Texts,
    page: &mut Page,
    path: &str,
    side: Side,
    own: &Each<'_>,
) -> Result<(), AllocError>
    ensures { OnOk result (page.new ≡ with_members (objects (alone_texts side path.now
        (whole_shown D.nest own.now) (each_shown D.nest own.now) None)) page.old) }
{
    if own.values.is_empty() {
        return tell_leaf::<D>(
            texts, own.around, own.around, page, path, side, own.whole, None,
        );
    }
    tell_all::<D>(texts, page, path, side, own)
}
