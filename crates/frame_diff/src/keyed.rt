//! What lists tell whose values are told apart by a number that each says.

ghost use Rattle.std.specs.Prelude.{◌≡◌, ◌++◌, [], ◌∷◌, Bool, IfOk, IfSome, List as Seq, None, OnOk};
ghost use Rattle.std.specs.Prelude.{Some, option_map, slice_get, true};
ghost use Rattle.shown.specs.Drafts.{with_members};
ghost use Rattle.frame_shown.specs.Items.{objects};
ghost use Rattle.frame_diff.specs.Groups.{labelled_inside, is_entries, picked, value_at};
ghost use Rattle.frame_diff.specs.Items.{items_told};
ghost use Rattle.frame_diff.specs.Keyed.{AreIn, AreLabelled, FindsAt, IsIn, StandsFor, helds_now, labels_now};
ghost use Rattle.frame_diff.specs.Keyed.{numbers_now, picked_numbers, value_of, values_now};
ghost use Rattle.frame_diff.specs.Keys.{key_at};
ghost use Rattle.frame_diff.specs.Labels.{GoAlong, IsIndex, are_ascending, first_labels, label_step, labels_of};
ghost use Rattle.frame_diff.specs.Labels.{place_of};
ghost use Rattle.frame_diff.specs.Walked.{AreBeside, HasNames, Holding, Showing, StandBeside, step_items};
ghost use Rattle.frame_diff.specs.declared.labels.Label.{Label as Mark};
ghost use Rattle.frame_diff.specs.declared.walk.Attributes.{Attributes as Lists};

use crate::keys::{Key, is_key, key_in, number_of};
use crate::labels::{Counts, Label, Places, count, is_above};
use crate::leaf::Texts;
use crate::lists::none_of;
use crate::one_value::Values;
use crate::path::join_label;
use crate::picked::pick;
use crate::walk::{Attribute, Attributes, Pass, Walk};
use nla_wire::NlasIterator;
use shown::Page;
use std::alloc::{AllocError, Global};

/// A value of a list, with its label.
#[derive(Clone, Copy, Drop)]
pub struct Labelled<V> {
    /// The label.
    pub label: Label,
    /// The value.
    pub value: V,
}

/// Adds a value, as if none before it had its number.
pub(crate) fn push_labelled<V: Drop>(
    values: &mut Vec<Labelled<V>>,
    number: Option<u64>,
    value: V,
) -> Result<(), AllocError>
    ensures labels { OnOk result (labels_now values.new.items
        ≡ labels_now values.old.items ++ first_labels (number ∷ [])) }
    ensures values { OnOk result (values_now values.new.items
        ≡ values_now values.old.items ++ value ∷ []) }
{
    let label = Label { number, again: 0 };
    values.push(Labelled { label, value })?;
    Ok(())
}

/// Whether the numbers of all values ascend.
fn are_ascending<V>(values: &[Labelled<V>]) -> bool
    ensures { are_ascending None (numbers_now values.now) ≡ result }
{
    let mut before = None;
    for one in values {
        let number = one.label.number;
        if !is_above(before, number) {
            return false;
        }
        before = number;
    }
    true
}

/// Counts of each value those before it with its number.
fn count_each<V>(alloc: Global, values: &mut Vec<Labelled<V>>) -> Result<(), AllocError>
    ensures labels { OnOk result (labels_now values.new.items
        ≡ labels_of (numbers_now values.old.items)) }
    ensures values { OnOk result (values_now values.new.items ≡ values_now values.old.items) }
{
    let mut counts = Counts::new(alloc);
    let mut place = 0;
    while place < values.len() {
        let number = values[place].label.number;
        let again = count(&mut counts, number)?;
        values[place].label = Label { number, again };
        place += 1;
    }
    Ok(())
}

/// Labels values that have labels as if no two had one number. Where their numbers ascend, none is counted.
pub(crate) fn label_all<V>(alloc: Global, values: &mut Vec<Labelled<V>>) -> Result<(), AllocError>
    requires { labels_now values.now.items ≡ first_labels (numbers_now values.now.items) }
    ensures labels { OnOk result (labels_now values.new.items
        ≡ labels_of (numbers_now values.old.items)) }
    ensures values { OnOk result (values_now values.new.items ≡ values_now values.old.items) }
{
    if are_ascending(values.as_slice()) {
        return Ok(());
    }
    count_each(alloc, values)
}

/// Another list with this key; a list without values where it has none, or another one.
pub(crate) fn keyed_beside<'a>(
    key: Key,
    own: Attributes<'a>,
    others: Attributes<'a>,
) -> Attributes<'a>
    requires own { key_at own.number own.list ≡ Some key }
    ensures key { key_at result.number result.list ≡ Some key }
    ensures found { FindsAt (label_step key) others.entry result }
    ensures stands { StandsFor own.entry others.entry result }
{
    if is_key(key, key_in(others)) {
        others
    } else {
        none_of(own)
    }
}

/// Adds a value, if there is one, as if none before it had its number.
fn push_first<'a>(
    values: &mut Vec<Labelled<Attribute<'a>>>,
    key: Key,
    value: Option<Attribute<'a>>,
) -> Result<(), AllocError>
    ensures labels { OnOk result (labels_now values.new.items
        ≡ labels_now values.old.items ++ first_labels (picked_numbers key value.entry)) }
    ensures values { OnOk result ((nest : Showing) (inner : Holding) (is_state : Bool)
        → helds_now nest inner is_state values.new.items
        ≡ helds_now nest inner is_state values.old.items ++ picked nest inner is_state value.entry) }
    ensures list { OnOk result ((list : Lists) → AreIn list values.old.items
        → IfSome value.entry (IsIn list) → AreIn list values.new.items) }
{
    let Some(value) = value else {
        return Ok(());
    };
    push_labelled(values, number_of(key, value), value)
}

/// The values of a list, each with its label, as if no two had one number.
fn first_values<'a>(
    alloc: Global,
    is_state: bool,
    key: Key,
    list: Attributes<'a>,
) -> Result<Vec<Labelled<Attribute<'a>>>, AllocError>
    requires { key_at list.number list.list ≡ Some key }
    ensures { IfOk result (λ values. AreLabelled is_state list.entry first_labels values.items) }
{
    let mut values = Vec::new(alloc);
    for item in NlasIterator::new(list.bytes) {
        let Ok(frame) = item else {
            break;
        };
        push_first(&mut values, key, pick(is_state, list, &frame))?;
    }
    Ok(values)
}

/// The values of a list, each with its label.
fn values_in<'a>(
    alloc: Global,
    is_state: bool,
    key: Key,
    list: Attributes<'a>,
) -> Result<Vec<Labelled<Attribute<'a>>>, AllocError>
    requires { key_at list.number list.list ≡ Some key }
    ensures { IfOk result (λ values. AreLabelled is_state list.entry labels_of values.items) }
{
    let mut values = first_values(alloc, is_state, key, list)?;
    label_all(alloc, &mut values)?;
    Ok(values)
}

/// Whether one of two lists begins with the labels of the other.
fn go_along<V>(own: &[Labelled<V>], others: &[Labelled<V>]) -> bool
    ensures { result ≡ true → GoAlong (labels_now own.now) (labels_now others.now) }
{
    let mut place = 0;
    for one in own {
        let Some(other) = others.get(place) else {
            return true;
        };
        if one.label != other.label {
            return false;
        }
        place += 1;
    }
    true
}

/// Where each of these labels stands: the first of those that are the same.
fn places_of<V>(alloc: Global, values: &[Labelled<V>]) -> Result<Places, AllocError>
    ensures { IfOk result (λ places. (own : Seq Mark) → IsIndex (Some places) own (labels_now values.now)) }
{
    let mut places = Places::new(alloc);
    let mut place = values.len();
    while place > 0 {
        place -= 1;
        places.insert(values[place].label, place)?;
    }
    Ok(places)
}

/// Where each of the other labels stands, unless one of both lists begins with the labels of the other.
pub(crate) fn places_unless_along<V>(
    alloc: Global,
    own: &[Labelled<V>],
    others: &[Labelled<V>],
) -> Result<Option<Places>, AllocError>
    ensures { IfOk result (λ places. IsIndex places (labels_now own.now) (labels_now others.now)) }
{
    if go_along(own, others) {
        return Ok(None);
    }
    let places = places_of(alloc, others)?;
    Ok(Some(places))
}

/// The value at a place, if there is one.
fn value_there<V: Copy>(place: usize, values: &[Labelled<V>]) -> Option<V>
    ensures { result ≡ option_map (λ v. v.value) (slice_get values.now place) }
{
    let value = values.get(place)?;
    Some(value.value)
}

/// The value with a label, if there is one.
fn value_in<V: Copy>(places: &Places, label: Label, values: &[Labelled<V>]) -> Option<V>
    ensures { (own : Seq Mark) → IsIndex (Some places.now) own (labels_now values.now)
        → result ≡ value_of label values.now }
{
    let place = *places.get(&label)?;
    value_there(place, values)
}

/// The other value with the label of one at a place, if there is one.
pub(crate) fn value_beside<V: Copy>(
    places: &Option<Places>,
    label: Label,
    place: usize,
    others: &[Labelled<V>],
) -> Option<V>
    ensures { (own : Seq Mark) → place_of label own ≡ Some place
        → IsIndex places.now own (labels_now others.now) → result ≡ value_of label others.now }
{
    match places {
        Some(places) => value_in(places, label, others),
        None => value_there(place, others),
    }
}

/// Tells of a value beside the one with its label, or of all of it as a whole, if there is none.
fn tell_labelled<W: Walk, V: Values>(
    texts: &mut Texts,
    pass: Pass,
    page: &mut Page,
    path: &str,
    key: Key,
    own: Labelled<Attribute<'_>>,
    beside: Option<Attribute<'_>>,
) -> Result<(), AllocError>
    requires fits { V.fits own.value.list }
    requires names { HasNames own.value.around.now }
    requires entries { IfSome beside (λ a. is_entries a.list ≡ is_entries own.value.list) }
    requires alike { pass.is_alike ≡ true → StandBeside own.value beside }
    ensures { OnOk result (page.new
        ≡ with_members (objects (step_items pass.side path.now (label_step key own.entry.label)
        (value_at W.nest W.inner pass.is_state own.entry.value)
        (option_map (value_at W.nest W.inner pass.is_state) beside.entry))) page.old) }
{
    let text = join_label(texts.alloc, path, key.name(), own.label)?;
    if beside.is_some() {
        return V::tell_one::<W>(texts, pass, page, text.as_str(), own.value, beside);
    }
    if pass.side.is_moved() {
        return Ok(());
    }
    V::tell_whole::<W>(texts, pass, page, text.as_str(), own.value)
}

/// Tells of the values of a list, each beside the one with its label in another list with the same key.
pub(crate) fn tell_keyed<W: Walk, V: Values>(
    texts: &mut Texts,
    pass: Pass,
    page: &mut Page,
    path: &str,
    key: Key,
    own: Attributes<'_>,
    others: Attributes<'_>,
) -> Result<(), AllocError>
    requires own { key_at own.number own.list ≡ Some key }
    requires others { key_at others.number others.list ≡ Some key }
    requires fits { V.fits own.list }
    requires names { HasNames own.around.now }
    requires entries { is_entries others.list ≡ is_entries own.list }
    requires alike { pass.is_alike ≡ true → AreBeside own (Some others) }
    ensures { OnOk result (page.new ≡ with_members (objects (items_told pass.side path.now
        (labelled_inside W.nest W.inner pass.is_state own.entry)
        (labelled_inside W.nest W.inner pass.is_state others.entry))) page.old) }
{
    let values = values_in(texts.alloc, pass.is_state, key, own)?;
    let theirs = values_in(texts.alloc, pass.is_state, key, others)?;
    let places = places_unless_along(texts.alloc, values.as_slice(), theirs.as_slice())?;
    let mut place = 0;
    for one in values.as_slice() {
        let beside = value_beside(&places, one.label, place, theirs.as_slice());
        tell_labelled::<W, V>(texts, pass, page, path, key, *one, beside)?;
        place += 1;
    }
    Ok(())
}
