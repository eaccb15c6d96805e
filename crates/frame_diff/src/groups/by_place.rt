//! What a list of values tells beside another one, place by place.

ghost use Rattle.std.specs.Prelude.{◌≡◌, IfSome, None, OnOk, Some, option_map, true};
ghost use Rattle.shown.specs.Drafts.{with_members};
ghost use Rattle.frame_shown.specs.Items.{objects};
ghost use Rattle.frame_diff.specs.Forests.{Step};
ghost use Rattle.frame_diff.specs.Groups.{group_at, is_entries, labelled_inside, place_items, value_at};
ghost use Rattle.frame_diff.specs.Items.{items_told};
ghost use Rattle.frame_diff.specs.Keyed.{FindsAt, StandsFor};
ghost use Rattle.frame_diff.specs.Keys.{key_at};
ghost use Rattle.frame_diff.specs.Members.{places};
ghost use Rattle.frame_diff.specs.Walked.{AreBeside, HasNames, StandBeside};

use crate::keys::key_in;
use crate::leaf::Texts;
use crate::lists::none_of;
use crate::one_value::Values;
use crate::path::join_place;
use crate::picked::{next_place, pick, take_beside};
use crate::walk::{Attribute, Attributes, Pass, Walk};
use nla_wire::NlasIterator;
use shown::Page;
use std::alloc::AllocError;

/// Tells of a value at its place, if there is one.
fn tell_place<W: Walk, V: Values>(
    texts: &mut Texts,
    pass: Pass,
    page: &mut Page,
    path: &str,
    place: usize,
    own: Option<Attribute<'_>>,
    beside: Option<Attribute<'_>>,
) -> Result<(), AllocError>
    requires fits { IfSome own (λ a. V.fits a.list) }
    requires names { IfSome own (λ a. HasNames a.around.now) }
    requires entries { IfSome own (λ a. IfSome beside (λ b.
        is_entries b.list ≡ is_entries a.list)) }
    requires alike { pass.is_alike ≡ true → IfSome own (λ a. StandBeside a beside) }
    ensures { OnOk result (page.new ≡ with_members (objects (place_items pass.side path.now place
        (option_map (value_at W.nest W.inner pass.is_state) own.entry)
        (option_map (value_at W.nest W.inner pass.is_state) beside.entry))) page.old) }
{
    let Some(own) = own else {
        return Ok(());
    };
    let text = join_place(texts.alloc, path, place)?;
    V::tell_one::<W>(texts, pass, page, text.as_str(), own, beside)
}

/// Tells of the values of a list, each beside the one at its place in another list.
fn tell_places<W: Walk, V: Values>(
    texts: &mut Texts,
    pass: Pass,
    page: &mut Page,
    path: &str,
    own: Attributes<'_>,
    others: Attributes<'_>,
) -> Result<(), AllocError>
    requires fits { V.fits own.list }
    requires names { HasNames own.around.now }
    requires entries { is_entries others.list ≡ is_entries own.list }
    requires alike { pass.is_alike ≡ true → AreBeside own (Some others) }
    ensures { OnOk result (page.new ≡ with_members (objects (items_told pass.side path.now
        (places (group_at W.nest W.inner pass.is_state own.entry))
        (places (group_at W.nest W.inner pass.is_state others.entry)))) page.old) }
{
    let mut place = 0;
    let mut rest = others;
    for item in NlasIterator::new(own.bytes) {
        let Ok(frame) = item else {
            break;
        };
        let value = pick(pass.is_state, own, &frame);
        let taken = take_beside(pass.is_state, value, rest);
        tell_place::<W, V>(texts, pass, page, path, place, value, taken.value)?;
        rest = taken.rest;
        place = next_place(value, place);
    }
    Ok(())
}

/// Another list whose values have places; a list without values where they have labels.
fn placed_beside<'a>(own: Attributes<'a>, others: Attributes<'a>) -> Attributes<'a>
    requires own { key_at own.number own.list ≡ None }
    ensures key { key_at result.number result.list ≡ None }
    ensures found { FindsAt Step.place others.entry result }
    ensures stands { StandsFor own.entry others.entry result }
{
    match key_in(others) {
        Some(_) => none_of(own),
        None => others,
    }
}

/// Tells of the values of a list whose values have places.
pub(crate) fn tell_by_place<W: Walk, V: Values>(
    texts: &mut Texts,
    pass: Pass,
    page: &mut Page,
    path: &str,
    own: Attributes<'_>,
    others: Attributes<'_>,
) -> Result<(), AllocError>
    requires fits { V.fits own.list }
    requires own { key_at own.number own.list ≡ None }
    requires names { HasNames own.around.now }
    requires entries { is_entries others.list ≡ is_entries own.list }
    requires alike { pass.is_alike ≡ true → AreBeside own (Some others) }
    ensures { OnOk result (page.new ≡ with_members (objects (items_told pass.side path.now
        (labelled_inside W.nest W.inner pass.is_state own.entry)
        (labelled_inside W.nest W.inner pass.is_state others.entry))) page.old) }
{
    let others = placed_beside(own, others);
    tell_places::<W, V>(texts, pass, page, path, own, others)
}
