//! What payloads of attributes that are values, and their own keys, tell beside another attribute.

ghost use Rattle.std.specs.Prelude.{◌≡◌, Bool, IfOk, OnOk, Some, false, map, option_map};
ghost use Rattle.shown.specs.Drafts.{with_members};
ghost use Rattle.frame_shown.specs.Items.{objects};
ghost use Rattle.frame_shown.specs.Values.{Nesting};
ghost use Rattle.frame_shown.specs.declared.form.Around.{Around as Beside};
ghost use Rattle.frame_diff.specs.Forests.{Forest};
ghost use Rattle.frame_diff.specs.Items.{texts_items};
ghost use Rattle.frame_diff.specs.Each.{each_shown, whole_shown};
ghost use Rattle.frame_diff.specs.Members.{slots_shown};
ghost use Rattle.frame_diff.specs.Rows.{inside_by, is_slots};
ghost use Rattle.frame_diff.specs.Values.{value_shown};
ghost use Rattle.frame_diff.specs.Walked.{Holding, Showing, held_at, held_items};

use crate::each::{Each, tell_alone, tell_both};
use crate::held::{Holds, held_in};
use crate::leaf::{Texts, Value, tell_leaf};
use crate::value::holds_none;
use crate::walk::{Attribute, Pass, Walk};
use link_info::Plain;
use nla_wire::NlasIterator;
use shown::Page;
use std::alloc::{AllocError, Global};

/// The payloads of attributes as values.
fn payloads_in<'a>(
    alloc: Global,
    plain: Plain,
    bytes: &'a [u8],
) -> Result<Vec<Value<'a>>, AllocError>
    ensures { IfOk result (λ values. (nest : Nesting) (cx : Beside)
        → map (value_shown nest cx) values.items ≡ slots_shown plain bytes.now) }
{
    let mut values = Vec::new(alloc);
    for item in NlasIterator::new(bytes) {
        let Ok(frame) = item else {
            break;
        };
        values.push(Value::Spelled(plain, frame.value()))?;
    }
    Ok(values)
}

/// The payloads of attributes as values, which are their own keys.
fn slots_of<'a>(
    alloc: Global,
    own: Attribute<'a>,
    plain: Plain,
    bytes: &'a [u8],
) -> Result<Each<'a>, AllocError>
    ensures whole { IfOk result (λ each. (nest : Showing) (inner : Holding) (is_state : Bool)
        → whole_shown nest each ≡ (held_at nest inner is_state own.entry).0) }
    ensures values { IfOk result (λ each. (nest : Showing)
        → each_shown nest each ≡ slots_shown plain bytes.now) }
{
    let values = payloads_in(alloc, plain, bytes)?;
    Ok(Each {
        around: own.around,
        whole: Value::Payload(own.way, own.payload),
        values,
    })
}

/// Tells of values that are their own keys beside an attribute that is no list of such.
fn tell_beside<W: Walk>(
    texts: &mut Texts,
    pass: Pass,
    page: &mut Page,
    path: &str,
    own: &Each<'_>,
    other: Attribute<'_>,
    held: &Holds<'_>,
) -> Result<(), AllocError>
    requires held { (held_at W.nest W.inner pass.is_state other).1
        ≡ inside_by (W.inner pass.is_state other.around.now) other.around.now held.now }
    requires plain { is_slots held.now ≡ false }
    ensures { OnOk result (page.new ≡ with_members (objects (texts_items pass.side path.now
        (whole_shown W.nest own.now) (each_shown W.nest own.now)
        (Some (held_at W.nest W.inner pass.is_state other.entry)))) page.old) }
{
    W::laws();
    if !holds_none::<W>(other, held) {
        return tell_alone::<W>(texts, page, path, pass.side, own);
    }
    let there = Some(Value::Payload(other.way, other.payload));
    let (cx, theirs) = (own.around, other.around);
    tell_leaf::<W>(texts, cx, theirs, page, path, pass.side, own.whole, there)
}

/// Tells of values that are their own keys beside another attribute, if there is one.
pub(crate) fn tell_slots<W: Walk>(
    texts: &mut Texts,
    pass: Pass,
    page: &mut Page,
    path: &str,
    own: Attribute<'_>,
    plain: Plain,
    bytes: &[u8],
    beside: Option<Attribute<'_>>,
) -> Result<(), AllocError>
    requires { (held_at W.nest W.inner pass.is_state own).1 ≡ Forest.texts (slots_shown plain bytes.now) }
    ensures { OnOk result (page.new ≡ with_members (objects (held_items pass.side path.now
        (held_at W.nest W.inner pass.is_state own.entry)
        (option_map (held_at W.nest W.inner pass.is_state) beside.entry))) page.old) }
{
    let each = slots_of(texts.alloc, own, plain, bytes)?;
    let Some(other) = beside else {
        return tell_alone::<W>(texts, page, path, pass.side, &each);
    };
    let held = held_in(texts.alloc, pass.is_state, other)?;
    match &held {
        Holds::Slots(slots) => {
            let slots = **slots;
            let theirs = slots_of(texts.alloc, other, slots.plain, slots.bytes)?;
            tell_both::<W>(texts, page, path, pass.side, &each, &theirs)
        }
        _ => tell_beside::<W>(texts, pass, page, path, &each, other, &held),
    }
}
