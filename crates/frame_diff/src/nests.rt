//! Which values are objects or lists.

ghost use Rattle.std.specs.Prelude.{◌≡◌, ℕ, Bool, List as Seq};
ghost use Rattle.link_info.specs.Meanings.{meaning};
ghost use Rattle.frame_shown.specs.Frames.{way_shown};
ghost use Rattle.frame_shown.specs.Values.{form_shown, style_shown};
ghost use Rattle.frame_shown.specs.declared.form.Around.{Around as Beside};
ghost use Rattle.frame_diff.specs.Groups.{value_at};
ghost use Rattle.frame_diff.specs.Members.{is_nest};
ghost use Rattle.frame_diff.specs.Nests.{are_flags, is_fixed_form, is_fixed_style, is_fixed_way, nest_form};
ghost use Rattle.frame_diff.specs.Nests.{nest_meaning};

use crate::walk::{Attribute, Walk};
use frame_shown::form::{Form, List, Way};
use link_info::read::read;
use link_info::{Plain, Style, Value};

/// Whether numbers that are spelled so are flags.
fn are_flags(plain: Plain) -> bool
    ensures { are_flags plain ≡ result }
{
    match plain {
        Plain::Flags(_, _) | Plain::BigEndianFlags(_, _) => true,
        _ => false,
    }
}

/// Whether a value is an object or a list, where lists of attributes are objects or not.
fn nest_value(is_deep: bool, style: Style, value: Value<'_>) -> bool
    ensures { nest_meaning is_deep style (meaning value.entry) ≡ result }
{
    match value {
        Value::Record(_, _) | Value::Array(_, _) | Value::List(_, _) => true,
        Value::Nest(_, _) => is_deep,
        Value::Unsigned(_) => are_flags(style.plain()),
        _ => false,
    }
}

/// Whether a payload is an object or a list by its style.
fn is_style_nest<W: Walk>(style: Style, payload: &[u8]) -> bool
    ensures { (cx : Beside) → is_nest (style_shown (W.nest cx) style payload.now) ≡ result }
{
    nest_value(W::has_objects(), style, read(style, payload))
}

/// Whether a payload of this form is an object or a list, where lists of attributes are objects or not.
fn nest_form(is_deep: bool, form: Form) -> bool
    ensures { nest_form is_deep form ≡ result }
{
    match form {
        Form::Counters(_) | Form::Ipv6Counters | Form::Settings(_) => true,
        Form::Record(_) | Form::Wireless | Form::Flags(_) => true,
        Form::List(_) | Form::Info => is_deep,
        _ => false,
    }
}

/// Whether a payload is an object or a list by the form of its row.
fn is_form_nest<W: Walk>(form: Form) -> bool
    ensures { (cx : Beside) (p : Seq ℕ) → is_nest (form_shown (W.nest cx) cx form p) ≡ result }
{
    nest_form(W::has_objects(), form)
}

/// Whether a payload is an object or a list.
fn is_way_nest<W: Walk>(way: Way, payload: &[u8]) -> bool
    ensures { (cx : Beside) → is_nest (way_shown (W.nest cx) cx way payload.now) ≡ result }
{
    match way {
        Way::Own(form) => is_form_nest::<W>(form),
        Way::By(style) => is_style_nest::<W>(style, payload),
    }
}

/// Whether a value of a list is an object or a list.
pub(crate) fn is_nest<W: Walk>(own: Attribute<'_>) -> bool
    ensures { (is_state : Bool)
        → is_nest (value_at W.nest W.inner is_state own.entry).0 ≡ result }
{
    match own.list {
        List::Entries(_) => true,
        _ => is_way_nest::<W>(own.way, own.payload),
    }
}

/// Whether payloads of this form hold values of the same names, or none, whatever their bytes are.
fn is_fixed_form(form: Form) -> bool
    ensures { is_fixed_form form ≡ result }
{
    match form {
        Form::Ipv6Counters | Form::Settings(_) | Form::Wireless => false,
        Form::List(_) | Form::Info => false,
        _ => true,
    }
}

/// Whether payloads of this style hold no other values, whatever their bytes are.
fn is_fixed_style(style: Style) -> bool
    ensures { is_fixed_style style ≡ result }
{
    match style {
        Style::Record(_) | Style::List(_) | Style::Nest(_) | Style::Each(_) => false,
        _ => true,
    }
}

/// Whether attributes of such a row hold values of the same names, or none, whatever their payloads are.
pub(crate) fn is_fixed(way: Way) -> bool
    ensures { is_fixed_way way ≡ result }
{
    match way {
        Way::Own(form) => is_fixed_form(form),
        Way::By(style) => is_fixed_style(style),
    }
}
