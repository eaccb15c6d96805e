//! What stands apart from those that have a name: attributes that are kept as they are, and values of lists.

ghost use Rattle.std.specs.Prelude.{◌≡◌};
ghost use Rattle.frame_shown.specs.Tables.{is_each, is_kept, is_kept_form, is_listed, kind_shown, manner_way};

use crate::form::{Form, Manner, Way};
use link_info::Style;
use nla_wire::NLA_TYPE_MASK;

/// Whether an attribute of this form with this payload is kept as it is.
#[inline(always)]
pub(crate) fn is_kept_form(form: &Form, payload: &[u8]) -> bool
    ensures { result ≡ is_kept_form form.now payload.now }
{
    match *form {
        Form::Kept => true,
        Form::Unflagged => true,
        Form::Exact(size) => payload.len() != size.bytes(),
        _ => false,
    }
}

/// Whether an attribute with this payload is kept as it is.
#[inline(always)]
pub fn is_kept(way: Way, payload: &[u8]) -> bool
    ensures { result ≡ is_kept way payload.now }
{
    match way {
        Way::Own(form) => is_kept_form(&form, payload),
        _ => false,
    }
}

/// Whether an attribute with this payload is kept as it is, by the row where it stands.
#[inline(always)]
pub(crate) fn is_kept_by(manner: Manner, payload: &[u8]) -> bool
    ensures { result ≡ is_kept (manner_way manner) payload.now }
{
    match manner {
        Manner::Own(form) => is_kept_form(form, payload),
        _ => false,
    }
}

/// Whether an attribute of this style is a value of a list.
#[inline(always)]
pub fn is_listed(style: &Style) -> bool
    ensures { result ≡ is_listed style.now }
{
    match *style {
        Style::Each(_) => true,
        _ => false,
    }
}

/// Whether an attribute is a value of a list, by the row where it stands.
#[inline(always)]
pub(crate) fn is_each_by(manner: Manner) -> bool
    ensures { result ≡ is_each (manner_way manner) }
{
    match manner {
        Manner::By(style) => is_listed(style),
        _ => false,
    }
}

/// The kind that is shown of one that is kept.
#[inline(always)]
pub(crate) fn kind_shown(manner: Manner, kind: u16) -> u16
    ensures { result ≡ kind_shown (manner_way manner) kind }
{
    match manner {
        Manner::Own(Form::Unflagged) => kind & NLA_TYPE_MASK,
        _ => kind,
    }
}
