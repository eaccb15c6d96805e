//! The attribute that stands beside one: the last one of its name.

ghost use Rattle.std.specs.Prelude.{◌≡◌, Bool, MatchOption, false, option_map, true};
ghost use Rattle.nla_wire.specs.Items.{items};
ghost use Rattle.link_info.specs.Tables.{frames_in};
ghost use Rattle.frame_shown.specs.Tables.{is_each, row_in};
ghost use Rattle.frame_shown.specs.Values.{Nesting};
ghost use Rattle.frame_diff.specs.Beside.{held_of, is_named, last_named};
ghost use Rattle.frame_diff.specs.Forests.{Step, find, forest};
ghost use Rattle.frame_diff.specs.Members.{Inner, Reading, is_unnamed, named_in};

use frame_shown::form::{Around, List, Way, is_kept, is_listed, row_in};
use nla_wire::{NlaBuffer, NlasIterator};

/// Whether an attribute is a value of a list.
pub(crate) fn is_each(way: Way) -> bool
    ensures { result ≡ is_each way }
{
    match way {
        Way::By(style) => is_listed(&style),
        Way::Own(_) => false,
    }
}

/// Whether an attribute has no name of its own: it is kept as it is, or a value of a list.
pub(crate) fn is_unnamed(way: Way, payload: &[u8]) -> bool
    ensures { result ≡ is_unnamed way payload.now }
{
    is_kept(way, payload) || is_each(way)
}

/// The name of an attribute, if it has one of its own.
#[inline(always)]
pub(crate) fn name_of(
    cx: &Around<'_>,
    list: List,
    number: u16,
    payload: &[u8],
) -> Option<&'static str>
    ensures { MatchOption result (is_unnamed (row_in cx.now list number).1 payload.now ≡ true)
        (λ name. (is_unnamed (row_in cx.now list number).1 payload.now ≡ false)
        × (name.now ≡ (row_in cx.now list number).0)) }
{
    let (name, way) = row_in(cx, list, number);
    if is_unnamed(way, payload) {
        return None;
    }
    Some(name)
}

/// Whether an attribute is told under this name.
pub(crate) fn is_named(cx: &Around<'_>, list: List, name: &str, frame: &NlaBuffer<'_>) -> bool
    ensures { result ≡ is_named cx.now list name.now frame.now }
{
    match name_of(cx, list, frame.kind(), frame.value()) {
        Some(own) => own == name,
        None => false,
    }
}

/// The last attribute that is told under this name.
pub(crate) fn find_last<'a>(
    cx: &Around<'_>,
    list: List,
    name: &str,
    bytes: &'a [u8],
) -> Option<NlaBuffer<'a>>
    ensures { result
        ≡ last_named cx.now list name.now None (frames_in (items bytes.now)) }
{
    let mut last = None;
    for item in NlasIterator::new(bytes) {
        let Ok(frame) = item else {
            break;
        };
        if is_named(cx, list, name, &frame) {
            last = Some(frame);
        }
    }
    last
}

/// The attribute that is the member with this name, whatever the lists in it are shown as.
pub(crate) fn find_named<'a>(
    cx: &Around<'_>,
    list: List,
    name: &str,
    bytes: &'a [u8],
) -> Option<NlaBuffer<'a>>
    ensures { (is_state : Bool) (nest : Nesting) (inner : Inner) →
        let r : Reading = record { is_state = is_state; nest = nest; inner = inner; around = cx.now } in
        find (Step.name name.now) (forest (named_in r list (frames_in (items bytes.now))))
        ≡ option_map (held_of r list) result }
{
    find_last(cx, list, name, bytes)
}
