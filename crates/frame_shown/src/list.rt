//! Lists of attributes.

ghost use Rattle.std.specs.Prelude.{◌≡◌, OnOk, IfOk};
ghost use Rattle.std.specs.List.{flat_map};
ghost use Rattle.nla_wire.specs.Items.{items};
ghost use Rattle.link_info.specs.Tables.{frames_in};
ghost use Rattle.shown.specs.Drafts.{with_members, with_value, object_of, list_of};
ghost use Rattle.frame_shown.specs.Items.{are_any, kept_ones, listed_under, members_of, named_ones, objects};
ghost use Rattle.frame_shown.specs.Items.{values_of, objects_under};
ghost use Rattle.frame_shown.specs.Frames.{entries_in, items_in, list_shown};
ghost use Rattle.frame_shown.specs.Tables.{entry_list, group_name, lists_in};

mod arrays;
mod frame;
mod left;
mod repeated;

use crate::depth::Depth;
use crate::form::{Around, Group, List};
pub use crate::list::arrays::show_one_array;
use crate::list::frame::show_named;
pub use crate::list::frame::show_way;
use crate::list::left::{show_left, show_others};
pub use crate::list::repeated::has_twice;
use crate::list::repeated::show_surveyed;
use nla_wire::NlasIterator;
use shown::{Nest, Page};
use std::alloc::AllocError;

/// Adds the attributes of a list as members. Where no number stands twice, they are shown in one pass.
pub fn show_members<D: Depth>(
    cx: &Around<'_>,
    page: &mut Page,
    list: &List,
    bytes: &[u8],
) -> Result<(), AllocError>
    ensures { OnOk result (page.new ≡ with_members
        (members_of (lists_in cx.now list.now)
        (items_in (D.nest cx.now) cx.now list.now (items bytes.now))) page.old) }
{
    if has_twice(bytes) {
        return show_surveyed::<D>(cx, page, list, bytes);
    }
    let left = show_named::<D>(cx, page, list, bytes)?;
    show_left::<D>(cx, page, list, bytes, left)
}

/// Adds the attributes of a list as an object.
fn show_object<D: Depth>(
    cx: &Around<'_>,
    page: &mut Page,
    name: &str,
    list: &List,
    bytes: &[u8],
) -> Result<(), AllocError>
    ensures { OnOk result (page.new ≡ with_value name.now (object_of
        (members_of (lists_in cx.now list.now)
        (items_in (D.nest cx.now) cx.now list.now (items bytes.now)))) page.old) }
{
    page.begin(name, Nest::Object)?;
    show_members::<D>(cx, page, list, bytes)?;
    page.end()
}

/// Adds the attributes of a list that have a name as one list, and returns whether one of the others is kept as it is.
pub fn show_one_list<D: Depth>(
    cx: &Around<'_>,
    page: &mut Page,
    name: &str,
    list: &List,
    bytes: &[u8],
) -> Result<bool, AllocError>
    ensures shown { OnOk result (page.new ≡ with_value name.now (list_of (flat_map values_of
        (named_ones (items_in (D.nest cx.now) cx.now list.now (items bytes.now))))) page.old) }
    ensures kept { IfOk result (λ kept. kept
        ≡ are_any (kept_ones (items_in (D.nest cx.now) cx.now list.now (items bytes.now)))) }
{
    page.begin(name, Nest::List)?;
    let left = show_named::<D>(cx, page, list, bytes)?;
    page.end()?;
    Ok(left.is_any_kept())
}

/// Adds the attributes of a list as an object in which all that have a name stand in one list.
fn show_listed<D: Depth>(
    cx: &Around<'_>,
    page: &mut Page,
    name: &str,
    group: Group,
    list: &List,
    bytes: &[u8],
) -> Result<(), AllocError>
    ensures { OnOk result (page.new ≡ with_value name.now (object_of (listed_under (group_name group)
        (items_in (D.nest cx.now) cx.now list.now (items bytes.now)))) page.old) }
{
    page.begin(name, Nest::Object)?;
    let is_any_kept = show_one_list::<D>(cx, page, group.name(), list, bytes)?;
    show_others::<D>(cx, page, list, bytes, is_any_kept)?;
    page.end()
}

/// Adds the objects in the attributes of number 1.
fn show_entries<D: Depth>(
    cx: &Around<'_>,
    page: &mut Page,
    list: &List,
    bytes: &[u8],
) -> Result<(), AllocError>
    ensures { OnOk result (page.new ≡ with_members (objects
        (entries_in (D.nest cx.now) cx.now list.now (frames_in (items bytes.now)))) page.old) }
{
    for item in NlasIterator::new(bytes) {
        let Ok(frame) = item else {
            break;
        };
        if frame.kind() == 1 {
            show_object::<D>(cx, page, "", list, frame.value())?;
        }
    }
    Ok(())
}

/// Adds a list under a name of the objects in the attributes of number 1.
fn show_entry_list<D: Depth>(
    cx: &Around<'_>,
    page: &mut Page,
    name: &str,
    group: Group,
    bytes: &[u8],
) -> Result<(), AllocError>
    ensures { OnOk result (page.new ≡ with_value name.now (object_of (objects_under (group_name group)
        (entries_in (D.nest cx.now) cx.now (entry_list group) (frames_in (items bytes.now))))) page.old) }
{
    page.begin(name, Nest::Object)?;
    page.begin(group.name(), Nest::List)?;
    show_entries::<D>(cx, page, &group.entry(), bytes)?;
    page.end()?;
    page.end()
}

/// Adds a list of attributes.
pub fn show_list_by<D: Depth>(
    cx: &Around<'_>,
    page: &mut Page,
    name: &str,
    list: &List,
    bytes: &[u8],
) -> Result<(), AllocError>
    ensures { OnOk result (page.new
        ≡ with_value name.now (list_shown (D.nest cx.now) cx.now list.now bytes.now) page.old) }
{
    match *list {
        List::Listed(group, _) => show_listed::<D>(cx, page, name, group, list, bytes),
        List::Entries(group) => show_entry_list::<D>(cx, page, name, group, bytes),
        _ => show_object::<D>(cx, page, name, list, bytes),
    }
}
