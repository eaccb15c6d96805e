//! How deep lists of attributes are shown.

ghost use Rattle.std.specs.Prelude.{◌≡◌, OnOk};
ghost use Rattle.shown.specs.Drafts.{with_value};
ghost use Rattle.frame_shown.specs.Values.{Nesting, hexadecimal};
ghost use Rattle.frame_shown.specs.Frames.{list_shown};
ghost use Rattle.frame_shown.specs.declared.form.Around.{Around as Beside};

use crate::form::{Around, List};
use crate::list::show_list_by;
use shown::Page;
use std::alloc::AllocError;
use std::marker::PhantomData;

/// How deep lists of attributes are shown.
pub trait Depth {
    ghost nest: { Beside → Nesting };

    /// Adds a list of attributes.
    fn show_list(
        cx: &Around<'_>,
        page: &mut Page,
        name: &str,
        list: &List,
        bytes: &[u8],
    ) -> Result<(), AllocError>
        ensures { OnOk result
            (page.new ≡ with_value name.now (nest cx.now list.now bytes.now) page.old) };
}

/// Lists are shown as their bytes.
pub struct Bottom;

impl Depth for Bottom {
    ghost nest = { λ cx list p. hexadecimal p };

    fn show_list(
        _cx: &Around<'_>,
        page: &mut Page,
        name: &str,
        _list: &List,
        bytes: &[u8],
    ) -> Result<(), AllocError> {
        page.hex(name, bytes)
    }
}

/// Lists are shown by their attributes, and lists in these as deep as `D` says.
pub struct Above<D>(PhantomData<D>);

impl<D: Depth> Depth for Above<D> {
    ghost nest = { λ cx list p. list_shown (D.nest cx) cx list p };

    fn show_list(
        cx: &Around<'_>,
        page: &mut Page,
        name: &str,
        list: &List,
        bytes: &[u8],
    ) -> Result<(), AllocError> {
        show_list_by::<D>(cx, page, name, list, bytes)
    }
}
