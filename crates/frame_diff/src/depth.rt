//! How deep lists are gone through.

ghost use Rattle.frame_diff.specs.Forests.{Forest};
ghost use Rattle.frame_diff.specs.Inside.{above};

use crate::leaf::Texts;
use crate::lists::{is_without, tell_list_by};
use crate::walk::{Attributes, Pass, Walk};
use frame_shown::depth::{Above, Bottom};
use shown::Page;
use std::alloc::AllocError;

impl Walk for Bottom {
    ghost inner = { λ is_state cx list p. Forest.none };

    fn is_bare(_own: Attributes<'_>) -> bool {
        true
    }

    fn has_objects() -> bool {
        false
    }

    fn tell_list(
        _texts: &mut Texts,
        _pass: Pass,
        _page: &mut Page,
        _path: &str,
        _own: Attributes<'_>,
        _beside: Option<Attributes<'_>>,
    ) -> Result<(), AllocError> {
        Ok(())
    }

    fn laws() {}
}

impl<W: Walk> Walk for Above<W> {
    ghost inner = { λ is_state cx list p. above W.nest W.inner is_state cx list p };

    fn is_bare(own: Attributes<'_>) -> bool {
        is_without(own)
    }

    fn has_objects() -> bool {
        true
    }

    fn tell_list(
        texts: &mut Texts,
        pass: Pass,
        page: &mut Page,
        path: &str,
        own: Attributes<'_>,
        beside: Option<Attributes<'_>>,
    ) -> Result<(), AllocError> {
        tell_list_by::<W>(texts, pass, page, path, own, beside)
    }

    fn laws() {
        W::laws();
    }
}
