//! What is gone through, and how deep.

ghost use Rattle.std.specs.Prelude.{◌≡◌, ℕ, Bool, List as Seq, OnOk, Some, true};
ghost use Rattle.shown.specs.Drafts.{with_members};
ghost use Rattle.frame_shown.specs.Items.{objects};
ghost use Rattle.frame_shown.specs.declared.form.Around.{Around as Beside};
ghost use Rattle.frame_shown.specs.declared.form.List.{List as Shape};
ghost use Rattle.frame_diff.specs.Inside.{HoldsNoField, HoldsNoRuns, has_none, inside_list};
ghost use Rattle.frame_diff.specs.Items.{items_told};
ghost use Rattle.frame_diff.specs.Members.{is_nest};
ghost use Rattle.frame_diff.specs.Walked.{AreBeside, HasNames, Holding, HoldsApart};

use crate::leaf::Texts;
use crate::side::Side;
use frame_shown::depth::Depth;
use frame_shown::form::{Around, List, Way};
use shown::Page;
use std::alloc::AllocError;

/// What is compared, and which of both is gone through.
#[derive(Clone, Copy, Drop)]
pub struct Pass {
    /// Whether they are states, of which what moves by itself is passed over.
    pub is_state: bool,
    /// Which of both.
    pub side: Side,
    /// Whether both are known to be shown by the same, beside their rows.
    pub is_alike: bool,
}

/// A list of attributes.
#[derive(Clone, Copy, Drop)]
pub struct Attributes<'a> {
    /// What it is shown by, beside the rows.
    pub around: &'a Around<'a>,
    /// Which rows it has.
    pub list: List,
    /// The number of those that are looked at as the values of one list; none where all are looked at.
    pub number: Option<u16>,
    /// Its bytes.
    pub bytes: &'a [u8],
}

/// An attribute.
#[derive(Clone, Copy, Drop)]
pub struct Attribute<'a> {
    /// What it is shown by, beside its row.
    pub around: &'a Around<'a>,
    /// The list that it stands in.
    pub list: List,
    /// Its number.
    pub number: u16,
    /// How it is shown.
    pub way: Way,
    /// Its payload.
    pub payload: &'a [u8],
}

/// How deep lists of attributes are gone through.
pub(crate) trait Walk: Depth {
    ghost inner: { Holding };

    /// Whether a list holds no member at all, so that it is a value.
    fn is_bare(own: Attributes<'_>) -> bool
        ensures { (is_state : Bool) → has_none
            (inner is_state own.entry.around.now own.entry.list own.entry.bytes.now) ≡ result };

    /// Whether lists are shown as objects, and not as their bytes.
    fn has_objects() -> bool
        ensures { (cx : Beside) (list : Shape) (p : Seq ℕ) → is_nest (Self.nest cx list p) ≡ result };

    /// Tells of the members of a list beside those of another one, if there is one.
    fn tell_list(
        texts: &mut Texts,
        pass: Pass,
        page: &mut Page,
        path: &str,
        own: Attributes<'_>,
        beside: Option<Attributes<'_>>,
    ) -> Result<(), AllocError>
        requires names { HasNames own.around.now }
        requires alike { pass.is_alike ≡ true → AreBeside own beside }
        ensures { OnOk result (page.new ≡ with_members (objects (items_told pass.side path.now
            (inside_list inner pass.is_state (Some own.entry)) (inside_list inner pass.is_state beside.entry)))
            page.old) };

    /// No two members of a list have one step, none is a field, and no list is of VLANs.
    fn laws()
        ensures apart { HoldsApart inner }
        ensures fieldless { HoldsNoField inner }
        ensures runless { HoldsNoRuns inner };
}
