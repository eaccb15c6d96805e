//! What differs between two lists of attributes.

ghost use Rattle.std.specs.Prelude.{◌≡◌, OnOk, codes, false, true};
ghost use Rattle.nla_wire.specs.Items.{items};
ghost use Rattle.shown.specs.Drafts.{with_members};
ghost use Rattle.frame_shown.specs.Frames.{are_twice};
ghost use Rattle.frame_shown.specs.Items.{objects};
ghost use Rattle.frame_diff.specs.Forests.{forest};
ghost use Rattle.frame_diff.specs.Items.{items_told, joined};
ghost use Rattle.frame_diff.specs.Members.{places};
ghost use Rattle.frame_diff.specs.Repeated.{earlier_at, members_at};
ghost use Rattle.frame_diff.specs.Walked.{AreAlike, HasNames};

use crate::again::tell_repeated;
use crate::arrays::tell_arrays;
use crate::kept::tell_others;
use crate::leaf::Texts;
use crate::list::{is_single, tell_named};
use crate::path::join;
use crate::walk::{Attributes, Pass, Walk};
use shown::Page;
use std::alloc::AllocError;

/// Tells of the attributes behind which another one of their name stands.
fn tell_again<W: Walk>(
    texts: &mut Texts,
    pass: Pass,
    page: &mut Page,
    path: &str,
    own: Attributes<'_>,
    others: Attributes<'_>,
    is_single: bool,
) -> Result<(), AllocError>
    requires names { HasNames own.around.now }
    requires single { is_single ≡ true → are_twice (items own.bytes.now) ≡ false }
    requires rows { pass.is_alike ≡ true → AreAlike own others }
    ensures { OnOk result (page.new
        ≡ with_members (objects (items_told pass.side (joined path.now (codes "repeated"))
        (places (earlier_at W.nest W.inner pass.is_state own.entry))
        (places (earlier_at W.nest W.inner pass.is_state others.entry)))) page.old) }
{
    if is_single {
        return Ok(());
    }
    let text = join(texts.alloc, path, "repeated")?;
    tell_repeated::<W>(texts, pass, page, text.as_str(), own, others)
}

/// Tells of the attributes of a list that is shown as an object, beside those of another one: of each name the last
/// one, then the lists that attributes are the values of, then by their places those behind which another one of their
/// name stands, and those that are kept as they are.
pub(crate) fn tell_members<W: Walk>(
    texts: &mut Texts,
    pass: Pass,
    page: &mut Page,
    path: &str,
    own: Attributes<'_>,
    others: Attributes<'_>,
) -> Result<(), AllocError>
    requires names { HasNames own.around.now }
    requires rows { pass.is_alike ≡ true → AreAlike own others }
    ensures { OnOk result (page.new ≡ with_members (objects (items_told pass.side path.now
        (forest (members_at W.nest W.inner pass.is_state own.entry))
        (forest (members_at W.nest W.inner pass.is_state others.entry)))) page.old) }
{
    let is_single = is_single(own);
    tell_named::<W>(texts, pass, page, path, own, others, is_single)?;
    tell_arrays::<W>(texts, pass, page, path, own, others)?;
    tell_again::<W>(texts, pass, page, path, own, others, is_single)?;
    tell_others(texts, pass, page, path, own, others)
}
