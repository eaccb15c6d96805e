//! A law of lines: a function that does nothing, whose contract speaks of the definitions alone.

ghost use Rattle.linkstate.specs.Laws.{EachHasOneAnswer, EachHasOneLenientAnswer};

/// Each line has an answer, and no other one; with `--lenient` too.
pub fn law_one_answer()
    ensures strict { EachHasOneAnswer }
    ensures lenient { EachHasOneLenientAnswer }
{}
