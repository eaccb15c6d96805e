//! Laws of answers: functions that do nothing, whose contracts speak of the definitions alone.

ghost use Rattle.linkshow.specs.Laws.{AnswersBegin, FaultsAreRefusals, LenientAnswersBegin, LenientFaultsAreRefusals};
ghost use Rattle.linkshow.specs.Laws.{AnswersAreMeant, LenientAnswersAreMeant};

/// An answer begins with a fault exactly where the bytes mean no message; with `--lenient`, where they mean none
/// leniently.
pub fn law_faults()
    ensures strict { FaultsAreRefusals }
    ensures lenient { LenientFaultsAreRefusals }
{}

/// Each answer that a run writes is one object on one line, and begins with a fault or with the family of a message.
pub fn law_begin()
    ensures strict { AnswersBegin }
    ensures lenient { LenientAnswersBegin }
{}

/// Lines with the same words in front, whose bytes mean one message, have one answer, where the messages have one type
/// of link: types without a name are one in a message, and are shown as their numbers.
pub fn law_meaning()
    ensures strict { AnswersAreMeant }
    ensures lenient { LenientAnswersAreMeant }
{}
