//! Laws of answers: functions that do nothing, whose contracts speak of the definitions alone.

ghost use Rattle.message_shown.specs.Leniently.{EachIsTold, IsLenientAnswerTo, TellsLeniently};
ghost use Rattle.message_shown.specs.Lines.{IsAnswerTo, TellsMessage};
ghost use Rattle.message_shown.specs.Meaning.{AcceptedAreMeant, AnswersAreMeant};
ghost use Rattle.message_shown.specs.Whole.{BeginsAs, TellsAs, IsWholeAnswerTo, IsWholeLenientAnswerTo};

/// Of a message that is read leniently each attribute is shown with those that are accepted, or told with those that
/// are refused. Those that are shown mean what is accepted of the message, and in front of a fault what is read there.
pub fn law_lenient()
    ensures each { EachIsTold }
    ensures accepted { AcceptedAreMeant }
{}

/// A whole answer begins with a fault or with the family of a message, and tells what the bytes mean.
pub fn law_answers()
    ensures begins { BeginsAs IsWholeAnswerTo IsAnswerTo }
    ensures begins_leniently { BeginsAs IsWholeLenientAnswerTo IsLenientAnswerTo }
    ensures tells { TellsAs IsWholeAnswerTo TellsMessage }
    ensures tells_leniently { TellsAs IsWholeLenientAnswerTo TellsLeniently }
{}

/// An answer is of what the bytes mean: two spellings of one message have one answer, behind the same words and by the
/// same order of counters. Messages whose type of link has no name are one message, and are answered alike where the
/// numbers of their types are the same.
pub fn law_meaning()
    ensures { AnswersAreMeant }
{}
