//! What is shown is of what bytes mean.

ghost use Rattle.frame_shown.specs.Laws.{FunctionsAreMeant, RecordsAreMeant, ValuesAreMeant};
ghost use Rattle.frame_shown.specs.Lists.{ListsAreThese};
ghost use Rattle.frame_shown.specs.Meaning.{MessagesAreMeant};
ghost use Rattle.frame_shown.specs.Names.{NamesAreApart};
ghost use Rattle.frame_shown.specs.Plain.{ShownByOrder};
ghost use Rattle.frame_shown.specs.Tied.{TablesAreThese};
ghost use Rattle.frame_shown.specs.Values.{Nesting};
ghost use Rattle.frame_shown.specs.declared.form.Around.{Around as Beside};

/// A payload that means a number, a text or bytes is shown as these are.
pub fn law_values()
    ensures { (nest : Nesting) (cx : Beside) → ValuesAreMeant nest cx }
{}

/// A payload that means a record of counters or settings is shown as the record is, each field under its name.
pub fn law_records()
    ensures { (nest : Nesting) (cx : Beside) → RecordsAreMeant nest cx }
{}

/// The same of the records of virtual functions.
pub fn law_functions()
    ensures { (nest : Nesting) (cx : Beside) → FunctionsAreMeant nest cx }
{}

/// No two attributes of a list, and no two fields of a record, have one name.
pub fn law_names()
    ensures { NamesAreApart }
{}

/// Each attribute that is a value of a list is shown in an array: those of these numbers are, and no other.
pub fn law_lists()
    ensures { ListsAreThese }
{}

/// The tables of names, places and forms that the code goes by are those of the annex.
pub fn law_tables()
    ensures { TablesAreThese }
{}

/// Bytes that mean one message are shown alike. The header's type of link is shown as its number, also where it has no
/// name: messages with such types are one message, and are shown alike where their numbers are the same.
pub fn law_meaning()
    ensures { (cx : Beside) → MessagesAreMeant cx }
{}

/// The order of the counters of IPv6 decides what is shown of a message: where the rows are those of each place, tables
/// that stand elsewhere in memory show the same.
pub fn law_plain()
    ensures { ShownByOrder }
{}
