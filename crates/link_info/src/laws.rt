//! Laws of reading and writing: functions that do nothing, whose contracts are laws over the definitions alone.

ghost use Rattle.link_info.specs.Laws.{WrittenAsItWas, ReadAgain, OneFieldEach, ListAsItWas, ListReadAgain};
ghost use Rattle.link_info.specs.Laws.{EachAsAlone, RewrittenAsItWas};

/// What was read and is written is the payload that it was, where a text ended in a NUL. It holds of each style.
pub fn law_written()
    ensures { WrittenAsItWas }
{}

/// What was read and is written is read as the same. It holds of each style.
pub fn law_read_again()
    ensures { ReadAgain }
{}

/// A value of a list, which has an attribute for each, is read and written as one that stands alone.
pub fn law_each()
    ensures { EachAsAlone }
{}

/// A list of attributes has one field for each frame, in order, by any table.
pub fn law_one_field_each()
    ensures { OneFieldEach }
{}

/// A list that was read and is written gives the same bytes, where each payload is canonical: a text ends in a NUL.
pub fn law_list_written()
    ensures { ListAsItWas }
{}

/// A list that was read and is written, where each value fits, is read as the same fields.
pub fn law_list_read_again()
    ensures { ListReadAgain }
{}

/// `rewrite` returns bytes in canonical encoding as they were, where each payload is canonical: a text ends in a NUL.
pub fn law_rewritten()
    ensures { RewrittenAsItWas }
{}
