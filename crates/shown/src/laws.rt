//! What a reader of JSON makes of what is shown.

ghost use Rattle.shown.specs.Laws.{CharactersAreShown, TokensAreRead, ValuesAreRead};

/// The text of a value is read as that value by the grammar of the toolchain's crate `json`, and the text of tokens as
/// these tokens.
pub fn law_printed()
    ensures values { ValuesAreRead }
    ensures tokens { TokensAreRead }
{}

/// In a string stand the characters that `is_unseen` names as escapes by their numbers, and all others as the
/// toolchain's crate `json` writes them.
pub fn law_characters()
    ensures { CharactersAreShown }
{}
