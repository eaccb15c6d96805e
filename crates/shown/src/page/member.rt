//! What is written of a member of an object, or of a value in a list: a name where one is due, and what follows it.

ghost use Rattle.std.specs.Prelude.{◌≡◌, true, [], ◌∷◌, ◌++◌, decimal, OnOk};
ghost use Rattle.std.specs.Bool.{OnTrue, OnFalse};
ghost use Rattle.std.specs.Fmt.{signed_decimal};
ghost use Rattle.json.specs.Token.{key, string, number};
ghost use Rattle.shown.specs.Drafts.{named};
ghost use Rattle.shown.specs.Keys.{IsKey};
ghost use Rattle.shown.specs.Nesting.{opening};

use crate::page::Nest;
use crate::sheet::Sheet;
use std::alloc::AllocError;

/// Writes a name, where one is due.
pub(super) fn put_name(sheet: &mut Sheet, inside: Nest, name: &str) -> Result<(), AllocError>
    ensures { OnOk result (sheet.new ≡ named inside name.now sheet.old) }
{
    match inside {
        Nest::Object => sheet.name(name),
        Nest::List => Ok(()),
    }
}

/// Writes a number, after its name where one is due.
#[inline(always)]
pub(super) fn put_number(
    sheet: &mut Sheet,
    inside: Nest,
    name: &str,
    value: u64,
) -> Result<(), AllocError>
    ensures { OnOk result
        (sheet.new ≡ named inside name.now sheet.old ++ number (decimal value) ∷ []) }
{
    match inside {
        Nest::Object => sheet.numbered(name, value),
        Nest::List => sheet.number(value),
    }
}

/// Writes a number that may be below zero, after its name where one is due.
#[inline(always)]
pub(super) fn put_signed(
    sheet: &mut Sheet,
    inside: Nest,
    name: &str,
    value: i64,
) -> Result<(), AllocError>
    ensures { OnOk result
        (sheet.new ≡ named inside name.now sheet.old ++ number (signed_decimal value) ∷ []) }
{
    put_name(sheet, inside, name)?;
    sheet.signed(value)
}

/// Writes a number at once, after its name where one is due; whether it did.
#[inline(always)]
pub(super) fn try_number<const IS_KEY: bool>(
    sheet: &mut Sheet,
    inside: Nest,
    name: &str,
    value: u64,
) -> bool
    requires key { IS_KEY ≡ true → IsKey name.now }
    ensures added { OnTrue result
        (sheet.new ≡ named inside name.now sheet.old ++ number (decimal value) ∷ []) }
    ensures kept { OnFalse result (sheet.new ≡ sheet.old) }
{
    match inside {
        Nest::Object => sheet.try_numbered::<IS_KEY>(name, value),
        Nest::List => sheet.try_number(value),
    }
}

/// Writes a text at once, after its name where one is due; whether it did.
#[inline(always)]
pub(super) fn try_string<const IS_KEY: bool>(
    sheet: &mut Sheet,
    inside: Nest,
    name: &str,
    text: &[u8],
) -> bool
    requires key { IS_KEY ≡ true → IsKey name.now }
    ensures added { OnTrue result
        (sheet.new ≡ named inside name.now sheet.old ++ string text.now ∷ []) }
    ensures kept { OnFalse result (sheet.new ≡ sheet.old) }
{
    match inside {
        Nest::Object => sheet.try_named::<IS_KEY>(name, text),
        Nest::List => sheet.try_string(text),
    }
}

/// Writes the beginning of an object or a list, after its name, where it is not written at once.
#[cold]
#[inline(never)]
fn put_begun_late(sheet: &mut Sheet, name: &str, nest: Nest) -> Result<(), AllocError>
    ensures { OnOk result (sheet.new ≡ (sheet.old ++ key name.now ∷ []) ++ opening nest ∷ []) }
{
    sheet.name(name)?;
    sheet.begin(nest)
}

/// Writes the beginning of an object or a list, after its name where one is due.
#[inline(always)]
pub(super) fn put_begun<const IS_KEY: bool>(
    sheet: &mut Sheet,
    inside: Nest,
    name: &str,
    nest: Nest,
) -> Result<(), AllocError>
    requires key { IS_KEY ≡ true → IsKey name.now }
    ensures { OnOk result (sheet.new ≡ named inside name.now sheet.old ++ opening nest ∷ []) }
{
    match inside {
        Nest::Object if sheet.try_begun::<IS_KEY>(name, nest) => Ok(()),
        Nest::Object => put_begun_late(sheet, name, nest),
        Nest::List => sheet.begin(nest),
    }
}
