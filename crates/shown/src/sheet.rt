//! The text of tokens, as it grows.

ghost use Rattle.std.specs.Prelude.{◌≡◌, ◌≤◌, [], ◌∷◌, ◌++◌, OnOk, decimal, length, take, true};
ghost use Rattle.std.specs.Bool.{OnTrue, OnFalse};
ghost use Rattle.std.specs.Fmt.{signed_decimal};
ghost use Rattle.json.specs.Token.{key, string, number, boolean};
ghost use Rattle.shown.specs.Print.{print, ends_value, token_text};
ghost use Rattle.shown.specs.Keys.{IsKey};
ghost use Rattle.shown.specs.Nesting.{opening, closing};

use crate::at_once::{try_begun, try_named, try_number, try_numbered, try_string};
use crate::page::Nest;
use crate::piece::{add_byte, add_bytes, add_name, add_number, add_numbered, add_string};
use itoa::Buffer;
use std::alloc::{AllocError, Global};
use std::marker::Model;

/// The JSON text (RFC 8259) of tokens, with commas and colons and no space: the first `len` bytes. Those behind them
/// are room. Whether brackets match is for its caller to know. What fails adds nothing.
#[derive(Drop)]
pub(crate) struct Sheet {
    alloc: Global,
    bytes: Vec<u8>,
    len: usize,
    after_value: bool,
}

impl Model for Sheet {
    ghost use Rattle.std.specs.Prelude.{◌≤◌, List, length, take};
    ghost use Rattle.json.specs.Token.{Token, tokens_code};
    ghost use Rattle.json.specs.Lex.{tokens};
    ghost use Rattle.shown.specs.Sheets.{IsText};

    ghost Value = { List Token };

    ghost coded = { tokens_code };

    ghost view = { λ sheet. tokens (take sheet.len sheet.bytes.items) };

    ghost invariant = { λ sheet. (sheet.len ≤ length sheet.bytes.items)
        × IsText (take sheet.len sheet.bytes.items) sheet.after_value };
}

/// The bracket that begins an object or a list.
#[inline(always)]
fn opening(nest: Nest) -> u8
    ensures { result ∷ [] ≡ token_text (opening nest) }
{
    match nest {
        Nest::Object => b'{',
        Nest::List => b'[',
    }
}

/// The bracket that ends an object or a list.
#[inline(always)]
fn closing(nest: Nest) -> u8
    ensures { result ∷ [] ≡ token_text (closing nest) }
{
    match nest {
        Nest::Object => b'}',
        Nest::List => b']',
    }
}

/// The text of a truth value.
#[inline(always)]
fn truth(value: bool) -> &'static [u8]
    ensures { result.now ≡ token_text (boolean value) }
{
    if value { b"true" } else { b"false" }
}

impl Sheet {
    /// The text of no token, which is written over these bytes.
    pub(crate) fn new(alloc: Global, bytes: Vec<u8>) -> Sheet
        ensures { result ≡ [] }
    {
        Sheet {
            alloc,
            bytes,
            len: 0,
            after_value: false,
        }
    }

    /// Its bytes, of which so many are the text.
    pub(crate) fn into_bytes(self) -> (Vec<u8>, usize)
        ensures within { result.1 ≤ length result.0.items }
        ensures text { take result.1 result.0.items ≡ print self }
    {
        let Sheet { bytes, len, .. } = self;
        (bytes, len)
    }

    /// Whether the last token ends a value.
    pub(crate) fn ends_value(&self) -> bool
        ensures { result ≡ ends_value self.now }
    {
        self.after_value
    }

    /// Adds a name.
    #[inline(always)]
    pub(crate) fn name(&mut self, name: &str) -> Result<(), AllocError>
        ensures { OnOk result (self.new ≡ self.old ++ key name.now ∷ []) }
    {
        self.len = add_name(&mut self.bytes, self.len, self.after_value, name)?;
        self.after_value = false;
        Ok(())
    }

    /// Adds a string.
    #[inline(always)]
    pub(crate) fn string(&mut self, text: &str) -> Result<(), AllocError>
        ensures { OnOk result (self.new ≡ self.old ++ string text.now ∷ []) }
    {
        self.len = add_string(&mut self.bytes, self.len, self.after_value, text)?;
        self.after_value = true;
        Ok(())
    }

    /// Adds a number.
    pub(crate) fn number(&mut self, value: u64) -> Result<(), AllocError>
        ensures { OnOk result (self.new ≡ self.old ++ number (decimal value) ∷ []) }
    {
        self.len = add_number(&mut self.bytes, self.len, self.after_value, value)?;
        self.after_value = true;
        Ok(())
    }

    /// Adds a name and a number.
    pub(crate) fn numbered(&mut self, name: &str, value: u64) -> Result<(), AllocError>
        ensures { OnOk result
            (self.new ≡ (self.old ++ key name.now ∷ []) ++ number (decimal value) ∷ []) }
    {
        self.len = add_numbered(&mut self.bytes, self.len, self.after_value, name, value)?;
        self.after_value = true;
        Ok(())
    }

    /// Adds a name and a number at once, where there is room and the name needs no escape; whether it did.
    #[inline(always)]
    pub(crate) fn try_numbered<const IS_KEY: bool>(&mut self, name: &str, value: u64) -> bool
        requires key { IS_KEY ≡ true → IsKey name.now }
        ensures added { OnTrue result
            (self.new ≡ (self.old ++ key name.now ∷ []) ++ number (decimal value) ∷ []) }
        ensures kept { OnFalse result (self.new ≡ self.old) }
    {
        let Some(end) = try_numbered::<IS_KEY>(
            &mut self.bytes,
            self.len,
            self.after_value,
            name,
            value,
        ) else {
            return false;
        };
        self.len = end;
        self.after_value = true;
        true
    }

    /// Adds a number at once, where there is room; whether it did.
    #[inline(always)]
    pub(crate) fn try_number(&mut self, value: u64) -> bool
        ensures added { OnTrue result (self.new ≡ self.old ++ number (decimal value) ∷ []) }
        ensures kept { OnFalse result (self.new ≡ self.old) }
    {
        let Some(end) = try_number(&mut self.bytes, self.len, self.after_value, value) else {
            return false;
        };
        self.len = end;
        self.after_value = true;
        true
    }

    /// Adds a name and a string at once, where there is room and neither needs an escape; whether it did.
    #[inline(always)]
    pub(crate) fn try_named<const IS_KEY: bool>(&mut self, name: &str, text: &[u8]) -> bool
        requires key { IS_KEY ≡ true → IsKey name.now }
        ensures added { OnTrue result
            (self.new ≡ (self.old ++ key name.now ∷ []) ++ string text.now ∷ []) }
        ensures kept { OnFalse result (self.new ≡ self.old) }
    {
        let Some(end) = try_named::<IS_KEY>(&mut self.bytes, self.len, self.after_value, name, text)
        else {
            return false;
        };
        self.len = end;
        self.after_value = true;
        true
    }

    /// Adds a string at once, where there is room and it needs no escape; whether it did.
    #[inline(always)]
    pub(crate) fn try_string(&mut self, text: &[u8]) -> bool
        ensures added { OnTrue result (self.new ≡ self.old ++ string text.now ∷ []) }
        ensures kept { OnFalse result (self.new ≡ self.old) }
    {
        let Some(end) = try_string(&mut self.bytes, self.len, self.after_value, text) else {
            return false;
        };
        self.len = end;
        self.after_value = true;
        true
    }

    /// Adds a name and the beginning of an object or a list at once, where there is room and the name needs no escape;
    /// whether it did.
    #[inline(always)]
    pub(crate) fn try_begun<const IS_KEY: bool>(&mut self, name: &str, nest: Nest) -> bool
        requires key { IS_KEY ≡ true → IsKey name.now }
        ensures added { OnTrue result
            (self.new ≡ (self.old ++ key name.now ∷ []) ++ opening nest ∷ []) }
        ensures kept { OnFalse result (self.new ≡ self.old) }
    {
        let Some(end) = try_begun::<IS_KEY>(
            &mut self.bytes,
            self.len,
            self.after_value,
            name,
            opening(nest),
        ) else {
            return false;
        };
        self.len = end;
        self.after_value = false;
        true
    }

    /// Adds a number that may be below zero.
    #[inline(always)]
    pub(crate) fn signed(&mut self, value: i64) -> Result<(), AllocError>
        ensures { OnOk result (self.new ≡ self.old ++ number (signed_decimal value) ∷ []) }
    {
        let mut digits = Buffer::new();
        let text = digits.format(value).as_bytes();
        self.len = add_bytes(&mut self.bytes, self.len, self.after_value, text)?;
        self.after_value = true;
        Ok(())
    }

    /// Adds `true` or `false`.
    pub(crate) fn truth(&mut self, value: bool) -> Result<(), AllocError>
        ensures { OnOk result (self.new ≡ self.old ++ boolean value ∷ []) }
    {
        self.len = add_bytes(&mut self.bytes, self.len, self.after_value, truth(value))?;
        self.after_value = true;
        Ok(())
    }

    /// Adds the beginning of an object or a list.
    #[inline(always)]
    pub(crate) fn begin(&mut self, nest: Nest) -> Result<(), AllocError>
        ensures { OnOk result (self.new ≡ self.old ++ opening nest ∷ []) }
    {
        self.len = add_byte(&mut self.bytes, self.len, self.after_value, opening(nest))?;
        self.after_value = false;
        Ok(())
    }

    /// Adds the end of an object or a list.
    pub(crate) fn end(&mut self, nest: Nest) -> Result<(), AllocError>
        ensures { OnOk result (self.new ≡ self.old ++ closing nest ∷ []) }
    {
        self.len = add_byte(&mut self.bytes, self.len, false, closing(nest))?;
        self.after_value = true;
        Ok(())
    }
}
