//! Members that are texts, numbers and truth values.

ghost use Rattle.std.specs.Prelude.{◌≡◌, true, [], ◌∷◌, decimal, OnOk};
ghost use Rattle.std.specs.Bool.{OnTrue, OnFalse};
ghost use Rattle.std.specs.Fmt.{signed_decimal};
ghost use Rattle.json.specs.Token.{string, number, boolean};
ghost use Rattle.shown.specs.Drafts.{with_value};
ghost use Rattle.shown.specs.Keys.{IsKey};

use crate::page::Page;
use crate::page::member::{put_name, put_number, put_signed, try_number, try_string};
use std::alloc::AllocError;

impl Page {
    /// Adds a text where it is not written at once.
    #[cold]
    #[inline(never)]
    fn string_late(&mut self, name: &str, text: &str) -> Result<(), AllocError>
        ensures { OnOk result (self.new ≡ with_value name.now (string text.now ∷ []) self.old) }
    {
        if self.is_broken {
            return Err(AllocError);
        }
        self.is_broken = true;
        put_name(&mut self.sheet, self.inside, name)?;
        self.sheet.string(text)?;
        self.is_broken = false;
        Ok(())
    }

    /// Adds a number where it is not written at once.
    #[cold]
    #[inline(never)]
    fn number_late(&mut self, name: &str, value: u64) -> Result<(), AllocError>
        ensures { OnOk result
            (self.new ≡ with_value name.now (number (decimal value) ∷ []) self.old) }
    {
        if self.is_broken {
            return Err(AllocError);
        }
        self.is_broken = true;
        put_number(&mut self.sheet, self.inside, name, value)?;
        self.is_broken = false;
        Ok(())
    }

    /// Adds a number that may be below zero, where it is not written at once.
    #[cold]
    #[inline(never)]
    fn signed_late(&mut self, name: &str, value: i64) -> Result<(), AllocError>
        ensures { OnOk result
            (self.new ≡ with_value name.now (number (signed_decimal value) ∷ []) self.old) }
    {
        if self.is_broken {
            return Err(AllocError);
        }
        self.is_broken = true;
        put_signed(&mut self.sheet, self.inside, name, value)?;
        self.is_broken = false;
        Ok(())
    }

    /// Adds a text at once; whether it did.
    #[inline(always)]
    pub(super) fn try_text<const IS_KEY: bool>(&mut self, name: &str, text: &[u8]) -> bool
        requires key { IS_KEY ≡ true → IsKey name.now }
        ensures added { OnTrue result
            (self.new ≡ with_value name.now (string text.now ∷ []) self.old) }
        ensures kept { OnFalse result (self.new ≡ self.old) }
    {
        if self.is_broken {
            return false;
        }
        try_string::<IS_KEY>(&mut self.sheet, self.inside, name, text)
    }

    /// Adds a number at once; whether it did.
    #[inline(always)]
    fn try_number<const IS_KEY: bool>(&mut self, name: &str, value: u64) -> bool
        requires key { IS_KEY ≡ true → IsKey name.now }
        ensures added { OnTrue result
            (self.new ≡ with_value name.now (number (decimal value) ∷ []) self.old) }
        ensures kept { OnFalse result (self.new ≡ self.old) }
    {
        if self.is_broken {
            return false;
        }
        try_number::<IS_KEY>(&mut self.sheet, self.inside, name, value)
    }

    /// Adds a text.
    #[inline(never)]
    pub fn string(&mut self, name: &str, text: &str) -> Result<(), AllocError>
        ensures { OnOk result (self.new ≡ with_value name.now (string text.now ∷ []) self.old) }
    {
        if self.try_text::<false>(name, text.as_bytes()) {
            return Ok(());
        }
        self.string_late(name, text)
    }

    /// Adds a text under a key, a name of which it is known that no byte of it needs an escape.
    #[inline(never)]
    pub fn keyed_string(&mut self, name: &str, text: &str) -> Result<(), AllocError>
        requires key { IsKey name.now }
        ensures { OnOk result (self.new ≡ with_value name.now (string text.now ∷ []) self.old) }
    {
        if self.try_text::<true>(name, text.as_bytes()) {
            return Ok(());
        }
        self.string_late(name, text)
    }

    /// Adds a number.
    #[inline(never)]
    pub fn number(&mut self, name: &str, value: u64) -> Result<(), AllocError>
        ensures { OnOk result
            (self.new ≡ with_value name.now (number (decimal value) ∷ []) self.old) }
    {
        if self.try_number::<false>(name, value) {
            return Ok(());
        }
        self.number_late(name, value)
    }

    /// Adds a number under a key.
    #[inline(never)]
    pub fn keyed_number(&mut self, name: &str, value: u64) -> Result<(), AllocError>
        requires key { IsKey name.now }
        ensures { OnOk result
            (self.new ≡ with_value name.now (number (decimal value) ∷ []) self.old) }
    {
        if self.try_number::<true>(name, value) {
            return Ok(());
        }
        self.number_late(name, value)
    }

    /// Adds a number that may be below zero.
    #[inline(always)]
    pub fn signed(&mut self, name: &str, value: i64) -> Result<(), AllocError>
        ensures { OnOk result
            (self.new ≡ with_value name.now (number (signed_decimal value) ∷ []) self.old) }
    {
        if value >= 0 {
            return self.number(name, value as u64);
        }
        self.signed_late(name, value)
    }

    /// Adds a number that may be below zero, under a key.
    #[inline(always)]
    pub fn keyed_signed(&mut self, name: &str, value: i64) -> Result<(), AllocError>
        requires key { IsKey name.now }
        ensures { OnOk result
            (self.new ≡ with_value name.now (number (signed_decimal value) ∷ []) self.old) }
    {
        if value >= 0 {
            return self.keyed_number(name, value as u64);
        }
        self.signed_late(name, value)
    }

    /// Adds `true` or `false`.
    pub fn truth(&mut self, name: &str, value: bool) -> Result<(), AllocError>
        ensures { OnOk result (self.new ≡ with_value name.now (boolean value ∷ []) self.old) }
    {
        if self.is_broken {
            return Err(AllocError);
        }
        self.is_broken = true;
        put_name(&mut self.sheet, self.inside, name)?;
        self.sheet.truth(value)?;
        self.is_broken = false;
        Ok(())
    }
}
