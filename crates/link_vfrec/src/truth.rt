//! Truth values, numbers of four bytes.

ghost use Rattle.std.specs.Prelude.{◌≡◌};
ghost use Rattle.link_vfrec.specs.Truth.{is_on as is_on_number, on_number as number_of};

/// Whether a setting is on: 0 and 4294967295 are off, all else is on.
#[inline(always)]
pub fn is_on(number: u32) -> bool
    ensures { result ≡ is_on_number number }
{
    number != 0 && number != 4294967295
}

/// The number of a setting.
#[inline(always)]
pub fn on_number(on: bool) -> u32
    ensures { result ≡ number_of on }
{
    if on { 1 } else { 0 }
}
