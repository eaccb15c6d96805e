//! Names that a style has for numbers and bits, as values.

ghost use Rattle.std.specs.Prelude.{◌≡◌};
ghost use Rattle.link_info.specs.Meanings.{meaning};
ghost use Rattle.link_info.specs.Built.{number_named, names_of, by_name, bits_named, bits_of};

use crate::style::{Names, Plain, Style};
use crate::value::Value;

/// The first number or bit of this name.
fn number_named(names: Names, name: &str) -> Option<u64>
    ensures { result ≡ number_named names.now name.now }
{
    names.iter().find(|row| row.1 == name).map(|row| row.0)
}

/// The names of numbers or bits of this style.
fn names_of(style: Style) -> Names
    ensures { result.now ≡ names_of style }
{
    match style.plain() {
        Plain::Named(_, names) => names,
        Plain::BigEndianNamed(_, names) => names,
        Plain::Flags(_, names) => names,
        Plain::BigEndianFlags(_, names) => names,
        _ => &[],
    }
}

/// The number of a name that the style has; another value as it is.
pub(crate) fn by_name<'v>(style: Style, value: Value<'v>) -> Value<'v>
    ensures { meaning result ≡ by_name style (meaning value.entry) }
{
    let Value::Text(name) = value else {
        return value;
    };
    match number_named(names_of(style), name) {
        Some(number) => Value::Unsigned(number),
        None => value,
    }
}

/// The bits of these names, if each has one.
fn bits_named(names: Names, flags: &[&str]) -> Option<u64>
    ensures { result ≡ bits_named names.now 0 flags.now }
{
    let mut bits = 0;
    for flag in flags {
        bits |= number_named(names, flag)?;
    }
    Some(bits)
}

/// The bits of these names, by a style of flags that has each.
pub(crate) fn bits_of(style: Style, flags: &[&str]) -> Option<u64>
    ensures { result ≡ bits_of style flags.now }
{
    match style.plain() {
        Plain::Flags(_, names) => bits_named(names, flags),
        Plain::BigEndianFlags(_, names) => bits_named(names, flags),
        _ => None,
    }
}
