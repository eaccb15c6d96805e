//! Which values an attribute of a style can have.

ghost use Rattle.std.specs.Prelude.{◌↔◌, ◌≡◌, ◌<◌, ◌^◌, ◌*◌, IsTrue, FitsSigned};
ghost use Rattle.std.specs.Int.{byte_len};
ghost use Rattle.link_info.specs.Styles.{width, form};
ghost use Rattle.link_info.specs.Meanings.{meaning};
ghost use Rattle.link_info.specs.Built.{FormHolds, Holds};
ghost use Rattle.link_info.specs.declared.style.Style.TheVariants as S;

use crate::read::{are_elements, are_whole, has_size, is_whole_number};
use crate::style::{Element, Plain, Size, Style};
use crate::value::Value;

/// Whether a number has no more bytes than this.
fn fits_unsigned(size: Size, n: u64) -> bool
    ensures { IsTrue result ↔ (n < 2 ^ (8 * byte_len (width size))) }
{
    match size {
        Size::One => n < 1 << 8,
        Size::Two => n < 1 << 16,
        Size::Four => n < 1 << 32,
        Size::Eight => true,
    }
}

/// Whether a signed number has no more bytes than this.
fn fits_signed(size: Size, z: i64) -> bool
    ensures { IsTrue result ↔ FitsSigned (width size) z }
{
    match size {
        Size::One => i8::try_from(z).is_ok(),
        Size::Two => i16::try_from(z).is_ok(),
        Size::Four => i32::try_from(z).is_ok(),
        Size::Eight => true,
    }
}

/// Whether a value has a spelling of this fixed size.
fn plain_holds(plain: Plain, value: Value<'_>) -> bool
    ensures { IsTrue result ↔ FormHolds (form plain) (meaning value.entry) }
{
    match (plain, value) {
        (Plain::Unsigned(size), Value::Unsigned(n)) => fits_unsigned(size, n),
        (Plain::Named(size, _), Value::Unsigned(n)) => fits_unsigned(size, n),
        (Plain::Flags(size, _), Value::Unsigned(n)) => fits_unsigned(size, n),
        (Plain::BigEndian(size), Value::Unsigned(n)) => fits_unsigned(size, n),
        (Plain::BigEndianNamed(size, _), Value::Unsigned(n)) => fits_unsigned(size, n),
        (Plain::BigEndianFlags(size, _), Value::Unsigned(n)) => fits_unsigned(size, n),
        (Plain::Signed(size), Value::Signed(z)) => fits_signed(size, z),
        (Plain::Mac, Value::Mac(_)) => true,
        (Plain::Ipv4, Value::Ipv4(_)) => true,
        (Plain::Ipv6, Value::Ipv6(_)) => true,
        (Plain::Octets(size), Value::Bytes(bytes)) => bytes.len() == size,
        _ => false,
    }
}

/// Whether a list can have the value.
fn element_holds(element: Element, value: Value<'_>) -> bool
    ensures { IsTrue result ↔ Holds (S.Each element) (meaning value.entry) }
{
    match (element, value) {
        (Element::Plain(plain), value) => plain_holds(plain, value),
        (Element::Record(members), Value::Bytes(bytes)) => has_size(members, bytes.len()),
        (Element::Nest(_), Value::Bytes(bytes)) => are_whole(bytes),
        _ => false,
    }
}

/// Whether an attribute of this style can have the value. A record, an array and a list are given by their bytes.
pub fn holds(style: Style, value: Value<'_>) -> bool
    ensures { IsTrue result ↔ Holds style (meaning value.entry) }
{
    match (style, value) {
        (Style::Bytes, Value::Bytes(_)) => true,
        (Style::Flag, Value::Flag) => true,
        (Style::Text, Value::Text(_)) => true,
        (Style::Plain(plain), value) => plain_holds(plain, value),
        (Style::Each(element), value) => element_holds(element, value),
        (Style::Record(members), Value::Bytes(bytes)) => has_size(members, bytes.len()),
        (Style::Array(plain), Value::Bytes(bytes)) => is_whole_number(plain.size(), bytes.len()),
        (Style::List(plain), Value::Bytes(bytes)) => are_elements(bytes, plain.size()),
        (Style::Nest(_), Value::Bytes(bytes)) => are_whole(bytes),
        _ => false,
    }
}
