//! Payloads written by their style.

ghost use Rattle.std.specs.Prelude.{◌≡◌, ◌++◌, [], ◌∷◌, OnOk};
ghost use Rattle.std.specs.Int.{to_le_bytes, to_be_bytes, cast_unsigned};
ghost use Rattle.link_info.specs.Styles.{form, width};
ghost use Rattle.link_info.specs.Meanings.{meaning, payload_as, form_number, form_signed, plain_of, SignedFits};
ghost use Rattle.link_info.specs.Meanings.{ValueFits};

use crate::style::{Plain, Size, Style};
use crate::value::Value;
use std::alloc::AllocError;

/// Adds a number in host order, its lowest bytes.
fn push_host(out: &mut Vec<u8>, size: Size, n: u64) -> Result<(), AllocError>
    ensures { OnOk result (out.new.items ≡ out.old.items ++ to_le_bytes (width size) n) }
{
    let bytes = n.to_le_bytes();
    match size {
        Size::One => out.extend_from_slice(&bytes[..1]),
        Size::Two => out.extend_from_slice(&bytes[..2]),
        Size::Four => out.extend_from_slice(&bytes[..4]),
        Size::Eight => out.extend_from_slice(&bytes),
    }
}

/// Adds a number in network order, its lowest bytes.
fn push_network(out: &mut Vec<u8>, size: Size, n: u64) -> Result<(), AllocError>
    ensures { OnOk result (out.new.items ≡ out.old.items ++ to_be_bytes (width size) n) }
{
    let bytes = n.to_be_bytes();
    match size {
        Size::One => out.extend_from_slice(&bytes[7..]),
        Size::Two => out.extend_from_slice(&bytes[6..]),
        Size::Four => out.extend_from_slice(&bytes[4..]),
        Size::Eight => out.extend_from_slice(&bytes),
    }
}

/// Adds a number in the order that it is spelled in.
fn push_unsigned(out: &mut Vec<u8>, plain: Plain, n: u64) -> Result<(), AllocError>
    ensures { OnOk result (out.new.items ≡ out.old.items ++ form_number (form plain) n) }
{
    match plain {
        Plain::Unsigned(size) => push_host(out, size, n),
        Plain::Named(size, _) => push_host(out, size, n),
        Plain::Flags(size, _) => push_host(out, size, n),
        Plain::BigEndian(size) => push_network(out, size, n),
        Plain::BigEndianNamed(size, _) => push_network(out, size, n),
        Plain::BigEndianFlags(size, _) => push_network(out, size, n),
        _ => Ok(()),
    }
}

/// Adds a signed number of four bytes or fewer as it is spelled, in two's complement.
fn push_signed(out: &mut Vec<u8>, plain: Plain, z: i64) -> Result<(), AllocError>
    requires { SignedFits (form plain) z }
    ensures { OnOk result (out.new.items ≡ out.old.items ++ form_signed (form plain) z) }
{
    match plain {
        Plain::Signed(Size::One) => out.extend_from_slice(&(z as i8).to_le_bytes()),
        Plain::Signed(Size::Two) => out.extend_from_slice(&(z as i16).to_le_bytes()),
        Plain::Signed(Size::Four) => out.extend_from_slice(&(z as i32).to_le_bytes()),
        Plain::Signed(Size::Eight) => out.extend_from_slice(&z.to_le_bytes()),
        _ => Ok(()),
    }
}

/// Adds a text, and one NUL after it.
fn push_text(out: &mut Vec<u8>, text: &str) -> Result<(), AllocError>
    ensures { OnOk result (out.new.items ≡ out.old.items ++ (text.now ++ 0 ∷ [])) }
{
    out.extend_from_slice(text.as_bytes())?;
    out.extend_from_slice(&[0])
}

/// Adds the payload that a value of this style is written as. Where memory ran out, a part of it may have been added.
pub fn push_payload(out: &mut Vec<u8>, style: Style, value: Value<'_>) -> Result<(), AllocError>
    requires { ValueFits (plain_of style) (meaning value) }
    ensures { OnOk result
        (out.new.items ≡ out.old.items ++ payload_as style (meaning value.entry)) }
{
    match value {
        Value::Bytes(bytes) | Value::Record(_, bytes) => out.extend_from_slice(bytes),
        Value::Array(_, bytes) | Value::List(_, bytes) => out.extend_from_slice(bytes),
        Value::Nest(_, bytes) => out.extend_from_slice(bytes),
        Value::Flag => out.extend_from_slice(&[]),
        Value::Unsigned(n) => push_unsigned(out, style.plain(), n),
        Value::Signed(z) => push_signed(out, style.plain(), z),
        Value::Text(text) => push_text(out, text),
        Value::Mac(octets) => out.extend_from_slice(&octets),
        Value::Ipv4(address) => out.extend_from_slice(&address.octets()),
        Value::Ipv6(address) => out.extend_from_slice(&address.octets()),
    }
}
