//! Payloads read by their style.

ghost use Rattle.std.specs.Prelude.{◌≡◌, ◌<◌, ◌==◌, length};
ghost use Rattle.nla_wire.specs.Payloads.{address_of_octets};
ghost use Rattle.nla_wire.specs.Items.{items};
ghost use Rattle.link_info.specs.Styles.{form, plain_size, record_size, is_multiple, are_frames, are_frames_of};
ghost use Rattle.link_info.specs.Meanings.{meaning, plain_meaning, plain_of, text_meaning, read_as, ValueFits};

use crate::number::{host_number, network_number, signed_number};
use crate::style::{Element, Member, Plain, Style};
use crate::value::Value;
use nla_wire::{NlasIterator, borrow_string};
use std::net::{Ipv4Addr, Ipv6Addr};

/// Reads a hardware address.
fn mac(bytes: &[u8]) -> [u8; 6]
    requires { length bytes.now ≡ 6 }
    ensures { result ≡ bytes.now }
{
    [bytes[0], bytes[1], bytes[2], bytes[3], bytes[4], bytes[5]]
}

/// Reads an IPv4 address.
fn ipv4(bytes: &[u8]) -> Ipv4Addr
    requires { length bytes.now ≡ 4 }
    ensures { result.octets ≡ bytes.now }
{
    Ipv4Addr::from_octets([bytes[0], bytes[1], bytes[2], bytes[3]])
}

/// Reads an IPv6 address.
fn ipv6(bytes: &[u8]) -> Ipv6Addr
    requires { length bytes.now ≡ 16 }
    ensures { result ≡ address_of_octets bytes.now }
{
    let mut octets = [0; 16];
    octets.copy_from_slice(bytes);
    Ipv6Addr::from_octets(octets)
}

/// Reads a value of a fixed size, which the bytes have.
pub fn read_plain(plain: Plain, bytes: &[u8]) -> Value<'_>
    requires { length bytes.now ≡ plain_size plain }
    ensures meaning { meaning result ≡ plain_meaning plain bytes.now }
    ensures fits { ValueFits (form plain) (meaning result) }
{
    match plain {
        Plain::Unsigned(size) | Plain::Named(size, _) | Plain::Flags(size, _) => {
            Value::Unsigned(host_number(size, bytes))
        }
        Plain::BigEndian(size) | Plain::BigEndianNamed(size, _) => {
            Value::Unsigned(network_number(size, bytes))
        }
        Plain::BigEndianFlags(size, _) => Value::Unsigned(network_number(size, bytes)),
        Plain::Signed(size) => Value::Signed(signed_number(size, bytes)),
        Plain::Mac => Value::Mac(mac(bytes)),
        Plain::Ipv4 => Value::Ipv4(ipv4(bytes)),
        Plain::Ipv6 => Value::Ipv6(ipv6(bytes)),
        Plain::Octets(_) => Value::Bytes(bytes),
    }
}

/// Whether a record of these members has so many bytes.
pub(crate) fn has_size(members: &[Member], len: usize) -> bool
    ensures { result ≡ (record_size members.now == len) }
{
    let mut left = len;
    for Member(_, plain) in members {
        let size = plain.size();
        if left < size {
            return false;
        }
        left -= size;
    }
    left == 0
}

/// Whether so many bytes are a number of values of this size, which is not 0.
pub(crate) fn is_whole_number(size: usize, len: usize) -> bool
    ensures { result ≡ is_multiple size len }
{
    size != 0 && len % size == 0
}

/// Whether the bytes are whole frames.
pub(crate) fn are_whole(bytes: &[u8]) -> bool
    ensures { result ≡ are_frames (items bytes.now) }
{
    for item in NlasIterator::new(bytes) {
        if item.is_err() {
            return false;
        }
    }
    true
}

/// Whether the bytes are whole frames whose payloads have this size.
pub(crate) fn are_elements(bytes: &[u8], size: usize) -> bool
    ensures { result ≡ are_frames_of size (items bytes.now) }
{
    for item in NlasIterator::new(bytes) {
        let Ok(frame) = item else {
            return false;
        };
        if frame.value().len() != size {
            return false;
        }
    }
    true
}

/// Reads a text, or keeps the bytes that are none.
fn read_text(bytes: &[u8]) -> Value<'_>
    ensures { meaning result ≡ text_meaning bytes.now }
{
    match borrow_string(bytes) {
        Ok(text) => Value::Text(text),
        Err(_) => Value::Bytes(bytes),
    }
}

/// Reads a payload as its style says, and keeps the bytes of one that is not of this form.
pub fn read<'a>(style: Style, payload: &'a [u8]) -> Value<'a>
    ensures meaning { meaning result ≡ read_as style payload.now }
    ensures fits { ValueFits (plain_of style) (meaning result) }
{
    match style {
        Style::Flag if payload.is_empty() => Value::Flag,
        Style::Text => read_text(payload),
        Style::Plain(plain) | Style::Each(Element::Plain(plain)) if payload.len() == plain.size() =>
            read_plain(plain, payload),
        Style::Record(members) | Style::Each(Element::Record(members))
            if has_size(members, payload.len()) => Value::Record(members, payload),
        Style::Array(plain) if is_whole_number(plain.size(), payload.len()) => Value::Array(
            plain, payload,
        ),
        Style::List(plain) if are_elements(payload, plain.size()) => Value::List(plain, payload),
        Style::Nest(place) | Style::Each(Element::Nest(place)) if are_whole(payload) => {
            Value::Nest(place, payload)
        }
        _ => Value::Bytes(payload),
    }
}
