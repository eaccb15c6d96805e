//! Hardware addresses, and addresses of IPv4.

ghost use Rattle.std.specs.Prelude.{◌≡◌, ◌+◌, ◌*◌, ◌<◌, ◌≤◌, IfOk, length, string_bytes, take};
ghost use Rattle.std.specs.Net.Text.{ipv4_text};
ghost use Rattle.json.specs.Filled.{Placed};
ghost use Rattle.shown.specs.Values.{hardware_address, octet_text};

use crate::block::put_byte;
use crate::digits::put_number;
use std::alloc::{AllocError, Global};

const DIGITS: [char; 16] = [
    '0', '1', '2', '3', '4', '5', '6', '7', '8', '9', 'a', 'b', 'c', 'd', 'e', 'f',
];

/// Two digits for each byte, with colons between them.
pub(crate) fn address_text(alloc: Global, bytes: &[u8]) -> Result<String, AllocError>
    ensures { IfOk result (λ text. string_bytes text ≡ hardware_address bytes.now) }
{
    let mut text = String::with_capacity(alloc, bytes.len().saturating_mul(3))?;
    for (i, byte) in bytes.iter().enumerate() {
        if i > 0 {
            text.push(':')?;
        }
        text.push(DIGITS[(*byte / 16) as usize])?;
        text.push(DIGITS[(*byte % 16) as usize])?;
    }
    Ok(text)
}

const LOWER: [u8; 16] = [
    b'0', b'1', b'2', b'3', b'4', b'5', b'6', b'7', b'8', b'9', b'a', b'b', b'c', b'd', b'e', b'f',
];

/// Stores the two digits of a byte.
#[inline(always)]
fn put_octet(buf: &mut [u8], at: usize, byte: u8) -> usize
    requires { at + 1 < length buf.old }
    ensures { Placed buf.old buf.new at (octet_text byte) result }
{
    let middle = put_byte(buf, at, LOWER[(byte / 16) as usize]);
    put_byte(buf, middle, LOWER[(byte % 16) as usize])
}

/// Stores two digits for each byte, with colons between them; where they end.
pub(crate) fn put_address(buf: &mut [u8], bytes: &[u8]) -> usize
    requires room { length bytes.now * 3 ≤ length buf.old }
    ensures text { take result buf.new ≡ hardware_address bytes.now }
    ensures within { result ≤ length buf.new }
{
    let mut end = 0;
    for (i, byte) in bytes.iter().enumerate() {
        if i > 0 {
            end = put_byte(buf, end, b':');
        }
        end = put_octet(buf, end, *byte);
    }
    end
}

/// The room that four numbers are stored in, with dots between them.
pub(crate) const DOTTED: usize = 96;

/// Stores four numbers with dots between them; where they end.
pub(crate) fn put_ipv4(buf: &mut [u8], octets: &[u8; 4]) -> usize
    requires room { 96 ≤ length buf.old }
    ensures text { take result buf.new ≡ ipv4_text octets.now }
    ensures within { result ≤ length buf.new }
{
    let mut end = put_number(buf, 0, octets[0].into());
    end = put_byte(buf, end, b'.');
    end = put_number(buf, end, octets[1].into());
    end = put_byte(buf, end, b'.');
    end = put_number(buf, end, octets[2].into());
    end = put_byte(buf, end, b'.');
    put_number(buf, end, octets[3].into())
}
