//! Settings of IPv4 as the kernel is asked to change them: an attribute for each that is not zero.

ghost use Rattle.std.specs.Prelude.{◌≡◌, ◌+◌, ◌-◌, ◌≤◌, length};
ghost use Rattle.nla_wire.specs.Canon.{canon, Filled};
ghost use Rattle.link_afspec.specs.Requests.{setting_frame, setting_encoding, request_encoding};

use link_recs::InetDevConf;
use link_recs::inet::INET_DEV_CONF_COUNT;
use nla_wire::{NLA_HEADER_SIZE, fill_bytes, to_u16};

/// The bytes of a setting's attribute: its header and a number of four bytes.
const SETTING_LEN: usize = NLA_HEADER_SIZE + 4;

/// The attribute of a setting.
fn setting_attribute(number: u16, value: i32) -> [u8; SETTING_LEN]
    ensures { result ≡ canon (setting_frame (record { number = number; value = value })) }
{
    let [kind_low, kind_high] = number.to_le_bytes();
    let [a, b, c, d] = value.to_le_bytes();
    [8, 0, kind_low, kind_high, a, b, c, d]
}

/// The length of a setting's encoding: none where it is zero; for the proof: the clause names the number.
fn setting_len(_number: u16, value: i32) -> usize
    ensures text { result ≡ length (setting_encoding (record { number = _number; value = value })) }
    ensures short { result ≤ 8 }
{
    if value == 0 { 0 } else { SETTING_LEN }
}

/// Writes a setting at the end of the buffer, if it is not zero, and returns where it starts.
fn fill_setting(buffer: &mut [u8], number: u16, value: i32) -> usize
    requires { length (setting_encoding (record { number = number; value = value }))
        ≤ length buffer.old }
    ensures { Filled buffer.old buffer.new
        (setting_encoding (record { number = number; value = value })) result }
{
    if value == 0 {
        return buffer.len();
    }
    fill_bytes(buffer, &setting_attribute(number, value))
}

/// The length of the encoding of a request for these settings.
pub(crate) fn request_len(conf: &InetDevConf) -> usize
    ensures { result ≡ length (request_encoding conf.now) }
{
    let mut len = 0;
    for number in 1..INET_DEV_CONF_COUNT + 1 {
        len += setting_len(to_u16(number), conf.setting(number));
    }
    len
}

/// Writes a request for these settings at the end of the buffer, the last setting first, and returns where it starts.
/// The bytes before are kept.
pub(crate) fn fill_request(conf: &InetDevConf, buffer: &mut [u8]) -> usize
    requires { length (request_encoding conf.now) ≤ length buffer.old }
    ensures { Filled buffer.old buffer.new (request_encoding conf.now) result }
{
    let mut start = buffer.len();
    let mut number = INET_DEV_CONF_COUNT;
    while number > 0 {
        start = fill_setting(&mut buffer[..start], to_u16(number), conf.setting(number));
        number -= 1;
    }
    start
}
