//! Numbers of any size.

ghost use Rattle.std.specs.Prelude.{◌≡◌, ◌<◌, ◌^◌, ◌*◌, length, FitsSigned};
ghost use Rattle.std.specs.Int.{byte_len, from_le_bytes, from_be_bytes, cast_signed};
ghost use Rattle.link_info.specs.Styles.{width};

use crate::style::Size;

/// The number that the bytes are in host order, lowest byte first.
pub(crate) fn host_number(size: Size, bytes: &[u8]) -> u64
    requires { length bytes.now ≡ byte_len (width size) }
    ensures { result ≡ from_le_bytes (width size) bytes.now }
{
    match size {
        Size::One => bytes[0].into(),
        Size::Two => u16::from_le_bytes([bytes[0], bytes[1]]).into(),
        Size::Four => u32::from_le_bytes([bytes[0], bytes[1], bytes[2], bytes[3]]).into(),
        Size::Eight => u64::from_le_bytes([
            bytes[0], bytes[1], bytes[2], bytes[3], bytes[4], bytes[5], bytes[6], bytes[7],
        ]),
    }
}

/// The number that the bytes are in network order, highest byte first.
pub(crate) fn network_number(size: Size, bytes: &[u8]) -> u64
    requires { length bytes.now ≡ byte_len (width size) }
    ensures { result ≡ from_be_bytes (width size) bytes.now }
{
    match size {
        Size::One => bytes[0].into(),
        Size::Two => u16::from_be_bytes([bytes[0], bytes[1]]).into(),
        Size::Four => u32::from_be_bytes([bytes[0], bytes[1], bytes[2], bytes[3]]).into(),
        Size::Eight => u64::from_be_bytes([
            bytes[0], bytes[1], bytes[2], bytes[3], bytes[4], bytes[5], bytes[6], bytes[7],
        ]),
    }
}

/// The signed number that the bytes are in host order, in two's complement.
pub(crate) fn signed_number(size: Size, bytes: &[u8]) -> i64
    requires { length bytes.now ≡ byte_len (width size) }
    ensures number { result ≡ cast_signed (width size) (from_le_bytes (width size) bytes.now) }
    ensures fits { FitsSigned (width size) result }
{
    match size {
        Size::One => bytes[0].cast_signed().into(),
        Size::Two => u16::from_le_bytes([bytes[0], bytes[1]])
            .cast_signed()
            .into(),
        Size::Four => u32::from_le_bytes([bytes[0], bytes[1], bytes[2], bytes[3]])
            .cast_signed()
            .into(),
        Size::Eight => host_number(Size::Eight, bytes).cast_signed(),
    }
}
