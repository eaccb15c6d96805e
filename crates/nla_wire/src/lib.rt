//! Attribute frames of netlink messages, read and written.
// Tests: the crate `value_tests`. Edits: edits/nla_wire.txt.
#![tactic(auto)]

pub mod buffer;
pub mod default_nla;
pub mod error;
pub mod exact;
pub mod fields;
pub mod fill;
pub mod flat;
pub mod iterator;
pub mod laws;
pub mod members;
pub mod nla;
pub mod nla_read;
pub mod number;
pub mod payload;
pub mod place;
pub mod record;
pub mod text;
pub mod values;
pub mod write;

/// The name of the constant that has this number, among those that are listed; empty where none has it. For `kind_name`
/// of a place: each name is typed once, and is that of its number.
#[macro_export]
macro_rules! kind_names {
    ($kind:expr; $($name:ident),+ $(,)?) => {
        match $kind {
            $($name => stringify!($name),)+
            _ => "",
        }
    };
}

/// The `match` of one call of a place, made of a row for each member that is listed: how it is held, its variant, what
/// it holds or the number that it is on the wire, its kind, and what more `member!` needs.
#[macro_export]
macro_rules! rows {
    ((kind $place:ident, $value:expr) $($how:ident $variant:ident($type:ident, $number:ident $($more:tt)*))+) => {
        match $value {
            $($place::$variant(_) => $number,)+
            $place::Other(nla) => nla.kind(),
        }
    };
    ((name $kind:ident) $($how:ident $variant:ident($type:ident, $number:ident $($more:tt)*))+) => {
        match $kind {
            $($number => stringify!($number),)+
            _ => "",
        }
    };
    ((view $place:ident, $value:expr) $($how:ident $variant:ident($type:ident, $number:ident $($more:tt)*))+) => {
        match $value {
            $($place::$variant(member) => ($number, $crate::member!(view $how $type, member)),)+
            $place::Other(nla) => (nla.kind(), $crate::FlatView::Bytes(nla.value())),
        }
    };
    ((size $place:ident, $value:expr) $($how:ident $variant:ident($type:ident, $number:ident $($more:tt)*))+) => {
        match $value {
            $($place::$variant(member) => $crate::member!(size $how $type, member $($more)*),)+
            $place::Other(nla) => nla.measure(),
        }
    };
    ((fill $place:ident, $value:expr, $buffer:ident)
        $($how:ident $variant:ident($type:ident, $number:ident $($more:tt)*))+) => {
        match $value {
            $($place::$variant(member) => $crate::member!(fill $how $type, member, $buffer $($more)*),)+
            $place::Other(nla) => nla.fill_value($buffer),
        }
    };
    ((put $place:ident, $value:expr, $buffer:ident)
        $($how:ident $variant:ident($type:ident, $number:ident $($more:tt)*))+) => {
        match $value {
            $($place::$variant(member) => $crate::member!(put $how $number, member, $buffer $($more)*),)+
            $place::Other(nla) => nla.write($buffer),
        }
    };
    ((copy $place:ident, $value:expr, $alloc:ident)
        $($how:ident $variant:ident($type:ident, $number:ident $($more:tt)*))+) => {
        match $value {
            $($place::$variant(member) => $crate::member!(copy $how $place, $variant, member, $alloc),)+
            $place::Other(nla) => Ok($place::Other(nla.clone_in($alloc)?)),
        }
    };
    ((parse $place:ident, $alloc:ident, $buffer:ident)
        $($how:ident $variant:ident($type:ident, $number:ident $($more:tt)*))+) => {{
        let payload = $buffer.value();
        match $buffer.kind() {
            $($number => $crate::member!(parse $how $type, $place, $variant, $alloc, payload $($more)*),)+
            _ => Ok($place::Other($crate::DefaultNla::parse($alloc, $buffer)?)),
        }
    }};
    ((check $buffer:ident) $($how:ident $variant:ident($type:ident, $number:ident $($more:tt)*))+) => {{
        let payload = $buffer.value();
        match $buffer.kind() {
            $($number => $crate::member!(check $how $type, payload $($more)*),)+
            _ => Ok(()),
        }
    }};
    ((measure $buffer:ident) $($how:ident $variant:ident($type:ident, $number:ident $($more:tt)*))+) => {{
        let payload = $buffer.value();
        match $buffer.kind() {
            $($number => $crate::member!(measure $how $type, payload),)+
            _ => Some(payload.len()),
        }
    }};
    ((write $buffer:ident, $out:ident) $($how:ident $variant:ident($type:ident, $number:ident $($more:tt)*))+) => {{
        let payload = $buffer.value();
        match $buffer.kind() {
            $($number => $crate::member!(write $how $type, $number, payload, $out),)+
            _ => $crate::write_value($buffer.kind_with_flags(), payload, $out),
        }
    }};
}

/// What a call does with one member, by how it is held. `plain` is a number of that many bytes. The function at the end
/// of a row reads a `named` number, whose type keeps all, a `listed` one, which refuses others, and `flags`. `text`
/// ends in one NUL, `address` is one of IPv6. A record that is too short is filled up with zeros if it is `filled`, and
/// else refused: `whole` is written as it was read, and `long` has an array of bytes, so that a function counts its
/// length, and is written from its buffer. `list` may be empty, `some` may not.
#[macro_export]
macro_rules! member {
    (view plain i32, $value:ident) => { $crate::FlatView::I32(*$value) };
    (view plain u32, $value:ident) => { $crate::FlatView::U32(*$value) };
    (view plain u64, $value:ident) => { $crate::FlatView::U64(*$value) };
    (view listed u8, $value:ident) => { $crate::FlatView::U8(u8::from(*$value)) };
    (view named u8, $value:ident) => { $crate::FlatView::U8(u8::from($value)) };
    (view text $type:ident, $value:ident) => { $crate::FlatView::Text($value.as_str()) };

    (size named u8, $value:ident, $read:ident) => {{ let _ = $value; Some(1) }};
    (size $how:ident u32, $value:ident $($more:tt)*) => {{ let _ = $value; Some(4) }};
    (size address $type:ident, $value:ident) => { $crate::at_most_value($value.octets().len()) };
    (size long $type:ident, $value:ident, $len:ident, $buffer:ident) => { $crate::at_most_value($len($value)) };
    (size list $type:ident, $value:ident) => { $crate::list_measure($value.as_slice()) };
    (size some $type:ident, $value:ident) => { $crate::list_measure($value.as_slice()) };
    (size $how:ident $type:ident, $value:ident) => { Some($value.buffer_len()) };

    (fill plain u32, $value:ident, $out:ident) => { $crate::fill_bytes($out, &$value.to_le_bytes()) };
    (fill named u8, $value:ident, $out:ident, $read:ident) => { $crate::fill_bytes($out, &[u8::from($value)]) };
    (fill flags u32, $value:ident, $out:ident, $read:ident) => {
        $crate::fill_bytes($out, &$value.bits().to_le_bytes())
    };
    (fill address $type:ident, $value:ident, $out:ident) => { $crate::fill_bytes($out, &$value.octets()) };
    (fill long $type:ident, $value:ident, $out:ident, $len:ident, $buffer:ident) => {
        $crate::fill_bytes($out, $buffer::from($value).as_bytes())
    };
    (fill list $type:ident, $value:ident, $out:ident) => { $crate::nlas_fill($value.as_slice(), $out) };
    (fill some $type:ident, $value:ident, $out:ident) => { $crate::nlas_fill($value.as_slice(), $out) };
    (fill record $type:ident, $value:ident, $out:ident) => { $value.fill_back($out) };
    (fill $how:ident $type:ident, $value:ident, $out:ident) => { $value.fill($out) };

    (put long $number:ident, $value:ident, $out:ident, $len:ident, $buffer:ident) => {
        $crate::write_value($number, $buffer::from($value).as_bytes(), $out)
    };
    (put list $number:ident, $value:ident, $out:ident) => { $crate::write_list($number, $value.as_slice(), $out) };
    (put some $number:ident, $value:ident, $out:ident) => { $crate::write_list($number, $value.as_slice(), $out) };
    (put record $number:ident, $value:ident, $out:ident) => { $value.write_attribute($number, $out) };

    (copy text $($held:tt)*) => { $crate::member!(copy list $($held)*) };
    (copy some $($held:tt)*) => { $crate::member!(copy list $($held)*) };
    (copy list $place:ident, $variant:ident, $value:ident, $alloc:ident) => {
        Ok($place::$variant($value.clone_in($alloc)?))
    };
    (copy $how:ident $place:ident, $variant:ident, $value:ident, $alloc:ident) => { Ok($place::$variant(*$value)) };

    (read plain i32, $payload:ident) => { $crate::parse_i32($payload) };
    (read plain u32, $payload:ident) => { $crate::parse_u32($payload) };
    (read plain u64, $payload:ident) => { $crate::parse_u64($payload) };
    (read address $type:ident, $payload:ident) => { $crate::parse_ipv6_addr($payload) };
    (read $how:ident $type:ident, $payload:ident, $read:ident) => { $read($payload) };
    (read $how:ident $type:ident, $payload:ident) => { $type::parse($payload) };

    (parse text $type:ident, $place:ident, $variant:ident, $alloc:ident, $payload:ident) => {
        Ok($place::$variant($crate::parse_string($alloc, $payload)?))
    };
    (parse list $type:ident, $place:ident, $variant:ident, $alloc:ident, $payload:ident) => {
        Ok($place::$variant(List::new($type::parse_list($alloc, $payload)?)))
    };
    (parse some $type:ident, $place:ident, $variant:ident, $alloc:ident, $payload:ident) => {
        if $payload.is_empty() {
            Err($crate::empty_list())
        } else {
            Ok($place::$variant(List::new($type::parse_list($alloc, $payload)?)))
        }
    };
    (parse filled $type:ident, $place:ident, $variant:ident, $alloc:ident, $payload:ident) => {
        Ok($place::$variant($type::read_padded($payload)))
    };
    (parse long $type:ident, $place:ident, $variant:ident, $alloc:ident, $payload:ident $($more:tt)*) => {
        Ok($place::$variant($type::parse($payload)?))
    };
    (parse $how:ident $type:ident, $place:ident, $variant:ident, $alloc:ident, $payload:ident $($more:tt)*) => {
        Ok($place::$variant($crate::member!(read $how $type, $payload $($more)*)?))
    };

    (check text $type:ident, $payload:ident) => { $crate::check_string($payload) };
    (check list $type:ident, $payload:ident) => { $type::check_list($payload) };
    (check some $type:ident, $payload:ident) => {
        if $payload.is_empty() { Err($crate::empty_list()) } else { $type::check_list($payload) }
    };
    (check filled $type:ident, $payload:ident) => { Ok(()) };
    (check long $type:ident, $payload:ident $($more:tt)*) => { $crate::error::checked($type::parse($payload)) };
    (check $($held:tt)*) => { $crate::error::checked($crate::member!(read $($held)*)) };

    (measure $how:ident u8, $payload:ident) => { $crate::measure_u8($payload) };
    (measure $how:ident i32, $payload:ident) => { $crate::measure_i32($payload) };
    (measure $how:ident u32, $payload:ident) => { $crate::measure_u32($payload) };
    (measure $how:ident u64, $payload:ident) => { $crate::measure_u64($payload) };
    (measure text $type:ident, $payload:ident) => { $crate::measure_text($payload) };
    (measure address $type:ident, $payload:ident) => { $crate::measure_ipv6_addr($payload) };
    (measure list $type:ident, $payload:ident) => { $type::measure_nested($payload) };
    (measure some $type:ident, $payload:ident) => { $type::measure_some($payload) };
    (measure filled $type:ident, $payload:ident) => { $type::measure_filled($payload) };
    (measure $how:ident $type:ident, $payload:ident) => { $type::measure_sized($payload) };

    (write $how:ident u8, $($args:tt)*) => { $crate::write_u8_payload($($args)*) };
    (write $how:ident i32, $($args:tt)*) => { $crate::write_i32_payload($($args)*) };
    (write $how:ident u32, $($args:tt)*) => { $crate::write_u32_payload($($args)*) };
    (write $how:ident u64, $($args:tt)*) => { $crate::write_u64_payload($($args)*) };
    (write text $type:ident, $($args:tt)*) => { $crate::write_text_payload($($args)*) };
    (write address $type:ident, $($args:tt)*) => { $crate::write_ipv6_addr_payload($($args)*) };
    (write list $type:ident, $($args:tt)*) => { $type::write_nested($($args)*) };
    (write some $type:ident, $($args:tt)*) => { $type::write_some($($args)*) };
    (write filled $type:ident, $($args:tt)*) => { $type::write_filled($($args)*) };
    (write whole $type:ident, $($args:tt)*) => { $type::write_filled($($args)*) };
    (write $how:ident $type:ident, $($args:tt)*) => { $type::write_sized($($args)*) };
}

pub use buffer::{NLA_F_NESTED, NLA_F_NET_BYTEORDER, NLA_HEADER_SIZE, NLA_TYPE_MASK, NlaBuffer};
pub use default_nla::DefaultNla;
pub use error::{Cause, DecodeError, PAYLOAD, empty_list, same_fault};
pub use exact::Exact;
pub use fill::{fill_bytes, fill_text};
pub use flat::{Flat, FlatView};
pub use iterator::NlasIterator;
pub use members::{
    check_members, measure_members, measure_nested_members, parse_members, write_members,
    write_nested_members,
};
pub use nla::{
    Nla, emit_nlas, list_fits, list_measure, nlas_buffer_len, nlas_fill, nlas_fit, nlas_measure,
    nlas_write, write_list,
};
pub use nla_read::{NlaRead, OwnPlace};
pub use number::{
    emit_i32, emit_u16, emit_u32, emit_u64, parse_i32, parse_ipv6_addr, parse_u8, parse_u16,
    parse_u32, parse_u64, to_u16,
};
pub use payload::{
    measure_i32, measure_ipv6_addr, measure_text, measure_u8, measure_u16, measure_u32,
    measure_u64, write_filled_payload, write_i32_payload, write_ipv6_addr_payload,
    write_text_payload, write_u8_payload, write_u16_payload, write_u32_payload, write_u64_payload,
};
pub use place::{Place, check_one, parse_one};
pub use record::{PlainRecord, Record, RecordBuffer, measure_by_size};
pub use text::{borrow_string, check_string, parse_string};
pub use values::{Bytes, CloneIn, List, Text};
pub use write::{
    MOST_VALUE_LEN, add_len, at_most_value, finish, nla_align, padded_len, write_bytes, write_i32,
    write_text, write_u8, write_u16, write_u32, write_u64, write_value,
};
