//! How values are compared, and calls of which no more is known than their answers.

use link_info::info::{Info, InfoError};
use link_info::{Field, Fields, Row, Value};
use nla_wire::DecodeError;
use std::alloc::Global;

/// Whether two values say the same: of those that hold others, the same bytes.
pub fn are_same(one: Value<'_>, other: Value<'_>) -> bool {
    match (one, other) {
        (Value::Bytes(one), Value::Bytes(other)) => one == other,
        (Value::Flag, Value::Flag) => true,
        (Value::Unsigned(one), Value::Unsigned(other)) => one == other,
        (Value::Signed(one), Value::Signed(other)) => one == other,
        (Value::Text(one), Value::Text(other)) => one == other,
        (Value::Mac(one), Value::Mac(other)) => one == other,
        (Value::Ipv4(one), Value::Ipv4(other)) => one == other,
        (Value::Ipv6(one), Value::Ipv6(other)) => one == other,
        (Value::Record(_, one), Value::Record(_, other)) => one == other,
        (Value::Array(_, one), Value::Array(_, other)) => one == other,
        (Value::List(_, one), Value::List(_, other)) => one == other,
        (Value::Nest(_, one), Value::Nest(_, other)) => one == other,
        _ => false,
    }
}

/// Sets a value; for the proof: what the call promises stays here.
pub fn set(info: &mut Info, alloc: Global, name: &str, value: Value<'_>) -> Result<(), InfoError> {
    info.set(alloc, name, value)
}

/// Sets flags; for the proof: what the call promises stays here.
pub fn set_flags(
    info: &mut Info,
    alloc: Global,
    name: &str,
    flags: &[&str],
) -> Result<(), InfoError> {
    info.set_flags(alloc, name, flags)
}

/// Attributes in canonical encoding; for the proof: what the call promises stays here.
pub fn rewrite(alloc: Global, rows: &'static [Row], bytes: &[u8]) -> Result<Vec<u8>, InfoError> {
    link_info::rewrite(alloc, rows, bytes)
}

/// Adds a field; for the proof: what the call promises stays here.
pub fn push_field(alloc: Global, out: &mut Vec<u8>, field: &Field<'_>) -> Result<(), InfoError> {
    link_info::push_field(alloc, out, field)
}

/// The next field; for the proof: what the call promises stays here.
pub fn next_field<'a>(fields: &mut Fields<'a>) -> Option<Result<Field<'a>, DecodeError>> {
    fields.next()
}
