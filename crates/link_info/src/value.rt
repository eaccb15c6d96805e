//! What the payload of an attribute says.

use crate::place::Place;
use crate::style::{Member, Plain};
use std::net::{Ipv4Addr, Ipv6Addr};

/// What the payload of an attribute says. What holds other values keeps their bytes, and how these are read.
#[derive(Clone, Copy, Debug, Drop)]
pub enum Value<'a> {
    /// Bytes, of which no more is known.
    Bytes(&'a [u8]),
    /// That the attribute is there.
    Flag,
    /// A number, which may have a name, or bits that have names.
    Unsigned(u64),
    /// A signed number.
    Signed(i64),
    /// A text, without the NUL at its end.
    Text(&'a str),
    /// A hardware address.
    Mac([u8; 6]),
    /// An IPv4 address.
    Ipv4(Ipv4Addr),
    /// An IPv6 address.
    Ipv6(Ipv6Addr),
    /// The members of a record.
    Record(&'static [Member], &'a [u8]),
    /// Values of one fixed size.
    Array(Plain, &'a [u8]),
    /// Attributes whose payloads are values of one fixed size.
    List(Plain, &'a [u8]),
    /// Attributes that have a table of their own.
    Nest(Place, &'a [u8]),
}
