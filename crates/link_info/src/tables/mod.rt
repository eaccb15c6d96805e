//! The tables, by kind.

use crate::place::Place;
use crate::style::{Plain, Size, Style};

pub(crate) mod bond;
pub(crate) mod bridge;
pub mod can;
pub(crate) mod family;
pub(crate) mod geneve;
pub(crate) mod gre;
pub(crate) mod macsec;
pub(crate) mod macvlan;
pub(crate) mod others;
pub(crate) mod tunnel;
pub(crate) mod vlan;
pub(crate) mod vxlan;

/// A number of one byte.
const U8: Style = Style::Plain(Plain::Unsigned(Size::One));
/// A number of two bytes.
const U16: Style = Style::Plain(Plain::Unsigned(Size::Two));
/// A number of four bytes.
const U32: Style = Style::Plain(Plain::Unsigned(Size::Four));
/// A number of eight bytes.
const U64: Style = Style::Plain(Plain::Unsigned(Size::Eight));
/// A signed number of four bytes.
const I32: Style = Style::Plain(Plain::Signed(Size::Four));
/// A number of two bytes in network order.
const BE16: Style = Style::Plain(Plain::BigEndian(Size::Two));
/// A number of four bytes in network order.
const BE32: Style = Style::Plain(Plain::BigEndian(Size::Four));
/// A number of eight bytes in network order.
const BE64: Style = Style::Plain(Plain::BigEndian(Size::Eight));
/// A hardware address.
const MAC: Style = Style::Plain(Plain::Mac);
/// An IPv4 address.
const IPV4: Style = Style::Plain(Plain::Ipv4);
/// An IPv6 address.
const IPV6: Style = Style::Plain(Plain::Ipv6);

/// The attributes whose kind has the flag `NLA_F_NESTED` where kernels write them, by place and number. That of another
/// row has it not.
pub const NESTED: &[(Place, u16)] = &[(Place::Bridge, 47), (Place::Can, 16), (Place::Can, 17)];
