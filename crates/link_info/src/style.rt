//! Rows: the number, the name and the style of an attribute.

ghost use Rattle.std.specs.Prelude.{◌≡◌};
ghost use Rattle.std.specs.Int.{byte_len};
ghost use Rattle.link_info.specs.Styles.{plain_in, plain_size, width};

use crate::place::Place;

/// How many bytes a number has.
#[derive(Clone, Copy, Debug, Drop)]
pub enum Size {
    /// One byte.
    One,
    /// Two bytes.
    Two,
    /// Four bytes.
    Four,
    /// Eight bytes.
    Eight,
}

impl Size {
    /// The number of bytes.
    pub fn bytes(self) -> usize
        ensures { result ≡ byte_len (width self) }
    {
        match self {
            Size::One => 1,
            Size::Two => 2,
            Size::Four => 4,
            Size::Eight => 8,
        }
    }
}

/// Numbers that have a name, and their names.
pub type Names = &'static [(u64, &'static str)];

/// How a value of a fixed size is spelled in bytes.
#[derive(Clone, Copy, Debug, Drop)]
pub enum Plain {
    /// A number in host order, lowest byte first.
    Unsigned(Size),
    /// A number in network order, highest byte first.
    BigEndian(Size),
    /// A signed number in host order, in two's complement.
    Signed(Size),
    /// A number in host order, one of those that have a name.
    Named(Size, Names),
    /// A number in network order, one of those that have a name.
    BigEndianNamed(Size, Names),
    /// A number in host order whose bits have names.
    Flags(Size, Names),
    /// A number in network order whose bits have names.
    BigEndianFlags(Size, Names),
    /// A hardware address of six bytes.
    Mac,
    /// An IPv4 address, its four octets in order.
    Ipv4,
    /// An IPv6 address, its sixteen octets in order.
    Ipv6,
    /// So many bytes, of which no more is known.
    Octets(usize),
}

impl Plain {
    /// The number of bytes.
    pub fn size(self) -> usize
        ensures { result ≡ plain_size self }
    {
        match self {
            Plain::Unsigned(size) | Plain::BigEndian(size) | Plain::Signed(size) => size.bytes(),
            Plain::Named(size, _) | Plain::BigEndianNamed(size, _) => size.bytes(),
            Plain::Flags(size, _) | Plain::BigEndianFlags(size, _) => size.bytes(),
            Plain::Mac => 6,
            Plain::Ipv4 => 4,
            Plain::Ipv6 => 16,
            Plain::Octets(size) => size,
        }
    }
}

/// A member of a record: its name, and how it is spelled.
#[derive(Clone, Copy, Debug, Drop)]
pub struct Member(pub &'static str, pub Plain);

/// How a value is spelled of which a list has any number, each in an attribute of its own.
#[derive(Clone, Copy, Debug, Drop)]
pub enum Element {
    /// One value of a fixed size.
    Plain(Plain),
    /// The members of a record, one after the other, with no padding between them.
    Record(&'static [Member]),
    /// Attributes that have a table of their own.
    Nest(Place),
}

/// How the payload of an attribute is spelled.
#[derive(Clone, Copy, Debug, Drop)]
pub enum Style {
    /// Any bytes.
    Bytes,
    /// No bytes: that the attribute is there says it.
    Flag,
    /// UTF-8, which may end in one NUL.
    Text,
    /// One value of a fixed size.
    Plain(Plain),
    /// The members of a record, one after the other, with no padding between them.
    Record(&'static [Member]),
    /// Values of one fixed size, one after the other.
    Array(Plain),
    /// Attributes of any numbers, whose payloads are values of one fixed size.
    List(Plain),
    /// Attributes that have a table of their own.
    Nest(Place),
    /// One value of a list, which has an attribute of this number for each, in order.
    Each(Element),
}

impl Style {
    /// How its values are spelled, where they are of a fixed size.
    pub fn plain(self) -> Plain
        ensures { result ≡ plain_in self }
    {
        match self {
            Style::Plain(plain) | Style::Each(Element::Plain(plain)) => plain,
            _ => Plain::Octets(0),
        }
    }
}

/// A row of a table: the number of an attribute, its name, and how its payload is spelled.
#[derive(Clone, Copy, Debug, Drop)]
pub struct Row(pub u16, pub &'static str, pub Style);
