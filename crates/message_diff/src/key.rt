//! Which interface of its host a message is of.

ghost use Rattle.std.specs.Prelude.{◌≡◌, ◌==◌};
ghost use Rattle.message_diff.specs.Known.{is_part, reaches, in_family};
ghost use Rattle.message_diff.specs.Said.{key_in};

use link_msg::header::HEADER_SIZE;
use nla_wire::fields::u32_at;

/// The family of messages that speak of an interface alone.
pub const AF_UNSPEC: u8 = 0;

/// The family of messages that say more of a bridge or of the port of one.
pub const AF_BRIDGE: u8 = 7;

/// The family of messages that say more of an interface with IPv6.
pub const AF_INET6: u8 = 10;

/// An interface of a host.
#[derive(Clone, Copy, Debug, PartialEq, Eq, PartialOrd, Ord)]
pub struct Key {
    pub family: u8,
    pub index: u32,
}

impl Key {
    /// The interface of a message. Bytes that are too few for a header are of none.
    pub fn of(message: &[u8]) -> Option<Key>
        ensures { result ≡ key_in message.now }
    {
        if message.len() < HEADER_SIZE {
            return None;
        }
        Some(Key {
            family: message[0],
            index: u32_at(message, 4),
        })
    }

    /// Whether this is the interface alone.
    pub fn is_alone(self) -> bool
        ensures { result ≡ (self.family == 0) }
    {
        self.family == AF_UNSPEC
    }

    /// Whether this is what is said more of an interface: that of a bridge or a port, and with IPv6.
    pub fn is_part(self) -> bool
        ensures { result ≡ is_part self.family }
    {
        self.family == AF_BRIDGE || self.family == AF_INET6
    }

    /// The same interface in this family.
    pub fn in_family(self, family: u8) -> Key
        ensures { result ≡ in_family family self }
    {
        Key {
            family,
            index: self.index,
        }
    }

    /// Whether what ends in a family ends in this one's too: in AF_UNSPEC, where an interface ends, its parts do.
    pub fn is_reached_from(self, family: u8) -> bool
        ensures { result ≡ reaches family self.family }
    {
        self.family == family || (family == AF_UNSPEC && self.is_part())
    }
}
