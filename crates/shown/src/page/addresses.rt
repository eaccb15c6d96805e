//! Members that are addresses, and bytes as digits.

ghost use Rattle.std.specs.Prelude.{◌≡◌, [], ◌∷◌, OnOk};
ghost use Rattle.std.specs.Net.Addr.{ipv4_octets, ipv6_segments};
ghost use Rattle.std.specs.Net.Text.{ipv4_text, ipv6_text};
ghost use Rattle.hex.specs.Hex.{encode_lower};
ghost use Rattle.json.specs.Token.{string};
ghost use Rattle.shown.specs.Values.{hardware_address};
ghost use Rattle.shown.specs.Drafts.{with_value};

use crate::address::{DOTTED, address_text, put_address, put_ipv4};
use crate::page::Page;
use hex::encode_to_slice;
use std::alloc::AllocError;
use std::fmt::InlineText;
use std::net::{Ipv4Addr, Ipv6Addr};

/// The most bytes that are written as digits without asking for memory: those of any hardware address.
const FEW: usize = 32;

/// The room that an IPv6 address is written in: eight groups of four digits with colons between them have 39 bytes.
const GROUPS: usize = 64;

/// What a text ends in that had no room.
const CUT: &[u8] = b"...";

impl Page {
    /// Adds bytes as hexadecimal digits where they are not written at once.
    #[cold]
    #[inline(never)]
    fn hex_late(&mut self, name: &str, bytes: &[u8]) -> Result<(), AllocError>
        ensures { OnOk result
            (self.new ≡ with_value name.now (string (encode_lower bytes.now) ∷ []) self.old) }
    {
        let text = hex::encode(self.alloc, bytes)?;
        self.string(name, text.as_str())
    }

    /// Adds a hardware address where it is not written at once.
    #[cold]
    #[inline(never)]
    fn address_late(&mut self, name: &str, bytes: &[u8]) -> Result<(), AllocError>
        ensures { OnOk result
            (self.new ≡ with_value name.now (string (hardware_address bytes.now) ∷ []) self.old) }
    {
        let text = address_text(self.alloc, bytes)?;
        self.string(name, text.as_str())
    }

    /// Adds bytes as hexadecimal digits. Those of a few take no memory.
    pub fn hex(&mut self, name: &str, bytes: &[u8]) -> Result<(), AllocError>
        ensures { OnOk result
            (self.new ≡ with_value name.now (string (encode_lower bytes.now) ∷ []) self.old) }
    {
        if bytes.len() <= FEW {
            let mut room = [0u8; 2 * FEW];
            let digits = &mut room[..2 * bytes.len()];
            if encode_to_slice(bytes, digits).is_ok() && self.try_text::<false>(name, digits) {
                return Ok(());
            }
        }
        self.hex_late(name, bytes)
    }

    /// Adds a hardware address. One of a few bytes takes no memory.
    pub fn address(&mut self, name: &str, bytes: &[u8]) -> Result<(), AllocError>
        ensures { OnOk result
            (self.new ≡ with_value name.now (string (hardware_address bytes.now) ∷ []) self.old) }
    {
        if bytes.len() <= FEW {
            let mut octets = [0u8; 3 * FEW];
            let end = put_address(&mut octets, bytes);
            if self.try_text::<false>(name, &octets[..end]) {
                return Ok(());
            }
        }
        self.address_late(name, bytes)
    }

    /// Adds an IPv4 address where it is not written at once.
    #[cold]
    #[inline(never)]
    fn ipv4_late(&mut self, name: &str, address: &Ipv4Addr) -> Result<(), AllocError>
        ensures { OnOk result
            (self.new ≡ with_value name.now (string (ipv4_text (ipv4_octets address.now)) ∷ [])
            self.old) }
    {
        let dotted = format!(in self.alloc; "{address}")?;
        self.string(name, dotted.as_str())
    }

    /// Adds an IPv4 address, as four decimal numbers with dots between them. It takes no memory.
    pub fn ipv4_address(&mut self, name: &str, address: &Ipv4Addr) -> Result<(), AllocError>
        ensures { OnOk result
            (self.new ≡ with_value name.now (string (ipv4_text (ipv4_octets address.now)) ∷ [])
            self.old) }
    {
        let mut dotted = [0u8; DOTTED];
        let end = put_ipv4(&mut dotted, &address.octets());
        if self.try_text::<false>(name, &dotted[..end]) {
            return Ok(());
        }
        self.ipv4_late(name, address)
    }

    /// Adds an IPv6 address where it is not written without memory.
    #[cold]
    #[inline(never)]
    fn ipv6_late(&mut self, name: &str, address: &Ipv6Addr) -> Result<(), AllocError>
        ensures { OnOk result
            (self.new ≡ with_value name.now (string (ipv6_text (ipv6_segments address.now)) ∷ [])
            self.old) }
    {
        let text = format!(in self.alloc; "{address}")?;
        self.string(name, text.as_str())
    }

    /// Adds an IPv6 address, as RFC 5952 writes it. It takes no memory.
    pub fn ipv6_address(&mut self, name: &str, address: &Ipv6Addr) -> Result<(), AllocError>
        ensures { OnOk result
            (self.new ≡ with_value name.now (string (ipv6_text (ipv6_segments address.now)) ∷ [])
            self.old) }
    {
        let groups = InlineText::<GROUPS>::of(*address);
        let text = groups.as_str();
        if text.as_bytes().ends_with(CUT) {
            return self.ipv6_late(name, address);
        }
        self.string(name, text)
    }
}
