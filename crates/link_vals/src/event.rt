//! Events of links.

ghost use Rattle.std.specs.Prelude.{◌≡◌};
ghost use Rattle.link_vals.specs.LinkEventTable.{link_event_of, link_event_number};

use nla_wire::{DecodeError, Exact, emit_u32, parse_u32};

/// Why a link announced itself anew, four bytes in host order: `IFLA_EVENT_..` of linux/if_link.h.
#[derive(Clone, Copy, Debug, Default, PartialEq, Eq)]
pub enum LinkEvent {
    /// `IFLA_EVENT_NONE`: no event.
    #[default]
    None,
    /// `IFLA_EVENT_REBOOT`: the device was reset.
    Reboot,
    /// `IFLA_EVENT_FEATURES`: features have changed.
    Features,
    /// `IFLA_EVENT_BONDING_FAILOVER`: another port of a bond is active.
    BondingFailover,
    /// `IFLA_EVENT_NOTIFY_PEERS`: peers get the address announced.
    NotifyPeers,
    /// `IFLA_EVENT_IGMP_RESEND`: reports of groups are sent again.
    IgmpResend,
    /// `IFLA_EVENT_BONDING_OPTIONS`: options of a bond have changed.
    BondingOptions,
    /// A number without a name.
    Other(u32),
}

impl From<u32> for LinkEvent {
    ghost from_gives = { λ n v. v ≡ link_event_of n };

    #[tactic(auto, unfolding(crate::proofs::Opened::link_event))]
    fn from(number: u32) -> LinkEvent {
        match number {
            0 => LinkEvent::None,
            1 => LinkEvent::Reboot,
            2 => LinkEvent::Features,
            3 => LinkEvent::BondingFailover,
            4 => LinkEvent::NotifyPeers,
            5 => LinkEvent::IgmpResend,
            6 => LinkEvent::BondingOptions,
            n => LinkEvent::Other(n),
        }
    }
}

impl From<LinkEvent> for u32 {
    ghost from_gives = { λ v n. n ≡ link_event_number v };

    #[tactic(auto, unfolding(crate::specs::LinkEventTable::link_event_number))]
    fn from(value: LinkEvent) -> u32 {
        match value {
            LinkEvent::None => 0,
            LinkEvent::Reboot => 1,
            LinkEvent::Features => 2,
            LinkEvent::BondingFailover => 3,
            LinkEvent::NotifyPeers => 4,
            LinkEvent::IgmpResend => 5,
            LinkEvent::BondingOptions => 6,
            LinkEvent::Other(n) => n,
        }
    }
}

impl LinkEvent {
    ghost use Rattle.std.specs.Prelude.{◌≤◌, ◌++◌, length, drop, MatchResult};
    ghost use Rattle.std.specs.Int.{w32, to_le_bytes};
    ghost use Rattle.nla_wire.specs.Gives.{without_place};
    ghost use Rattle.link_vals.specs.LinkEventTable.{link_event};

    /// Reads an event of exactly four bytes in host order, or refuses with `WrongLength`.
    pub fn parse(payload: &[u8]) -> Result<LinkEvent, DecodeError>
        ensures means { MatchResult result (link_event.means payload.now)
            (λ e. link_event.bad payload.now e.cause) }
        ensures reads { without_place result ≡ link_event.reads payload.now }
    {
        Ok(LinkEvent::from(parse_u32(payload)?))
    }

    /// The length of its text, 4.
    pub fn buffer_len(&self) -> usize
        ensures { result ≡ 4 }
    {
        4
    }

    /// Writes its number to the first four bytes, in host order, and keeps the rest.
    pub fn emit(&self, buffer: &mut [u8])
        requires { 4 ≤ length buffer.old }
        ensures { buffer.new ≡ to_le_bytes w32 (link_event_number self.now) ++ drop 4 buffer.old }
    {
        emit_u32(buffer, u32::from(*self));
    }
}

impl Exact for LinkEvent {
    ghost use Rattle.std.proofs.Common.{rules};

    ghost decides = { Prim.search rules };
}
