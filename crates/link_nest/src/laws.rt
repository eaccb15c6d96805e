//! Laws of the inner lists, each the contract of a function that does nothing.
//!
//! Of each place: what was read from some frame there, if it fits, is read again from its canonical frame; so are the
//! values of a list. A list's payload has at least four bytes for each value. Its canonical encoding has
//! at most `plain_growth` bytes for each whole four bytes of the payload. A frame that no line of the
//! table reads is kept: its kind, both flag bits and its payload come back.

ghost use Rattle.std.specs.Prelude.{◌≡◌, [], ◌∷◌, length, pos, negsuc};
ghost use Rattle.nla_wire.specs.Sizes.{plain_growth};
ghost use Rattle.nla_wire.specs.Canon.{canon, RoomWhereFit};
ghost use Rattle.nla_wire.proofs.Codec.{IsLawful};
ghost use Rattle.link_nest.specs.Tables.{prop_place, devlink_port_place, dpll_pin_place, down_reason_place};
ghost use Rattle.link_nest.specs.Tables.{xdp_place, link_info_place};
ghost use Rattle.link_nest.specs.Wireless.{EventsReadBack, EventsKeepLength, wireless_event, wireless_encoding};
ghost use Rattle.link_nest.specs.Wireless.{WirelessFits};
ghost use Rattle.link_nest.specs.declared.prop_list.Prop.TheVariants as prop;
ghost use Rattle.link_nest.specs.declared.xdp.LinkXdp.TheVariants as xdp;

/// `Prop`, members of IFLA_PROP_LIST.
pub fn law_prop()
    ensures { IsLawful plain_growth 0 prop_place }
{}

/// `DevlinkPort`, members of IFLA_DEVLINK_PORT.
pub fn law_devlink_port()
    ensures { IsLawful plain_growth 0 devlink_port_place }
{}

/// `DpllPin`, members of IFLA_DPLL_PIN.
pub fn law_dpll_pin()
    ensures { IsLawful plain_growth 0 dpll_pin_place }
{}

/// `LinkProtocolDownReason`, members of IFLA_PROTO_DOWN_REASON.
pub fn law_down_reason()
    ensures { IsLawful plain_growth 0 down_reason_place }
{}

/// `LinkXdp`, members of IFLA_XDP.
pub fn law_xdp()
    ensures { IsLawful plain_growth 0 xdp_place }
{}

/// `LinkInfo`, members of IFLA_LINKINFO.
pub fn law_link_info()
    ensures { IsLawful plain_growth 0 link_info_place }
{}

/// The alternative name `wan0` is written as the length 9, the number 53, its bytes with one NUL, and three bytes of
/// padding.
#[tactic(auto, unfolding(crate::specs::Tables::prop_place))]
pub fn law_alt_if_name_in_bytes()
    ensures { canon (prop_place.frame (prop.AltIfName (0x77 ∷ 0x61 ∷ 0x6e ∷ 0x30 ∷ [])))
        ≡ 0x09 ∷ 0x00 ∷ 0x35 ∷ 0x00 ∷ 0x77 ∷ 0x61 ∷ 0x6e ∷ 0x30 ∷ 0x00 ∷ 0x00 ∷ 0x00 ∷ 0x00 ∷ [] }
{}

/// The file descriptor -2 is written as the length 8, the number 1, and four bytes, lowest first.
#[tactic(auto, unfolding(crate::specs::Tables::xdp_place))]
pub fn law_fd_in_bytes()
    ensures { canon (xdp_place.frame (xdp.Fd (negsuc 1)))
        ≡ 0x08 ∷ 0x00 ∷ 0x01 ∷ 0x00 ∷ 0xfe ∷ 0xff ∷ 0xff ∷ 0xff ∷ [] }
{}

/// `WirelessEvent`, the value of IFLA_WIRELESS: what a payload means is what its text means, which is as long as the
/// payload.
pub fn law_wireless_event()
    ensures again { EventsReadBack }
    ensures length { EventsKeepLength }
{}

/// As many bytes of buffer as the payload has are room for the encoding of a wireless event.
pub fn law_wireless_room(payload: &[u8])
    ensures { RoomWhereFit wireless_encoding WirelessFits (wireless_event.reads payload.now)
        (length payload.now) }
{}
