//! Laws of the values, each the contract of a function that does nothing, or that makes a default value.

ghost use Rattle.std.specs.Prelude.{◌≡◌, [], ◌∷◌, map};
ghost use Rattle.link_vals.specs.LinkEventTable.{link_event_of, link_event_number};
ghost use Rattle.link_vals.specs.LinkExtentMaskTable.{link_extent_mask_of, link_extent_mask_number};
ghost use Rattle.link_vals.specs.LinkModeTable.{link_mode_of, link_mode_number};
ghost use Rattle.link_vals.specs.StateTable.{state_of, state_number};
ghost use Rattle.link_vals.specs.In6AddrGenModeTable.{in6_addr_gen_mode_of, in6_addr_gen_mode_number};
ghost use Rattle.link_vals.specs.MctpPhysBindingTable.{mctp_phys_binding_of, mctp_phys_binding_number};
ghost use Rattle.link_vals.specs.VfLinkStateTable.{vf_link_state_of, vf_link_state_number};
ghost use Rattle.link_vals.specs.XdpAttachedTable.{xdp_attached_of, xdp_attached_number};
ghost use Rattle.link_vals.specs.AddressFamilyTable.{address_family_of, address_family_number};
ghost use Rattle.link_vals.specs.LinkLayerTypeTable.{layer_type_of, layer_type_number, layer_type_listed};
ghost use Rattle.link_vals.specs.VlanProtocolTable.{vlan_protocol_of, vlan_protocol_number, vlan_protocol_listed};
ghost use Rattle.link_vals.specs.LinkFlagsTable.{link_flags_bits, link_flags_named};
ghost use Rattle.link_vals.specs.Inet6IfaceFlagsTable.{inet6_iface_flags_bits, inet6_iface_flags_named};
ghost use Rattle.link_vals.specs.declared.link_layer_type.LinkLayerType.TheVariants.{Void};
ghost use Rattle.link_vals.specs.declared.vlan_protocol.VlanProtocol.TheVariants.{Ieee8021Q};
ghost use Rattle.link_vals.specs.Laws.{ReadsBack, IsNamedBack, GivesUnlisted, SumsBack, NamedStatesRead};
ghost use Rattle.link_vals.specs.Laws.{OtherStatesRefused};

use crate::addr_gen_mode::In6AddrGenMode;
use crate::address_family::AddressFamily;
use crate::event::LinkEvent;
use crate::inet6_iface_flags::Inet6IfaceFlags;
use crate::link_flags::LinkFlags;
use crate::link_layer_type::LinkLayerType;
use crate::link_mode::LinkMode;
use crate::vf_link_state::VfLinkState;
use crate::vlan_protocol::VlanProtocol;

/// Number to value to number is the identity for events.
pub fn link_events_read_back()
    ensures { ReadsBack link_event_of link_event_number }
{}

/// Number to value to number is the identity for flags of the extent mask.
pub fn extent_masks_read_back()
    ensures { ReadsBack link_extent_mask_of link_extent_mask_number }
{}

/// Number to value to number is the identity for modes.
pub fn link_modes_read_back()
    ensures { ReadsBack link_mode_of link_mode_number }
{}

/// Number to value to number is the identity for operational states.
pub fn states_read_back()
    ensures { ReadsBack state_of state_number }
{}

/// Number to value to number is the identity for modes of making IPv6 addresses.
pub fn addr_gen_modes_read_back()
    ensures { ReadsBack in6_addr_gen_mode_of in6_addr_gen_mode_number }
{}

/// Number to value to number is the identity for physical bindings.
pub fn mctp_phys_bindings_read_back()
    ensures { ReadsBack mctp_phys_binding_of mctp_phys_binding_number }
{}

/// Number to value to number is the identity for link states of virtual functions.
pub fn vf_link_states_read_back()
    ensures { ReadsBack vf_link_state_of vf_link_state_number }
{}

/// Number to value to number is the identity for places of XDP programs.
pub fn xdp_attached_read_back()
    ensures { ReadsBack xdp_attached_of xdp_attached_number }
{}

/// Number to value to number is the identity for address families.
pub fn address_families_read_back()
    ensures { ReadsBack address_family_of address_family_number }
{}

/// The number of a layer type gives it again, and a number that is not listed gives `Void`.
pub fn layer_types_read_back()
    ensures named { IsNamedBack layer_type_of layer_type_number }
    ensures unlisted { GivesUnlisted layer_type_of layer_type_number layer_type_listed Void }
{}

/// The number of a vlan protocol gives it again, and any other number gives `Ieee8021Q`.
pub fn vlan_protocols_read_back()
    ensures named { IsNamedBack vlan_protocol_of vlan_protocol_number }
    ensures unlisted { GivesUnlisted vlan_protocol_of vlan_protocol_number vlan_protocol_listed
        Ieee8021Q }
{}

/// The sum of the list of a mask is the mask.
pub fn extent_sums_read_back()
    ensures { SumsBack }
{}

/// The text of each state with a name is read as that state, and the text of every other is refused.
pub fn state_texts_read_back()
    ensures named { NamedStatesRead }
    ensures others { OtherStatesRefused }
{}

/// `Cisco` is another name of `Hdlc`.
pub fn cisco_is_hdlc()
    ensures { LinkLayerType.Cisco ≡ LinkLayerType.Hdlc }
{}

/// The constants of link flags have the bits of the table, in its order.
pub fn link_flag_constants()
    ensures { map link_flags_bits (
        LinkFlags.Up ∷ LinkFlags.Broadcast ∷ LinkFlags.Debug ∷ LinkFlags.Loopback ∷
        LinkFlags.Pointopoint ∷ LinkFlags.Notrailers ∷ LinkFlags.Running ∷ LinkFlags.Noarp ∷
        LinkFlags.Promisc ∷ LinkFlags.Allmulti ∷ LinkFlags.Controller ∷ LinkFlags.Port ∷
        LinkFlags.Multicast ∷ LinkFlags.Portsel ∷ LinkFlags.Automedia ∷ LinkFlags.Dynamic ∷
        LinkFlags.LowerUp ∷ LinkFlags.Dormant ∷ LinkFlags.Echo ∷ [])
        ≡ map (λ row. row.1) link_flags_named }
{}

/// The constants of flags of IPv6 interfaces have the bits of the table, in its order.
pub fn inet6_iface_flag_constants()
    ensures { map inet6_iface_flags_bits (
        Inet6IfaceFlags.Otherconf ∷ Inet6IfaceFlags.RaManaged ∷ Inet6IfaceFlags.RaRcvd ∷
        Inet6IfaceFlags.RsSent ∷ Inet6IfaceFlags.Ready ∷ [])
        ≡ map (λ row. row.1) inet6_iface_flags_named }
{}

/// The default event is `None`.
pub fn default_link_event() -> LinkEvent
    ensures { result ≡ LinkEvent.None }
{
    LinkEvent::default()
}

/// The default mode of a link is `Default`.
pub fn default_link_mode() -> LinkMode
    ensures { result ≡ LinkMode.Default }
{
    LinkMode::default()
}

/// The default way to make IPv6 addresses is `Eui64`.
pub fn default_addr_gen_mode() -> In6AddrGenMode
    ensures { result ≡ In6AddrGenMode.Eui64 }
{
    In6AddrGenMode::default()
}

/// The default link state of a virtual function is `Auto`.
pub fn default_vf_link_state() -> VfLinkState
    ensures { result ≡ VfLinkState.Auto }
{
    VfLinkState::default()
}

/// The default address family is `Unspec`.
pub fn default_address_family() -> AddressFamily
    ensures { result ≡ AddressFamily.Unspec }
{
    AddressFamily::default()
}

/// The default layer type is `Netrom`, that of the number 0.
pub fn default_link_layer_type() -> LinkLayerType
    ensures { result ≡ LinkLayerType.Netrom }
{
    LinkLayerType::default()
}

/// The default vlan protocol is `Ieee8021Q`.
pub fn default_vlan_protocol() -> VlanProtocol
    ensures { result ≡ VlanProtocol.Ieee8021Q }
{
    VlanProtocol::default()
}

/// No bit of the default link flags is set.
pub fn default_link_flags() -> LinkFlags
    ensures { link_flags_bits result ≡ 0 }
{
    LinkFlags::default()
}
