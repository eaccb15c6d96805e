//! Laws of messages: functions that do nothing, or make a default value, whose contracts are laws over the definitions
//! alone.

ghost use Rattle.link_vals.specs.LinkEventTable.{link_event_of, link_event_number};
ghost use Rattle.link_vals.specs.LinkExtentMaskTable.{link_extent_mask_of, link_extent_mask_number};
ghost use Rattle.link_vals.specs.LinkModeTable.{link_mode_of, link_mode_number};
ghost use Rattle.link_vals.specs.StateTable.{state_of, state_number};
ghost use Rattle.link_vals.specs.In6AddrGenModeTable.{in6_addr_gen_mode_of, in6_addr_gen_mode_number};
ghost use Rattle.link_vals.specs.MctpPhysBindingTable.{mctp_phys_binding_of, mctp_phys_binding_number};
ghost use Rattle.link_vals.specs.VfLinkStateTable.{vf_link_state_of, vf_link_state_number};
ghost use Rattle.link_vals.specs.XdpAttachedTable.{xdp_attached_of, xdp_attached_number};
ghost use Rattle.link_vals.specs.AddressFamilyTable.{address_family_of, address_family_number};
ghost use Rattle.link_vals.specs.LinkLayerTypeTable.{layer_type_of, layer_type_number, layer_type_listed};
ghost use Rattle.link_vals.specs.VlanProtocolTable.{vlan_protocol_of, vlan_protocol_number, vlan_protocol_listed};
ghost use Rattle.link_vals.specs.declared.address_family.AddressFamily.{AddressFamily};
ghost use Rattle.link_vals.specs.declared.link_layer_type.LinkLayerType.TheVariants.{Void};
ghost use Rattle.link_vals.specs.declared.vlan_protocol.VlanProtocol.TheVariants.{Ieee8021Q};
ghost use Rattle.link_vals.specs.Laws.{ReadsBack, IsNamedBack, GivesUnlisted, SumsBack, NamedStatesRead};
ghost use Rattle.link_vals.specs.Laws.{OtherStatesRefused};
ghost use Rattle.link_recs.specs.StatsFields.{stats_size};
ghost use Rattle.link_recs.specs.Stats64Fields.{stats64_size};
ghost use Rattle.link_recs.specs.MapFields.{map_size};
ghost use Rattle.link_recs.specs.InetDevConfFields.{inet_dev_conf_size};
ghost use Rattle.link_recs.specs.Inet6DevConfFields.{inet6_dev_conf_size};
ghost use Rattle.link_recs.specs.Inet6StatsFields.{inet6_stats_size};
ghost use Rattle.link_recs.specs.Inet6CacheInfoFields.{inet6_cache_info_size};
ghost use Rattle.link_recs.specs.Icmp6StatsFields.{icmp6_stats_size};
ghost use Rattle.link_afspec.specs.PlaceLaws.{ZerosAdded, LongerIgnored};
ghost use Rattle.link_afspec.specs.Tables.{af_spec_inet_place, af_spec_inet6_place};
ghost use Rattle.link_afspec.specs.declared.numbers.TheConstants.{IFLA_INET_CONF, IFLA_INET6_CONF, IFLA_INET6_STATS};
ghost use Rattle.link_afspec.specs.declared.numbers.TheConstants.{IFLA_INET6_CACHEINFO, IFLA_INET6_ICMP6STATS};
ghost use Rattle.link_msg.specs.declared.numbers.TheConstants.{IFLA_STATS, IFLA_STATS64, IFLA_MAP};
ghost use Rattle.std.specs.Prelude.{◌≡◌, ◌*◌, ◌+◌, [], ◌∷◌, length, Ok};
ghost use Rattle.nla_wire.specs.Sizes.{growth_per_byte};
ghost use Rattle.link_msg.specs.Canonical.{HoldsText, HasLength};
ghost use Rattle.nla_wire.specs.Canon.{canon, canons, AllFit, RoomWhereFit};
ghost use Rattle.nla_wire.specs.Grammar.{list};
ghost use Rattle.link_msg.specs.declared.attribute.LinkAttribute.TheVariants as Attributes;
ghost use Rattle.link_msg.specs.Tables.{attribute_place, attribute_frame, AttributeFits};
ghost use Rattle.link_msg.specs.Header.{default_header};
ghost use Rattle.link_msg.specs.OneAnswer.{EachHasOneAnswer, OneFault, FaultOrMeaning, OneFaultPath};
ghost use Rattle.link_msg.specs.OneAnswer.{PathOfTheFault};
ghost use Rattle.link_msg.specs.LawStatements.{OneMeaning, TextMeansTheSame, OnlyWithPorts, SameTextSameMessage};
ghost use Rattle.link_msg.specs.LawStatements.{CanonicalTwice, Joined, ForeignKept};
ghost use Rattle.link_msg.specs.Lenient.{StrictIsLenient, OneLenientMeaning, FittingIsRead, LenientTextMeansTheSame};
ghost use Rattle.link_msg.specs.Lenient.{SameLenientTextSameMessage, LenientTwice, StrictAnswersStay};
ghost use Rattle.link_msg.specs.Lenient.{HasLenientLength, HoldsLenientText};
ghost use Rattle.link_msg.specs.Told.{ToldAreRaw};

use crate::header::LinkHeader;
use crate::place::AttributePlace;
use link_vals::AddressFamily;
use nla_wire::NlaBuffer;
use nla_wire::laws::{law_members_room, law_place_room};

/// No bytes mean two messages.
pub fn law_one_meaning()
    ensures { OneMeaning }
{}

/// Each byte string has exactly one answer: the canonical encoding of one message, or one refusal. No bytes have two
/// faults, nor a fault and a meaning.
pub fn law_one_answer()
    ensures answer { EachHasOneAnswer }
    ensures fault { OneFault }
    ensures meaning { FaultOrMeaning }
{}

/// A fault is in one place, and the numbers of one path lead there: that of which `fault_path` tells is the only one,
/// and what is there is the fault of `check`.
pub fn law_one_fault_path()
    ensures path { OneFaultPath }
    ensures fault { PathOfTheFault }
{}

/// Where bytes mean a message that fits and holds no empty list of ports, its canonical encoding means it too; two such
/// messages have one encoding exactly where they are one message; and the canonical encoding of such an encoding is
/// that encoding. And a message that fits and that its canonical encoding means holds no empty list of ports.
pub fn law_canonical_twice()
    ensures means_the_same { TextMeansTheSame }
    ensures only_with_ports { OnlyWithPorts }
    ensures same_text { SameTextSameMessage }
    ensures twice { CanonicalTwice }
{}

/// `growth_per_byte` bytes of buffer for each byte of a message are room for its canonical encoding.
pub fn law_room(input: &[u8])
    ensures { HoldsText input.now (growth_per_byte * length input.now) }
{}

/// As many bytes of buffer as `canonical_len` returns of a message are room for its canonical encoding.
pub fn law_exact_room(input: &[u8], len: usize)
    requires { HasLength input.now (Ok len) }
    ensures { HoldsText input.now len }
{}

/// What bytes mean they mean leniently, and what has a canonical encoding has the same one leniently; frames that fit
/// always mean a message leniently, and no bytes mean two. Where such a message fits and holds no empty list of ports,
/// its canonical encoding means it leniently; two have one encoding exactly where they are one message; and the lenient
/// canonical encoding of such an encoding is itself.
pub fn law_lenient()
    ensures strict { StrictIsLenient }
    ensures answers { StrictAnswersStay }
    ensures one_meaning { OneLenientMeaning }
    ensures fitting { FittingIsRead }
    ensures means_the_same { LenientTextMeansTheSame }
    ensures same_text { SameLenientTextSameMessage }
    ensures twice { LenientTwice }
{}

/// Of a message that is read leniently exactly the attributes are told that are kept raw, in order.
pub fn law_refusals()
    ensures { ToldAreRaw }
{}

/// `growth_per_byte` bytes of buffer for each byte of a message are room for its lenient canonical encoding.
pub fn law_lenient_room(input: &[u8])
    ensures { HoldsLenientText input.now (growth_per_byte * length input.now) }
{}

/// As many bytes of buffer as `canonical_lenient_len` returns of a message are room for its lenient canonical encoding.
pub fn law_lenient_exact_room(input: &[u8], len: usize)
    requires { HasLenientLength input.now (Ok len) }
    ensures { HoldsLenientText input.now len }
{}

/// `growth_per_byte` bytes of buffer for each byte of an attribute's header and payload are room for its canonical
/// encoding.
pub fn law_attribute_room(buffer: &NlaBuffer<'_>, family: AddressFamily)
    ensures { RoomWhereFit (λ v. canon (attribute_frame v)) AttributeFits
        ((attribute_place family).reads buffer.now)
        (growth_per_byte * (4 + length buffer.now.payload)) }
{
    law_place_room(&AttributePlace { family }, buffer);
}

/// `growth_per_byte` bytes of buffer for each byte of a list of attributes are room for its canonical encoding.
pub fn law_attributes_room(bytes: &[u8], family: AddressFamily)
    ensures { RoomWhereFit (canons attribute_frame) (AllFit AttributeFits attribute_frame)
        ((list (attribute_place family)).reads bytes.now) (growth_per_byte * length bytes.now) }
{
    law_members_room(&AttributePlace { family }, bytes);
}

/// The sum of the list of an extent mask is the mask.
pub fn law_ext_sum()
    ensures { SumsBack }
{
    link_vals::laws::extent_sums_read_back();
}

/// After an accepted list of attributes whose length is a multiple of four, bytes are accepted exactly where they are
/// alone, and give the two lists joined.
pub fn law_joined()
    ensures { Joined }
{}

/// Records that are filled up mean the same with zeros added to the payload: statistics of a link under any family, and
/// settings and statistics of AF_INET and AF_INET6. Of a payload that is longer than the
/// record only the front counts.
pub fn law_short_records()
    ensures stats_zeros { (family : AddressFamily)
        → ZerosAdded (attribute_place family).means IFLA_STATS }
    ensures stats_longer { (family : AddressFamily)
        → LongerIgnored (attribute_place family).means IFLA_STATS stats_size }
    ensures stats64_zeros { (family : AddressFamily)
        → ZerosAdded (attribute_place family).means IFLA_STATS64 }
    ensures stats64_longer { (family : AddressFamily)
        → LongerIgnored (attribute_place family).means IFLA_STATS64 stats64_size }
    ensures map_longer { (family : AddressFamily)
        → LongerIgnored (attribute_place family).means IFLA_MAP map_size }
    ensures inet_zeros { ZerosAdded af_spec_inet_place.grammar.means IFLA_INET_CONF }
    ensures inet_longer { LongerIgnored af_spec_inet_place.grammar.means IFLA_INET_CONF
        inet_dev_conf_size }
    ensures inet6_zeros { ZerosAdded af_spec_inet6_place.grammar.means IFLA_INET6_CONF }
    ensures inet6_longer { LongerIgnored af_spec_inet6_place.grammar.means IFLA_INET6_CONF
        inet6_dev_conf_size }
    ensures inet6_stats_zeros { ZerosAdded af_spec_inet6_place.grammar.means IFLA_INET6_STATS }
    ensures inet6_stats_longer { LongerIgnored af_spec_inet6_place.grammar.means IFLA_INET6_STATS
        inet6_stats_size }
    ensures cache_longer { LongerIgnored af_spec_inet6_place.grammar.means IFLA_INET6_CACHEINFO
        inet6_cache_info_size }
    ensures icmp_zeros { ZerosAdded af_spec_inet6_place.grammar.means IFLA_INET6_ICMP6STATS }
    ensures icmp_longer { LongerIgnored af_spec_inet6_place.grammar.means IFLA_INET6_ICMP6STATS
        icmp6_stats_size }
{
    link_afspec::laws::law_short_records();
}

/// The number of a layer type gives it again, and a number that is not listed gives `Void`; the number of a vlan
/// protocol gives it again, and any other number gives `Ieee8021Q`.
pub fn law_layer_types()
    ensures named { IsNamedBack layer_type_of layer_type_number }
    ensures unlisted { GivesUnlisted layer_type_of layer_type_number layer_type_listed Void }
    ensures protocols { IsNamedBack vlan_protocol_of vlan_protocol_number }
    ensures others { GivesUnlisted vlan_protocol_of vlan_protocol_number
        vlan_protocol_listed Ieee8021Q }
{
    link_vals::laws::layer_types_read_back();
    link_vals::laws::vlan_protocols_read_back();
}

/// Number to value to number is the identity for each enum that keeps the numbers without a name.
pub fn law_numbers()
    ensures events { ReadsBack link_event_of link_event_number }
    ensures masks { ReadsBack link_extent_mask_of link_extent_mask_number }
    ensures modes { ReadsBack link_mode_of link_mode_number }
    ensures states { ReadsBack state_of state_number }
    ensures addr_gen_modes { ReadsBack in6_addr_gen_mode_of in6_addr_gen_mode_number }
    ensures phys_bindings { ReadsBack mctp_phys_binding_of mctp_phys_binding_number }
    ensures vf_link_states { ReadsBack vf_link_state_of vf_link_state_number }
    ensures attached { ReadsBack xdp_attached_of xdp_attached_number }
    ensures families { ReadsBack address_family_of address_family_number }
{
    link_vals::laws::link_events_read_back();
    link_vals::laws::extent_masks_read_back();
    link_vals::laws::link_modes_read_back();
    link_vals::laws::states_read_back();
    link_vals::laws::addr_gen_modes_read_back();
    link_vals::laws::mctp_phys_bindings_read_back();
    link_vals::laws::vf_link_states_read_back();
    link_vals::laws::xdp_attached_read_back();
    link_vals::laws::address_families_read_back();
}

/// The text of each state with a name is read as that state, and the text of every other is refused.
pub fn law_state_texts()
    ensures named { NamedStatesRead }
    ensures others { OtherStatesRefused }
{
    link_vals::laws::state_texts_read_back();
}

/// An attribute that no line of the table reads is written as it was read: its number, its two flags, its payload.
pub fn law_foreign_kept()
    ensures { ForeignKept }
{}

/// An MTU of 1500 is written as the length 8, the number 4, and four bytes, lowest first.
#[tactic(auto, unfolding(crate::specs::Tables::attribute_view))]
pub fn law_mtu_in_bytes()
    ensures { canon (attribute_frame (Attributes.Mtu 1500))
        ≡ 0x08 ∷ 0x00 ∷ 0x04 ∷ 0x00 ∷ 0xdc ∷ 0x05 ∷ 0x00 ∷ 0x00 ∷ [] }
{}

/// The name `lo` is written as the length 7, the number 3, its bytes with one NUL, and one byte of padding.
#[tactic(auto, unfolding(crate::specs::Tables::attribute_view))]
pub fn law_if_name_in_bytes()
    ensures { canon (attribute_frame (Attributes.IfName (0x6c ∷ 0x6f ∷ [])))
        ≡ 0x07 ∷ 0x00 ∷ 0x03 ∷ 0x00 ∷ 0x6c ∷ 0x6f ∷ 0x00 ∷ 0x00 ∷ [] }
{}

/// A headroom of 32 bytes is written as the length 6, the number 68, two bytes, lowest first, and two bytes of padding.
#[tactic(auto, unfolding(crate::specs::Tables::attribute_view))]
pub fn law_headroom_in_bytes()
    ensures { canon (attribute_frame (Attributes.Headroom 32))
        ≡ 0x06 ∷ 0x00 ∷ 0x44 ∷ 0x00 ∷ 0x20 ∷ 0x00 ∷ 0x00 ∷ 0x00 ∷ [] }
{}

/// The default header is that of AF_UNSPEC, index 0 and layer type `Netrom`, with no flags.
pub fn default_link_header() -> LinkHeader
    ensures { result ≡ default_header }
{
    LinkHeader::default()
}
