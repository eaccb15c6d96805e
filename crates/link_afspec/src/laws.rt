//! Laws of settings by family, each the contract of a function that does nothing.
//!
//! Of each place: what was read from some frame there, if it fits, is read again from its canonical frame; so are the
//! values of a list. A list's payload has at least four bytes for each value, those inside of others
//! among them. Its canonical encoding has at most `plain_growth` bytes for each whole four bytes of the
//! payload, where nothing is filled up; members of AF_INET and AF_INET6 may be records that are, and take `growth`; so
//! does a list of such lists, with `slack` fewer for each member. A frame that no line of the table reads is kept: its
//! kind, both flag bits and its payload come back.

ghost use Rattle.std.specs.Prelude.{◌≡◌, [], ◌∷◌};
ghost use Rattle.nla_wire.specs.Sizes.{plain_growth, growth, slack};
ghost use Rattle.nla_wire.specs.Canon.{canon};
ghost use Rattle.nla_wire.proofs.Codec.{IsLawful};
ghost use Rattle.link_recs.specs.InetDevConfFields.{inet_dev_conf_size};
ghost use Rattle.link_recs.specs.Inet6DevConfFields.{inet6_dev_conf_size};
ghost use Rattle.link_recs.specs.Inet6StatsFields.{inet6_stats_size};
ghost use Rattle.link_recs.specs.Inet6CacheInfoFields.{inet6_cache_info_size};
ghost use Rattle.link_recs.specs.Icmp6StatsFields.{icmp6_stats_size};
ghost use Rattle.link_afspec.specs.PlaceLaws.{ZerosAdded, LongerIgnored, NeverRead};
ghost use Rattle.link_afspec.specs.Tables.{af_spec_mctp_place, af_spec_inet_place, af_spec_inet6_place};
ghost use Rattle.link_afspec.specs.Tables.{af_spec_unspec_place, af_spec_bridge_place, link_proto_info_bridge_place};
ghost use Rattle.link_afspec.specs.Tables.{link_proto_info_inet6_place};
ghost use Rattle.link_afspec.specs.declared.numbers.TheConstants.{IFLA_INET_CONF, IFLA_INET6_CONF, IFLA_INET6_STATS};
ghost use Rattle.link_afspec.specs.declared.numbers.TheConstants.{IFLA_INET6_CACHEINFO, IFLA_INET6_ICMP6STATS};
ghost use Rattle.link_afspec.specs.declared.mctp.AfSpecMctp.TheVariants.{Net};
ghost use Rattle.link_afspec.specs.declared.inet.AfSpecInet.TheVariants.{DevConfRequest};
ghost use Rattle.link_afspec.specs.declared.inet6.AfSpecInet6.TheVariants.{RaMtu};
ghost use Rattle.link_afspec.specs.declared.unspec.AfSpecUnspec.TheVariants.{Mctp};

/// `AfSpecMctp`, members of AF_MCTP in IFLA_AF_SPEC.
pub fn law_af_spec_mctp()
    ensures { IsLawful plain_growth 0 af_spec_mctp_place }
{}

/// `AfSpecInet`, members of AF_INET in IFLA_AF_SPEC; no bytes mean a request.
pub fn law_af_spec_inet()
    ensures lawful { IsLawful growth 0 af_spec_inet_place }
    ensures request { NeverRead af_spec_inet_place.grammar.means DevConfRequest }
{}

/// `AfSpecInet6`, members of AF_INET6 in IFLA_AF_SPEC.
pub fn law_af_spec_inet6()
    ensures { IsLawful growth 0 af_spec_inet6_place }
{}

/// `AfSpecUnspec`, members of IFLA_AF_SPEC of the family AF_UNSPEC.
pub fn law_af_spec_unspec()
    ensures { IsLawful growth slack af_spec_unspec_place }
{}

/// `AfSpecBridge`, members of IFLA_AF_SPEC of the family AF_BRIDGE.
pub fn law_af_spec_bridge()
    ensures { IsLawful plain_growth 0 af_spec_bridge_place }
{}

/// `LinkProtoInfoBridge`, members of IFLA_PROTINFO of the family AF_BRIDGE.
pub fn law_link_proto_info_bridge()
    ensures { IsLawful plain_growth 0 link_proto_info_bridge_place }
{}

/// `LinkProtoInfoInet6`, members of IFLA_PROTINFO of the family AF_INET6.
pub fn law_link_proto_info_inet6()
    ensures { IsLawful plain_growth 0 link_proto_info_inet6_place }
{}

/// A packet size of 1500 bytes is written as the length 8, the number 9, and four bytes, lowest first.
#[tactic(auto, unfolding(crate::specs::Tables::af_spec_inet6_place))]
pub fn law_ra_mtu_in_bytes()
    ensures { canon (af_spec_inet6_place.frame (RaMtu 1500))
        ≡ 0x08 ∷ 0x00 ∷ 0x09 ∷ 0x00 ∷ 0xdc ∷ 0x05 ∷ 0x00 ∷ 0x00 ∷ [] }
{}

/// Settings of MCTP with one network, of number 1, are written as the length 12, the number 45 without the nested flag,
/// and one attribute: the length 8, the number 1, and four bytes.
#[tactic(auto, unfolding(crate::specs::Tables::af_spec_unspec_place, crate::specs::Tables::af_spec_mctp_place))]
pub fn law_mctp_net_in_bytes()
    ensures { canon (af_spec_unspec_place.frame (Mctp (Net 1 ∷ [])))
        ≡ 0x0c ∷ 0x00 ∷ 0x2d ∷ 0x00 ∷ 0x08 ∷ 0x00 ∷ 0x01 ∷ 0x00 ∷ 0x01 ∷ 0x00 ∷ 0x00 ∷ 0x00 ∷ [] }
{}

/// Records that are filled up: settings and statistics mean the same with zeros added to the payload. Of a payload
/// that is longer than the record only the front counts.
pub fn law_short_records()
    ensures inet_zeros { ZerosAdded af_spec_inet_place.grammar.means IFLA_INET_CONF }
    ensures inet_longer { LongerIgnored af_spec_inet_place.grammar.means IFLA_INET_CONF
        inet_dev_conf_size }
    ensures inet6_zeros { ZerosAdded af_spec_inet6_place.grammar.means IFLA_INET6_CONF }
    ensures inet6_longer { LongerIgnored af_spec_inet6_place.grammar.means IFLA_INET6_CONF
        inet6_dev_conf_size }
    ensures stats_zeros { ZerosAdded af_spec_inet6_place.grammar.means IFLA_INET6_STATS }
    ensures stats_longer { LongerIgnored af_spec_inet6_place.grammar.means IFLA_INET6_STATS
        inet6_stats_size }
    ensures cache_longer { LongerIgnored af_spec_inet6_place.grammar.means IFLA_INET6_CACHEINFO
        inet6_cache_info_size }
    ensures icmp_zeros { ZerosAdded af_spec_inet6_place.grammar.means IFLA_INET6_ICMP6STATS }
    ensures icmp_longer { LongerIgnored af_spec_inet6_place.grammar.means IFLA_INET6_ICMP6STATS
        icmp6_stats_size }
{}
