//! Settings of IPv4 on a link (IFLA_INET_CONF).

ghost use Rattle.std.specs.Prelude.{◌≡◌, ◌≤◌, length, ◌-◌, slice_index_or, pos};
ghost use Rattle.std.specs.Int.{w32};
ghost use Rattle.nla_wire.specs.Fields.{signed_from};
ghost use Rattle.nla_wire.specs.Payloads.{sized};
ghost use Rattle.nla_wire.specs.Canon.{Filled};
ghost use Rattle.nla_wire.specs.Records.{Parses};
ghost use Rattle.link_recs.specs.declared.inet.TheConstants.{INET_DEV_CONF_COUNT};
ghost use Rattle.link_recs.specs.InetDevConfFields.{inet_dev_conf_size, inet_dev_conf_fields, inet_dev_conf_of};
ghost use Rattle.link_recs.specs.InetDevConfFields.{inet_dev_conf_bytes, inet_dev_conf_listed, inet_dev_conf_decides};
ghost use Rattle.link_recs.specs.InetDevConfFields.{inet_dev_conf_laws};

use crate::words::read_i32s;
use nla_wire::fields::put_i32s;
use nla_wire::{DecodeError, Exact, PlainRecord, Record, RecordBuffer};

/// The number of fields of a record.
pub const INET_DEV_CONF_COUNT: usize = 34;

/// The number of bytes of a record, 136.
pub const INET_DEV_CONF_SIZE: usize = 4 * INET_DEV_CONF_COUNT;

/// Settings of IPv4 on a link (IFLA_INET_CONF).
///
/// 34 signed numbers of four bytes each, 136 bytes, lowest byte first, in the order of the constants IPV4_DEVCONF_* of
/// linux/ip.h, which count from 1: setting number `n` stands at offset `4 * (n - 1)`. The last field is no setting of
/// the kernel's.
///
/// `igmpv2_unsolicited_report_interval` and `igmpv3_unsolicited_report_interval` are in milliseconds. The others have
/// no unit: `medium_id` and `tag` are numbers that an administrator gives, `force_igmp_version` is a version or 0, and
/// the rest say what is on, or in which way, 0 where it is off (Documentation/networking/ip-sysctl.rst of the kernel).
#[derive(Clone, Copy, Debug, Default, PartialEq, Eq)]
pub struct InetDevConf {
    /// `IPV4_DEVCONF_FORWARDING`.
    pub forwarding: i32,
    /// `IPV4_DEVCONF_MC_FORWARDING`.
    pub mc_forwarding: i32,
    /// `IPV4_DEVCONF_PROXY_ARP`.
    pub proxy_arp: i32,
    /// `IPV4_DEVCONF_ACCEPT_REDIRECTS`.
    pub accept_redirects: i32,
    /// `IPV4_DEVCONF_SECURE_REDIRECTS`.
    pub secure_redirects: i32,
    /// `IPV4_DEVCONF_SEND_REDIRECTS`.
    pub send_redirects: i32,
    /// `IPV4_DEVCONF_SHARED_MEDIA`.
    pub shared_media: i32,
    /// `IPV4_DEVCONF_RP_FILTER`.
    pub rp_filter: i32,
    /// `IPV4_DEVCONF_ACCEPT_SOURCE_ROUTE`.
    pub accept_source_route: i32,
    /// `IPV4_DEVCONF_BOOTP_RELAY`.
    pub bootp_relay: i32,
    /// `IPV4_DEVCONF_LOG_MARTIANS`.
    pub log_martians: i32,
    /// `IPV4_DEVCONF_TAG`.
    pub tag: i32,
    /// `IPV4_DEVCONF_ARPFILTER`.
    pub arpfilter: i32,
    /// `IPV4_DEVCONF_MEDIUM_ID`.
    pub medium_id: i32,
    /// `IPV4_DEVCONF_NOXFRM`.
    pub noxfrm: i32,
    /// `IPV4_DEVCONF_NOPOLICY`.
    pub nopolicy: i32,
    /// `IPV4_DEVCONF_FORCE_IGMP_VERSION`.
    pub force_igmp_version: i32,
    /// `IPV4_DEVCONF_ARP_ANNOUNCE`.
    pub arp_announce: i32,
    /// `IPV4_DEVCONF_ARP_IGNORE`.
    pub arp_ignore: i32,
    /// `IPV4_DEVCONF_PROMOTE_SECONDARIES`.
    pub promote_secondaries: i32,
    /// `IPV4_DEVCONF_ARP_ACCEPT`.
    pub arp_accept: i32,
    /// `IPV4_DEVCONF_ARP_NOTIFY`.
    pub arp_notify: i32,
    /// `IPV4_DEVCONF_ACCEPT_LOCAL`.
    pub accept_local: i32,
    /// `IPV4_DEVCONF_SRC_VMARK`.
    pub src_vmark: i32,
    /// `IPV4_DEVCONF_PROXY_ARP_PVLAN`.
    pub proxy_arp_pvlan: i32,
    /// `IPV4_DEVCONF_ROUTE_LOCALNET`.
    pub route_localnet: i32,
    /// `IPV4_DEVCONF_IGMPV2_UNSOLICITED_REPORT_INTERVAL`.
    pub igmpv2_unsolicited_report_interval: i32,
    /// `IPV4_DEVCONF_IGMPV3_UNSOLICITED_REPORT_INTERVAL`.
    pub igmpv3_unsolicited_report_interval: i32,
    /// `IPV4_DEVCONF_IGNORE_ROUTES_WITH_LINKDOWN`.
    pub ignore_routes_with_linkdown: i32,
    /// `IPV4_DEVCONF_DROP_UNICAST_IN_L2_MULTICAST`.
    pub drop_unicast_in_l2_multicast: i32,
    /// `IPV4_DEVCONF_DROP_GRATUITOUS_ARP`.
    pub drop_gratuitous_arp: i32,
    /// `IPV4_DEVCONF_BC_FORWARDING`.
    pub bc_forwarding: i32,
    /// `IPV4_DEVCONF_ARP_EVICT_NOCARRIER`.
    pub arp_evict_nocarrier: i32,
    /// Reserved: this project's own, and in no kernel. Zero where the payload is shorter.
    pub reserved_34: i32,
}

impl InetDevConf {
    #[inline(always)]
    fn from_words(words: [i32; INET_DEV_CONF_COUNT]) -> InetDevConf
        ensures { result ≡ inet_dev_conf_listed words }
    {
        InetDevConf {
            forwarding: words[0],
            mc_forwarding: words[1],
            proxy_arp: words[2],
            accept_redirects: words[3],
            secure_redirects: words[4],
            send_redirects: words[5],
            shared_media: words[6],
            rp_filter: words[7],
            accept_source_route: words[8],
            bootp_relay: words[9],
            log_martians: words[10],
            tag: words[11],
            arpfilter: words[12],
            medium_id: words[13],
            noxfrm: words[14],
            nopolicy: words[15],
            force_igmp_version: words[16],
            arp_announce: words[17],
            arp_ignore: words[18],
            promote_secondaries: words[19],
            arp_accept: words[20],
            arp_notify: words[21],
            accept_local: words[22],
            src_vmark: words[23],
            proxy_arp_pvlan: words[24],
            route_localnet: words[25],
            igmpv2_unsolicited_report_interval: words[26],
            igmpv3_unsolicited_report_interval: words[27],
            ignore_routes_with_linkdown: words[28],
            drop_unicast_in_l2_multicast: words[29],
            drop_gratuitous_arp: words[30],
            bc_forwarding: words[31],
            arp_evict_nocarrier: words[32],
            reserved_34: words[33],
        }
    }

    /// The fields, in their order.
    #[inline(always)]
    #[tactic(auto, unfolding(crate::specs::InetDevConfFields::inet_dev_conf_fields))]
    pub fn words(&self) -> [i32; INET_DEV_CONF_COUNT]
        ensures { result ≡ inet_dev_conf_fields self.now }
    {
        [
            self.forwarding,
            self.mc_forwarding,
            self.proxy_arp,
            self.accept_redirects,
            self.secure_redirects,
            self.send_redirects,
            self.shared_media,
            self.rp_filter,
            self.accept_source_route,
            self.bootp_relay,
            self.log_martians,
            self.tag,
            self.arpfilter,
            self.medium_id,
            self.noxfrm,
            self.nopolicy,
            self.force_igmp_version,
            self.arp_announce,
            self.arp_ignore,
            self.promote_secondaries,
            self.arp_accept,
            self.arp_notify,
            self.accept_local,
            self.src_vmark,
            self.proxy_arp_pvlan,
            self.route_localnet,
            self.igmpv2_unsolicited_report_interval,
            self.igmpv3_unsolicited_report_interval,
            self.ignore_routes_with_linkdown,
            self.drop_unicast_in_l2_multicast,
            self.drop_gratuitous_arp,
            self.bc_forwarding,
            self.arp_evict_nocarrier,
            self.reserved_34,
        ]
    }
}

impl Record<INET_DEV_CONF_SIZE> for InetDevConf {
    ghost of = { inet_dev_conf_of };

    ghost bytes = { inet_dev_conf_bytes };

    #[inline(always)]
    #[tactic(auto, using(crate::specs::InetDevConfFields::inet_dev_conf_of_table))]
    fn read(payload: &[u8]) -> InetDevConf {
        let mut words = [0; INET_DEV_CONF_COUNT];
        read_i32s(payload, &mut words);
        InetDevConf::from_words(words)
    }

    #[tactic(auto, unfolding(crate::specs::InetDevConfFields::inet_dev_conf_bytes))]
    fn write(&self, buffer: &mut [u8]) {
        put_i32s(buffer, &self.words());
    }

    ghost laws = { inet_dev_conf_laws.laws };
}

impl PlainRecord<INET_DEV_CONF_SIZE> for InetDevConf {
    ghost written = { inet_dev_conf_laws.plain };
}

impl InetDevConf {
    /// Reads a record from the front of the payload, as if zeros followed it. Nothing is refused.
    #[tactic(auto, using(crate::specs::InetDevConfFields::inet_dev_conf_table))]
    pub fn read_padded(payload: &[u8]) -> InetDevConf
        ensures value { result ≡ inet_dev_conf_of payload.now }
        ensures fields { inet_dev_conf_fields result
            ≡ signed_from w32 payload.now 0 INET_DEV_CONF_COUNT }
    {
        InetDevConf::read(payload)
    }

    /// Reads a record from the front of the payload. A payload of fewer than 136 bytes is refused with `TooShort`.
    pub fn parse(payload: &[u8]) -> Result<InetDevConf, DecodeError>
        ensures { Parses (sized inet_dev_conf_size inet_dev_conf_of) payload.now result }
    {
        InetDevConf::parse_sized(payload)
    }

    /// The number of bytes that `emit` writes, 136.
    pub fn buffer_len(&self) -> usize
        ensures { result ≡ inet_dev_conf_size }
    {
        INET_DEV_CONF_SIZE
    }

    /// Writes the record to a buffer of exactly 136 bytes.
    pub fn emit(&self, buffer: &mut [u8])
        requires { length buffer.old ≡ inet_dev_conf_size }
        ensures { buffer.new ≡ inet_dev_conf_bytes self.now }
    {
        self.write(buffer);
    }

    /// Writes the record to the end of a buffer of at least 136 bytes, keeps the bytes before it, and returns where it
    /// starts.
    pub fn fill(&self, buffer: &mut [u8]) -> usize
        requires { inet_dev_conf_size ≤ length buffer.old }
        ensures { Filled buffer.old buffer.new (inet_dev_conf_bytes self.now) result }
    {
        self.fill_back(buffer)
    }

    /// The setting of this number, 1 to `INET_DEV_CONF_COUNT` as the constants IPV4_DEVCONF_* count them; the last is
    /// the field of this project's own.
    pub fn setting(&self, number: usize) -> i32
        requires low { 1 ≤ number }
        requires high { number ≤ INET_DEV_CONF_COUNT }
        ensures { result ≡ slice_index_or (inet_dev_conf_fields self.now) (number - 1) (pos 0) }
    {
        self.words()[number - 1]
    }
}

impl Exact for InetDevConf {
    ghost decides = { inet_dev_conf_decides };
}

/// The bytes of a record, `InetDevConf`.
pub type InetDevConfBuffer = RecordBuffer<InetDevConf, INET_DEV_CONF_SIZE>;
