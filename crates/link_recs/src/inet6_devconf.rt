//! Settings of IPv6 on a link (IFLA_INET6_CONF).

ghost use Rattle.std.specs.Prelude.{◌≡◌, ◌≤◌, length};
ghost use Rattle.std.specs.Int.{w32};
ghost use Rattle.nla_wire.specs.Fields.{signed_from};
ghost use Rattle.nla_wire.specs.Payloads.{sized};
ghost use Rattle.nla_wire.specs.Canon.{Filled};
ghost use Rattle.nla_wire.specs.Records.{Parses};
ghost use Rattle.link_recs.specs.declared.inet6_devconf.TheConstants.{INET6_DEV_CONF_COUNT};
ghost use Rattle.link_recs.specs.Inet6DevConfFields.{inet6_dev_conf_size, inet6_dev_conf_fields, inet6_dev_conf_of};
ghost use Rattle.link_recs.specs.Inet6DevConfFields.{inet6_dev_conf_bytes, inet6_dev_conf_listed};
ghost use Rattle.link_recs.specs.Inet6DevConfFields.{inet6_dev_conf_decides, inet6_dev_conf_laws};

use crate::words::read_i32s;
use nla_wire::fields::put_i32s;
use nla_wire::{DecodeError, Exact, PlainRecord, Record, RecordBuffer};

/// The number of fields of a record.
pub const INET6_DEV_CONF_COUNT: usize = 60;

/// The number of bytes of a record, 240.
pub const INET6_DEV_CONF_SIZE: usize = 4 * INET6_DEV_CONF_COUNT;

/// Settings of IPv6 on a link (IFLA_INET6_CONF).
///
/// 60 signed numbers of four bytes each, 240 bytes, lowest byte first, in the order of the constants DEVCONF_* of
/// linux/ipv6.h, which count from 0: setting number `n` stands at offset `4 * n`. Intervals and delays of
/// solicitations, of reports and of probes are in milliseconds, as net/ipv6/addrconf.c turns them for netlink; the
/// lifetimes `temp_valid_lft` and `temp_prefered_lft`, and `max_desync_factor`, are in seconds.
#[derive(Clone, Copy, Debug, Default, PartialEq, Eq)]
pub struct Inet6DevConf {
    /// `DEVCONF_FORWARDING`.
    pub forwarding: i32,
    /// `DEVCONF_HOPLIMIT`.
    pub hoplimit: i32,
    /// `DEVCONF_MTU6`.
    pub mtu6: i32,
    /// `DEVCONF_ACCEPT_RA`.
    pub accept_ra: i32,
    /// `DEVCONF_ACCEPT_REDIRECTS`.
    pub accept_redirects: i32,
    /// `DEVCONF_AUTOCONF`.
    pub autoconf: i32,
    /// `DEVCONF_DAD_TRANSMITS`.
    pub dad_transmits: i32,
    /// `DEVCONF_RTR_SOLICITS`.
    pub rtr_solicits: i32,
    /// `DEVCONF_RTR_SOLICIT_INTERVAL`.
    pub rtr_solicit_interval: i32,
    /// `DEVCONF_RTR_SOLICIT_DELAY`.
    pub rtr_solicit_delay: i32,
    /// `DEVCONF_USE_TEMPADDR`.
    pub use_tempaddr: i32,
    /// `DEVCONF_TEMP_VALID_LFT`.
    pub temp_valid_lft: i32,
    /// `DEVCONF_TEMP_PREFERED_LFT`.
    pub temp_prefered_lft: i32,
    /// `DEVCONF_REGEN_MAX_RETRY`.
    pub regen_max_retry: i32,
    /// `DEVCONF_MAX_DESYNC_FACTOR`.
    pub max_desync_factor: i32,
    /// `DEVCONF_MAX_ADDRESSES`.
    pub max_addresses: i32,
    /// `DEVCONF_FORCE_MLD_VERSION`.
    pub force_mld_version: i32,
    /// `DEVCONF_ACCEPT_RA_DEFRTR`.
    pub accept_ra_defrtr: i32,
    /// `DEVCONF_ACCEPT_RA_PINFO`.
    pub accept_ra_pinfo: i32,
    /// `DEVCONF_ACCEPT_RA_RTR_PREF`.
    pub accept_ra_rtr_pref: i32,
    /// `DEVCONF_RTR_PROBE_INTERVAL`.
    pub rtr_probe_interval: i32,
    /// `DEVCONF_ACCEPT_RA_RT_INFO_MAX_PLEN`.
    pub accept_ra_rt_info_max_plen: i32,
    /// `DEVCONF_PROXY_NDP`.
    pub proxy_ndp: i32,
    /// `DEVCONF_OPTIMISTIC_DAD`.
    pub optimistic_dad: i32,
    /// `DEVCONF_ACCEPT_SOURCE_ROUTE`.
    pub accept_source_route: i32,
    /// `DEVCONF_MC_FORWARDING`.
    pub mc_forwarding: i32,
    /// `DEVCONF_DISABLE_IPV6`.
    pub disable_ipv6: i32,
    /// `DEVCONF_ACCEPT_DAD`.
    pub accept_dad: i32,
    /// `DEVCONF_FORCE_TLLAO`.
    pub force_tllao: i32,
    /// `DEVCONF_NDISC_NOTIFY`.
    pub ndisc_notify: i32,
    /// `DEVCONF_MLDV1_UNSOLICITED_REPORT_INTERVAL`.
    pub mldv1_unsolicited_report_interval: i32,
    /// `DEVCONF_MLDV2_UNSOLICITED_REPORT_INTERVAL`.
    pub mldv2_unsolicited_report_interval: i32,
    /// `DEVCONF_SUPPRESS_FRAG_NDISC`.
    pub suppress_frag_ndisc: i32,
    /// `DEVCONF_ACCEPT_RA_FROM_LOCAL`.
    pub accept_ra_from_local: i32,
    /// `DEVCONF_USE_OPTIMISTIC`.
    pub use_optimistic: i32,
    /// `DEVCONF_ACCEPT_RA_MTU`.
    pub accept_ra_mtu: i32,
    /// `DEVCONF_STABLE_SECRET`.
    pub stable_secret: i32,
    /// `DEVCONF_USE_OIF_ADDRS_ONLY`.
    pub use_oif_addrs_only: i32,
    /// `DEVCONF_ACCEPT_RA_MIN_HOP_LIMIT`.
    pub accept_ra_min_hop_limit: i32,
    /// `DEVCONF_IGNORE_ROUTES_WITH_LINKDOWN`.
    pub ignore_routes_with_linkdown: i32,
    /// `DEVCONF_DROP_UNICAST_IN_L2_MULTICAST`.
    pub drop_unicast_in_l2_multicast: i32,
    /// `DEVCONF_DROP_UNSOLICITED_NA`.
    pub drop_unsolicited_na: i32,
    /// `DEVCONF_KEEP_ADDR_ON_DOWN`.
    pub keep_addr_on_down: i32,
    /// `DEVCONF_RTR_SOLICIT_MAX_INTERVAL`.
    pub rtr_solicit_max_interval: i32,
    /// `DEVCONF_SEG6_ENABLED`.
    pub seg6_enabled: i32,
    /// `DEVCONF_SEG6_REQUIRE_HMAC`.
    pub seg6_require_hmac: i32,
    /// `DEVCONF_ENHANCED_DAD`.
    pub enhanced_dad: i32,
    /// `DEVCONF_ADDR_GEN_MODE`.
    pub addr_gen_mode: i32,
    /// `DEVCONF_DISABLE_POLICY`.
    pub disable_policy: i32,
    /// `DEVCONF_ACCEPT_RA_RT_INFO_MIN_PLEN`.
    pub accept_ra_rt_info_min_plen: i32,
    /// `DEVCONF_NDISC_TCLASS`.
    pub ndisc_tclass: i32,
    /// `DEVCONF_RPL_SEG_ENABLED`.
    pub rpl_seg_enabled: i32,
    /// `DEVCONF_RA_DEFRTR_METRIC`.
    pub ra_defrtr_metric: i32,
    /// `DEVCONF_IOAM6_ENABLED`.
    pub ioam6_enabled: i32,
    /// `DEVCONF_IOAM6_ID`.
    pub ioam6_id: i32,
    /// `DEVCONF_IOAM6_ID_WIDE`.
    pub ioam6_id_wide: i32,
    /// `DEVCONF_NDISC_EVICT_NOCARRIER`.
    pub ndisc_evict_nocarrier: i32,
    /// `DEVCONF_ACCEPT_UNTRACKED_NA`.
    pub accept_untracked_na: i32,
    /// `DEVCONF_ACCEPT_RA_MIN_LFT`.
    pub accept_ra_min_lft: i32,
    /// `DEVCONF_MAX`.
    pub force_forwarding: i32,
}

impl Inet6DevConf {
    #[inline(always)]
    fn from_words(words: [i32; INET6_DEV_CONF_COUNT]) -> Inet6DevConf
        ensures { result ≡ inet6_dev_conf_listed words }
    {
        Inet6DevConf {
            forwarding: words[0],
            hoplimit: words[1],
            mtu6: words[2],
            accept_ra: words[3],
            accept_redirects: words[4],
            autoconf: words[5],
            dad_transmits: words[6],
            rtr_solicits: words[7],
            rtr_solicit_interval: words[8],
            rtr_solicit_delay: words[9],
            use_tempaddr: words[10],
            temp_valid_lft: words[11],
            temp_prefered_lft: words[12],
            regen_max_retry: words[13],
            max_desync_factor: words[14],
            max_addresses: words[15],
            force_mld_version: words[16],
            accept_ra_defrtr: words[17],
            accept_ra_pinfo: words[18],
            accept_ra_rtr_pref: words[19],
            rtr_probe_interval: words[20],
            accept_ra_rt_info_max_plen: words[21],
            proxy_ndp: words[22],
            optimistic_dad: words[23],
            accept_source_route: words[24],
            mc_forwarding: words[25],
            disable_ipv6: words[26],
            accept_dad: words[27],
            force_tllao: words[28],
            ndisc_notify: words[29],
            mldv1_unsolicited_report_interval: words[30],
            mldv2_unsolicited_report_interval: words[31],
            suppress_frag_ndisc: words[32],
            accept_ra_from_local: words[33],
            use_optimistic: words[34],
            accept_ra_mtu: words[35],
            stable_secret: words[36],
            use_oif_addrs_only: words[37],
            accept_ra_min_hop_limit: words[38],
            ignore_routes_with_linkdown: words[39],
            drop_unicast_in_l2_multicast: words[40],
            drop_unsolicited_na: words[41],
            keep_addr_on_down: words[42],
            rtr_solicit_max_interval: words[43],
            seg6_enabled: words[44],
            seg6_require_hmac: words[45],
            enhanced_dad: words[46],
            addr_gen_mode: words[47],
            disable_policy: words[48],
            accept_ra_rt_info_min_plen: words[49],
            ndisc_tclass: words[50],
            rpl_seg_enabled: words[51],
            ra_defrtr_metric: words[52],
            ioam6_enabled: words[53],
            ioam6_id: words[54],
            ioam6_id_wide: words[55],
            ndisc_evict_nocarrier: words[56],
            accept_untracked_na: words[57],
            accept_ra_min_lft: words[58],
            force_forwarding: words[59],
        }
    }

    /// The fields, in their order.
    #[inline(always)]
    #[tactic(auto, unfolding(crate::specs::Inet6DevConfFields::inet6_dev_conf_fields))]
    pub fn words(&self) -> [i32; INET6_DEV_CONF_COUNT]
        ensures { result ≡ inet6_dev_conf_fields self.now }
    {
        [
            self.forwarding,
            self.hoplimit,
            self.mtu6,
            self.accept_ra,
            self.accept_redirects,
            self.autoconf,
            self.dad_transmits,
            self.rtr_solicits,
            self.rtr_solicit_interval,
            self.rtr_solicit_delay,
            self.use_tempaddr,
            self.temp_valid_lft,
            self.temp_prefered_lft,
            self.regen_max_retry,
            self.max_desync_factor,
            self.max_addresses,
            self.force_mld_version,
            self.accept_ra_defrtr,
            self.accept_ra_pinfo,
            self.accept_ra_rtr_pref,
            self.rtr_probe_interval,
            self.accept_ra_rt_info_max_plen,
            self.proxy_ndp,
            self.optimistic_dad,
            self.accept_source_route,
            self.mc_forwarding,
            self.disable_ipv6,
            self.accept_dad,
            self.force_tllao,
            self.ndisc_notify,
            self.mldv1_unsolicited_report_interval,
            self.mldv2_unsolicited_report_interval,
            self.suppress_frag_ndisc,
            self.accept_ra_from_local,
            self.use_optimistic,
            self.accept_ra_mtu,
            self.stable_secret,
            self.use_oif_addrs_only,
            self.accept_ra_min_hop_limit,
            self.ignore_routes_with_linkdown,
            self.drop_unicast_in_l2_multicast,
            self.drop_unsolicited_na,
            self.keep_addr_on_down,
            self.rtr_solicit_max_interval,
            self.seg6_enabled,
            self.seg6_require_hmac,
            self.enhanced_dad,
            self.addr_gen_mode,
            self.disable_policy,
            self.accept_ra_rt_info_min_plen,
            self.ndisc_tclass,
            self.rpl_seg_enabled,
            self.ra_defrtr_metric,
            self.ioam6_enabled,
            self.ioam6_id,
            self.ioam6_id_wide,
            self.ndisc_evict_nocarrier,
            self.accept_untracked_na,
            self.accept_ra_min_lft,
            self.force_forwarding,
        ]
    }
}

impl Record<INET6_DEV_CONF_SIZE> for Inet6DevConf {
    ghost of = { inet6_dev_conf_of };

    ghost bytes = { inet6_dev_conf_bytes };

    #[inline(always)]
    #[tactic(auto, using(crate::specs::Inet6DevConfFields::inet6_dev_conf_of_table))]
    fn read(payload: &[u8]) -> Inet6DevConf {
        let mut words = [0; INET6_DEV_CONF_COUNT];
        read_i32s(payload, &mut words);
        Inet6DevConf::from_words(words)
    }

    #[tactic(auto, unfolding(crate::specs::Inet6DevConfFields::inet6_dev_conf_bytes))]
    fn write(&self, buffer: &mut [u8]) {
        put_i32s(buffer, &self.words());
    }

    ghost laws = { inet6_dev_conf_laws.laws };
}

impl PlainRecord<INET6_DEV_CONF_SIZE> for Inet6DevConf {
    ghost written = { inet6_dev_conf_laws.plain };
}

impl Inet6DevConf {
    /// Reads a record from the front of the payload, as if zeros followed it. Nothing is refused.
    #[tactic(auto, using(crate::specs::Inet6DevConfFields::inet6_dev_conf_table))]
    pub fn read_padded(payload: &[u8]) -> Inet6DevConf
        ensures value { result ≡ inet6_dev_conf_of payload.now }
        ensures fields { inet6_dev_conf_fields result
            ≡ signed_from w32 payload.now 0 INET6_DEV_CONF_COUNT }
    {
        Inet6DevConf::read(payload)
    }

    /// Reads a record from the front of the payload. A payload of fewer than 240 bytes is refused with `TooShort`.
    pub fn parse(payload: &[u8]) -> Result<Inet6DevConf, DecodeError>
        ensures { Parses (sized inet6_dev_conf_size inet6_dev_conf_of) payload.now result }
    {
        Inet6DevConf::parse_sized(payload)
    }

    /// The number of bytes that `emit` writes, 240.
    pub fn buffer_len(&self) -> usize
        ensures { result ≡ inet6_dev_conf_size }
    {
        INET6_DEV_CONF_SIZE
    }

    /// Writes the record to a buffer of exactly 240 bytes.
    pub fn emit(&self, buffer: &mut [u8])
        requires { length buffer.old ≡ inet6_dev_conf_size }
        ensures { buffer.new ≡ inet6_dev_conf_bytes self.now }
    {
        self.write(buffer);
    }

    /// Writes the record to the end of a buffer of at least 240 bytes, keeps the bytes before it, and returns where it
    /// starts.
    pub fn fill(&self, buffer: &mut [u8]) -> usize
        requires { inet6_dev_conf_size ≤ length buffer.old }
        ensures { Filled buffer.old buffer.new (inet6_dev_conf_bytes self.now) result }
    {
        self.fill_back(buffer)
    }
}

impl Exact for Inet6DevConf {
    ghost decides = { inet6_dev_conf_decides };
}

/// The bytes of a record, `Inet6DevConf`.
pub type Inet6DevConfBuffer = RecordBuffer<Inet6DevConf, INET6_DEV_CONF_SIZE>;
