//! The settings by family.

use crate::form::{Bits, Choice, Form, List, Settings, Table, Words};
use crate::tables::Row;
use link_info::Size;

/// The families in `IFLA_AF_SPEC`.
pub const FAMILIES: [Row; 3] = [
    (2, "inet", Form::List(List::Own(Table::Inet))),
    (10, "inet6", Form::List(List::Own(Table::Inet6))),
    (45, "mctp", Form::List(List::Own(Table::Mctp))),
];

/// The settings of IPv4.
pub const INET: [Row; 1] = [(1, "conf", Form::Settings(Settings::Inet))];

/// The settings of IPv6.
pub const INET6: [Row; 9] = [
    (1, "flags", Form::Flags(Bits::Inet6)),
    (2, "conf", Form::Settings(Settings::Inet6)),
    (3, "stats", Form::Ipv6Counters),
    (4, "mcast", Form::Kept),
    (5, "cacheinfo", Form::Settings(Settings::Cache)),
    (6, "icmp6-stats", Form::Counters(Words::Icmp6)),
    (7, "token", Form::Ipv6),
    (8, "addr-gen-mode", Form::Choice(Choice::GenMode)),
    (9, "ra-mtu", Form::Number(Size::Four)),
];

/// The settings of MCTP.
pub const MCTP: [Row; 2] = [
    (1, "net", Form::Number(Size::Four)),
    (2, "phys-binding", Form::Choice(Choice::Binding)),
];

/// The counters of IPv6, after how many there are: the place of each up to Linux 6.12, and since Linux 6.16.
pub const INET6_STATS: [(&str, u8, u8); 38] = [
    ("num", 0, 0),
    ("inpkts", 1, 1),
    ("inoctets", 2, 2),
    ("indelivers", 3, 3),
    ("outforwdatagrams", 4, 11),
    ("outpkts", 5, 8),
    ("outoctets", 6, 10),
    ("inhdrerrors", 7, 12),
    ("intoobigerrors", 8, 13),
    ("innoroutes", 9, 14),
    ("inaddrerrors", 10, 15),
    ("inunknownprotos", 11, 16),
    ("intruncatedpkts", 12, 17),
    ("indiscards", 13, 18),
    ("outdiscards", 14, 19),
    ("outnoroutes", 15, 20),
    ("reasmtimeout", 16, 21),
    ("reasmreqds", 17, 22),
    ("reasmoks", 18, 23),
    ("reasmfails", 19, 24),
    ("fragoks", 20, 25),
    ("fragfails", 21, 26),
    ("fragcreates", 22, 27),
    ("inmcastpkts", 23, 28),
    ("outmcastpkts", 24, 29),
    ("inbcastpkts", 25, 30),
    ("outbcastpkts", 26, 31),
    ("inmcastoctets", 27, 32),
    ("outmcastoctets", 28, 33),
    ("inbcastoctets", 29, 34),
    ("outbcastoctets", 30, 35),
    ("csumerrors", 31, 36),
    ("noectpkts", 32, 4),
    ("ect1-pkts", 33, 5),
    ("ect0-pkts", 34, 6),
    ("cepkts", 35, 7),
    ("reasm-overlaps", 36, 37),
    ("outtransmits", 37, 9),
];

/// The physical bindings of MCTP, by their numbers; 0 has no name.
pub const MCTP_BINDINGS: [&str; 10] = [
    "", "smbus", "pcie-vdm", "usb", "kcs", "serial", "i3c", "mmbi", "pcc", "ucie",
];

/// The counters of ICMPv6, after how many there are.
pub const ICMP6_STATS: [&str; 7] = [
    "num",
    "inmsgs",
    "inerrors",
    "outmsgs",
    "outerrors",
    "csumerrors",
    "ratelimithost",
];

/// The settings of IPv4.
pub const INET_CONF: [&str; 33] = [
    "forwarding",
    "mc-forwarding",
    "proxy-arp",
    "accept-redirects",
    "secure-redirects",
    "send-redirects",
    "shared-media",
    "rp-filter",
    "accept-source-route",
    "bootp-relay",
    "log-martians",
    "tag",
    "arpfilter",
    "medium-id",
    "noxfrm",
    "nopolicy",
    "force-igmp-version",
    "arp-announce",
    "arp-ignore",
    "promote-secondaries",
    "arp-accept",
    "arp-notify",
    "accept-local",
    "src-vmark",
    "proxy-arp-pvlan",
    "route-localnet",
    "igmpv2-unsolicited-report-interval",
    "igmpv3-unsolicited-report-interval",
    "ignore-routes-with-linkdown",
    "drop-unicast-in-l2-multicast",
    "drop-gratuitous-arp",
    "bc-forwarding",
    "arp-evict-nocarrier",
];

/// The settings of IPv6.
pub const INET6_CONF: [&str; 60] = [
    "forwarding",
    "hoplimit",
    "mtu6",
    "accept-ra",
    "accept-redirects",
    "autoconf",
    "dad-transmits",
    "rtr-solicits",
    "rtr-solicit-interval",
    "rtr-solicit-delay",
    "use-tempaddr",
    "temp-valid-lft",
    "temp-prefered-lft",
    "regen-max-retry",
    "max-desync-factor",
    "max-addresses",
    "force-mld-version",
    "accept-ra-defrtr",
    "accept-ra-pinfo",
    "accept-ra-rtr-pref",
    "rtr-probe-interval",
    "accept-ra-rt-info-max-plen",
    "proxy-ndp",
    "optimistic-dad",
    "accept-source-route",
    "mc-forwarding",
    "disable-ipv6",
    "accept-dad",
    "force-tllao",
    "ndisc-notify",
    "mldv1-unsolicited-report-interval",
    "mldv2-unsolicited-report-interval",
    "suppress-frag-ndisc",
    "accept-ra-from-local",
    "use-optimistic",
    "accept-ra-mtu",
    "stable-secret",
    "use-oif-addrs-only",
    "accept-ra-min-hop-limit",
    "ignore-routes-with-linkdown",
    "drop-unicast-in-l2-multicast",
    "drop-unsolicited-na",
    "keep-addr-on-down",
    "rtr-solicit-max-interval",
    "seg6-enabled",
    "seg6-require-hmac",
    "enhanced-dad",
    "addr-gen-mode",
    "disable-policy",
    "accept-ra-rt-info-min-plen",
    "ndisc-tclass",
    "rpl-seg-enabled",
    "ra-defrtr-metric",
    "ioam6-enabled",
    "ioam6-id",
    "ioam6-id-wide",
    "ndisc-evict-nocarrier",
    "accept-untracked-na",
    "accept-ra-min-lft",
    "force-forwarding",
];

/// The times of the neighbour cache.
pub const CACHE_INFO: [&str; 4] = ["max-reasm-len", "tstamp", "reachable-time", "retrans-time"];

/// The flags of an interface of IPv6.
pub const INET6_FLAGS: [(u64, &str); 5] = [
    (0x80, "ra-otherconf"),
    (0x40, "ra-managed"),
    (0x20, "ra-rcvd"),
    (0x10, "rs-sent"),
    (0x8000_0000, "ready"),
];

/// How addresses are made, by the numbers.
pub const ADDR_GEN_MODES: [&str; 4] = ["eui64", "none", "stable-privacy", "random"];
