//! The numbers of the attributes that this crate reads, as the kernel's headers name them. Each stands here and
//! nowhere else, but AF_INET, AF_INET6 and AF_MCTP, which are address families in `link_vals` too.

/// Settings of IPv4, in AF_INET (linux/if_link.h).
pub const IFLA_INET_CONF: u16 = 1;

/// Flags of the interface, in AF_INET6 (linux/if_link.h).
pub const IFLA_INET6_FLAGS: u16 = 1;
/// Settings of IPv6.
pub const IFLA_INET6_CONF: u16 = 2;
/// Statistics of IPv6.
pub const IFLA_INET6_STATS: u16 = 3;
/// Times of the neighbour cache.
pub const IFLA_INET6_CACHEINFO: u16 = 5;
/// Statistics of ICMPv6.
pub const IFLA_INET6_ICMP6STATS: u16 = 6;
/// The interface's part of the addresses that are made.
pub const IFLA_INET6_TOKEN: u16 = 7;
/// How addresses are made.
pub const IFLA_INET6_ADDR_GEN_MODE: u16 = 8;
/// The largest packet that a router advertised.
pub const IFLA_INET6_RA_MTU: u16 = 9;

/// The number of a network, in AF_MCTP (linux/if_link.h).
pub const IFLA_MCTP_NET: u16 = 1;
/// A physical binding.
pub const IFLA_MCTP_PHYS_BINDING: u16 = 2;

/// The family of IPv4, as a member of IFLA_AF_SPEC (linux/socket.h).
pub const AF_INET: u16 = 2;
/// The family of IPv6.
pub const AF_INET6: u16 = 10;
/// The family of MCTP.
pub const AF_MCTP: u16 = 45;
