//! Enums by their numbers and texts, extent masks and physical ids.

use crate::testing::{
    are_named, are_numbers, are_written, holds, is_read, is_same, is_text, means, prints, refuses,
};
use expected::{cause_of, zeros_after};
use link_vals::*;
use nla_wire::Cause;
use nla_wire::exact::same;
use std::alloc::Global;
use std::fmt::Display;
use std::process::Abort;
use std::str::FromStr;

/// Families of addresses.
const FAMILIES: &[(u8, AddressFamily)] = &[
    (0, AddressFamily::Unspec),
    (2, AddressFamily::Inet),
    (7, AddressFamily::Bridge),
    (10, AddressFamily::Inet6),
    (45, AddressFamily::Mctp),
    (17, AddressFamily::Other(17)),
];

/// States of a function's link.
const VF_STATES: &[(u32, VfLinkState)] = &[
    (0, VfLinkState::Auto),
    (1, VfLinkState::Enable),
    (2, VfLinkState::Disable),
    (70_000, VfLinkState::Other(70_000)),
];

/// Events.
const EVENTS: &[(u32, LinkEvent)] = &[
    (0, LinkEvent::None),
    (1, LinkEvent::Reboot),
    (2, LinkEvent::Features),
    (3, LinkEvent::BondingFailover),
    (4, LinkEvent::NotifyPeers),
    (5, LinkEvent::IgmpResend),
    (6, LinkEvent::BondingOptions),
    (7, LinkEvent::Other(7)),
];

/// Flags of an extent mask.
const EXTENT_FLAGS: &[(u32, LinkExtentMask)] = &[
    (1, LinkExtentMask::Vf),
    (2, LinkExtentMask::Brvlan),
    (4, LinkExtentMask::BrvlanCompressed),
    (8, LinkExtentMask::SkipStats),
    (16, LinkExtentMask::Mrp),
    (32, LinkExtentMask::CfmConfig),
    (64, LinkExtentMask::CfmStatus),
    (128, LinkExtentMask::Mst),
    (0, LinkExtentMask::Other(0)),
    (3, LinkExtentMask::Other(3)),
    (256, LinkExtentMask::Other(256)),
];

/// Protocols of a vlan, and the numbers that they are written as.
const PROTOCOLS: &[(u16, VlanProtocol, u16)] = &[
    (0x8100, VlanProtocol::Ieee8021Q, 0x8100),
    (0x88a8, VlanProtocol::Ieee8021Ad, 0x88a8),
    (0x9100, VlanProtocol::Ieee8021Q, 0x8100),
];

#[test]
fn numbers_of_families_states_events_flags_and_protocols(rt: HostRuntime) {
    are_numbers(&rt, FAMILIES);
    are_numbers(&rt, VF_STATES);
    are_numbers(&rt, EVENTS);
    are_numbers(&rt, EXTENT_FLAGS);
    are_written(&rt, PROTOCOLS);
}

/// How express data paths are attached.
const ATTACHMENTS: &[(u8, XdpAttached)] = &[
    (0, XdpAttached::None),
    (1, XdpAttached::Driver),
    (2, XdpAttached::SocketBuffer),
    (3, XdpAttached::Hardware),
    (4, XdpAttached::Multiple),
    (5, XdpAttached::Other(5)),
];

#[test]
fn numbers_of_attachments(rt: HostRuntime) {
    for (number, attached) in ATTACHMENTS {
        let read = XdpAttached::try_from(*number).expect(&rt, "it is read");
        is_same(&rt, &read, attached);
        is_same(&rt, &u8::from(*attached), number);
    }
}

#[test]
fn defaults(rt: HostRuntime) {
    is_same(&rt, &AddressFamily::default(), &AddressFamily::Unspec);
    is_same(&rt, &VfLinkState::default(), &VfLinkState::Auto);
    is_same(&rt, &VlanProtocol::default(), &VlanProtocol::Ieee8021Q);
    is_same(&rt, &LinkEvent::default(), &LinkEvent::None);
    is_same(&rt, &LinkLayerType::default(), &LinkLayerType::Netrom);
    is_same(&rt, &LinkMode::default(), &LinkMode::Default);
    is_same(&rt, &In6AddrGenMode::default(), &In6AddrGenMode::Eui64);
}

#[test]
fn payloads_of_events(rt: HostRuntime) {
    is_read(
        &rt,
        LinkEvent::parse(&[0x05, 0x00, 0x00, 0x00]),
        &LinkEvent::IgmpResend,
    );
    is_same(&rt, &LinkEvent::IgmpResend.buffer_len(), &4);
    let mut buffer = [255; 6];
    LinkEvent::IgmpResend.emit(&mut buffer);
    is_text(&rt, &buffer, &[0x05, 0x00, 0x00, 0x00, 0xff, 0xff]);
    let short = Cause::WrongLength { got: 2, want: 4 };
    refuses(&rt, LinkEvent::parse(&[0x05, 0x00]), short);
}

/// Numbers, the layer types that they mean, and their texts: `ARPHRD_..` of linux/if_arp.h.
const LAYER_TYPES_BELOW_256: &[(u16, LinkLayerType, &str)] = &[
    (0, LinkLayerType::Netrom, "NETROM"),
    (1, LinkLayerType::Ether, "ETHER"),
    (2, LinkLayerType::Eether, "EETHER"),
    (3, LinkLayerType::Ax25, "AX25"),
    (4, LinkLayerType::Pronet, "PRONET"),
    (5, LinkLayerType::Chaos, "CHAOS"),
    (6, LinkLayerType::Ieee802, "IEEE802"),
    (7, LinkLayerType::Arcnet, "ARCNET"),
    (8, LinkLayerType::Appletlk, "APPLETLK"),
    (15, LinkLayerType::Dlci, "DLCI"),
    (19, LinkLayerType::Atm, "ATM"),
    (23, LinkLayerType::Metricom, "METRICOM"),
    (24, LinkLayerType::Ieee1394, "IEEE1394"),
    (27, LinkLayerType::Eui64, "EUI64"),
    (32, LinkLayerType::Infiniband, "INFINIBAND"),
];

/// The next of them.
const LAYER_TYPES_FROM_256: &[(u16, LinkLayerType, &str)] = &[
    (256, LinkLayerType::Slip, "SLIP"),
    (257, LinkLayerType::Cslip, "CSLIP"),
    (258, LinkLayerType::Slip6, "SLIP6"),
    (259, LinkLayerType::Cslip6, "CSLIP6"),
    (260, LinkLayerType::Rsrvd, "RSRVD"),
    (264, LinkLayerType::Adapt, "ADAPT"),
    (270, LinkLayerType::Rose, "ROSE"),
    (271, LinkLayerType::X25, "X25"),
    (272, LinkLayerType::Hwx25, "HWX25"),
    (280, LinkLayerType::Can, "CAN"),
    (290, LinkLayerType::Mctp, "MCTP"),
    (512, LinkLayerType::Ppp, "PPP"),
    (513, LinkLayerType::Hdlc, "HDLC"),
    (516, LinkLayerType::Lapb, "LAPB"),
    (517, LinkLayerType::Ddcmp, "DDCMP"),
    (518, LinkLayerType::Rawhdlc, "RAWHDLC"),
    (519, LinkLayerType::Rawip, "RAWIP"),
];

/// The next of them.
const LAYER_TYPES_FROM_768: &[(u16, LinkLayerType, &str)] = &[
    (768, LinkLayerType::Tunnel, "TUNNEL"),
    (769, LinkLayerType::Tunnel6, "TUNNEL6"),
    (770, LinkLayerType::Frad, "FRAD"),
    (771, LinkLayerType::Skip, "SKIP"),
    (772, LinkLayerType::Loopback, "LOOPBACK"),
    (773, LinkLayerType::Localtlk, "LOCALTLK"),
    (774, LinkLayerType::Fddi, "FDDI"),
    (775, LinkLayerType::Bif, "BIF"),
    (776, LinkLayerType::Sit, "SIT"),
    (777, LinkLayerType::Ipddp, "IPDDP"),
    (778, LinkLayerType::Ipgre, "IPGRE"),
    (779, LinkLayerType::Pimreg, "PIMREG"),
    (780, LinkLayerType::Hippi, "HIPPI"),
    (781, LinkLayerType::Ash, "ASH"),
    (782, LinkLayerType::Econet, "ECONET"),
    (783, LinkLayerType::Irda, "IRDA"),
    (784, LinkLayerType::Fcpp, "FCPP"),
    (785, LinkLayerType::Fcal, "FCAL"),
    (786, LinkLayerType::Fcpl, "FCPL"),
    (787, LinkLayerType::Fcfabric, "FCFABRIC"),
];

/// The last of them.
const LAYER_TYPES_FROM_800: &[(u16, LinkLayerType, &str)] = &[
    (800, LinkLayerType::Ieee802Tr, "IEEE802_TR"),
    (801, LinkLayerType::Ieee80211, "IEEE80211"),
    (802, LinkLayerType::Ieee80211Prism, "IEEE80211_PRISM"),
    (803, LinkLayerType::Ieee80211Radiotap, "IEEE80211_RADIOTAP"),
    (804, LinkLayerType::Ieee802154, "IEEE802154"),
    (805, LinkLayerType::Ieee802154Monitor, "IEEE802154_MONITOR"),
    (820, LinkLayerType::Phonet, "PHONET"),
    (821, LinkLayerType::PhonetPipe, "PHONET_PIPE"),
    (822, LinkLayerType::Caif, "CAIF"),
    (823, LinkLayerType::Ip6gre, "IP6GRE"),
    (824, LinkLayerType::Netlink, "NETLINK"),
    (825, LinkLayerType::Sixlowpan, "6LOWPAN"),
    (826, LinkLayerType::Vsockmon, "VSOCKMON"),
    (65534, LinkLayerType::None, "NONE"),
    (65535, LinkLayerType::Void, "VOID"),
];

/// Modes of a link.
const MODES: &[(u8, LinkMode, &str)] = &[
    (0, LinkMode::Default, "DEFAULT"),
    (1, LinkMode::Dormant, "DORMANT"),
    (2, LinkMode::Testing, "TESTING"),
    (7, LinkMode::Other(7), "UNKNOWN:7"),
];

/// States of a link.
const STATES: &[(u8, State, &str)] = &[
    (0, State::Unknown, "UNKNOWN"),
    (1, State::NotPresent, "NOTPRESENT"),
    (2, State::Down, "DOWN"),
    (3, State::LowerLayerDown, "LOWERLAYERDOWN"),
    (4, State::Testing, "TESTING"),
    (5, State::Dormant, "DORMANT"),
    (6, State::Up, "UP"),
    (7, State::Other(7), "7"),
];

#[test]
fn numbers_and_texts_of_layer_types_modes_and_states(rt: HostRuntime) {
    are_named(&rt, rt.alloc(), LAYER_TYPES_BELOW_256);
    are_named(&rt, rt.alloc(), LAYER_TYPES_FROM_256);
    are_named(&rt, rt.alloc(), LAYER_TYPES_FROM_768);
    are_named(&rt, rt.alloc(), LAYER_TYPES_FROM_800);
    are_named(&rt, rt.alloc(), MODES);
    are_named(&rt, rt.alloc(), STATES);
}

#[test]
fn names_of_layer_types(rt: HostRuntime) {
    is_same(&rt, &LinkLayerType::from(7777), &LinkLayerType::Void);
    is_same(&rt, &LinkLayerType::Cisco, &LinkLayerType::Hdlc);
    means::<u16, LinkLayerType>(&rt, 513, LinkLayerType::Cisco, 513);
    assert!(rt; same(&LinkLayerType::Ether, &LinkLayerType::from(1)));
}

/// Spellings of the names of states.
const NAMES_OF_STATES: &[(&str, State)] = &[
    ("UNKNOWN", State::Unknown),
    ("NOTPRESENT", State::NotPresent),
    ("DOWN", State::Down),
    ("LOWERLAYERDOWN", State::LowerLayerDown),
    ("TESTING", State::Testing),
    ("DORMANT", State::Dormant),
    ("UP", State::Up),
    ("unknown", State::Unknown),
    ("NotPresent", State::NotPresent),
    ("down", State::Down),
    ("LowerLayerDown", State::LowerLayerDown),
    ("tESTING", State::Testing),
    ("dormant", State::Dormant),
    ("uP", State::Up),
];

/// Texts that are no name of a state. The last two spell UNKNOWN and TESTING with a letter that is a K or an S only
/// where case beyond ASCII is ignored.
const NAMES_OF_NO_STATES: &[&str] = &["7", "", "UP ", "lower", "UN\u{212a}NOWN", "TE\u{17f}TING"];

#[test]
fn names_of_states_and_of_none(rt: HostRuntime) {
    for (text, state) in NAMES_OF_STATES {
        let read = State::from_str(text).expect(&rt, "it is a name");
        holds(&rt, text, read == *state);
    }
    for text in NAMES_OF_NO_STATES {
        let cause = cause_of(State::from_str(text));
        holds(&rt, text, cause == Some(Cause::InvalidState));
    }
}

/// Each number means the value beside it, which is written as the number and printed as the text.
fn are_numbered<'a, T: Copy + Display + PartialEq + From<u8>>(
    rt: &impl Abort,
    alloc: Global,
    rows: &'a [(u8, T, &'a str)],
)
where
    u8: From<&'a T>,
{
    for (number, value, text) in rows {
        holds(rt, text, T::from(*number) == *value);
        holds(rt, text, u8::from(value) == *number);
        prints(rt, alloc, value, text);
    }
}

/// How IPv6 addresses are made.
const ADDRESS_MODES: &[(u8, In6AddrGenMode, &str)] = &[
    (0, In6AddrGenMode::Eui64, "eui64"),
    (1, In6AddrGenMode::None, "none"),
    (2, In6AddrGenMode::StablePrivacy, "stable_privacy"),
    (3, In6AddrGenMode::Random, "random"),
    (9, In6AddrGenMode::Other(9), "other(9)"),
];

/// Physical bindings of MCTP.
const BINDINGS: &[(u8, MctpPhysBinding, &str)] = &[
    (1, MctpPhysBinding::Smbus, "SMBus"),
    (2, MctpPhysBinding::PcieVdm, "PCIe VDM"),
    (3, MctpPhysBinding::Usb, "USB"),
    (4, MctpPhysBinding::Kcs, "KCS"),
    (5, MctpPhysBinding::Serial, "Serial"),
    (6, MctpPhysBinding::I3c, "I3C"),
    (7, MctpPhysBinding::Mmbi, "MMBI"),
    (8, MctpPhysBinding::Pcc, "PCC"),
    (9, MctpPhysBinding::Ucie, "UCIE"),
    (255, MctpPhysBinding::Vendor, "Vendor"),
    (10, MctpPhysBinding::Other(10), "other(10)"),
];

#[test]
fn numbers_and_texts_of_address_modes_and_bindings(rt: HostRuntime) {
    are_numbered(&rt, rt.alloc(), ADDRESS_MODES);
    are_numbered(&rt, rt.alloc(), BINDINGS);
}

/// Masks, and their flags.
const EXTENT_LISTS: &[(&str, u32, &[LinkExtentMask])] = &[
    (
        "0x109",
        0x109,
        &[
            LinkExtentMask::Vf,
            LinkExtentMask::SkipStats,
            LinkExtentMask::Other(256),
        ],
    ),
    ("0", 0, &[]),
    ("0x81", 0x81, &[LinkExtentMask::Vf, LinkExtentMask::Mst]),
];

#[test]
fn extent_lists(rt: HostRuntime) {
    for (label, mask, wanted) in EXTENT_LISTS {
        let list = LinkExtentMask::list_from(rt.alloc(), *mask).expect(&rt, "memory");
        holds(&rt, label, list.as_slice() == *wanted);
    }
}

#[test]
fn extent_sums(rt: HostRuntime) {
    use LinkExtentMask::{Other, Vf};
    assert!(rt; LinkExtentMask::sum_fits(&[]));
    assert!(rt; !LinkExtentMask::sum_fits(&[Other(4_294_967_295), Vf]));
    let twice = [Vf, Vf];
    assert!(rt; LinkExtentMask::sum_fits(&twice));
    assert!(rt; LinkExtentMask::sum(&twice) == 2);
}

#[test]
fn physical_ids(rt: HostRuntime) {
    let mut payload = [7; 33];
    payload[32] = 9;
    let id = LinkPhysId::parse(&payload).expect(&rt, "it is read");
    is_text(&rt, &id.id, &[7; 32]);
    assert!(rt; id.len == 32);
    assert!(rt; id.fits());
    let long = LinkPhysId {
        id: [7; 32],
        len: 33,
    };
    assert!(rt; !long.fits());
}

#[test]
fn short_physical_ids(rt: HostRuntime) {
    let short = LinkPhysId::parse(&[0x01, 0x02]).expect(&rt, "it is read");
    assert!(rt; short.len == 2);
    assert!(rt; short.buffer_len() == 2);
    let id: [u8; 32] = zeros_after(&[0x01, 0x02]);
    is_text(&rt, &short.id, &id);
    let mut buffer = [255; 4];
    short.emit(&mut buffer);
    is_text(&rt, &buffer, &[0x01, 0x02, 0xff, 0xff]);
}
