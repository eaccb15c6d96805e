//! The names that `link_msg` gives: a user's crate names no other.

use expected::equal;
use link_msg::AddressFamily;
use link_msg::AfSpecBridge;
use link_msg::AfSpecInet;
use link_msg::AfSpecInet6;
use link_msg::AfSpecMctp;
use link_msg::AfSpecUnspec;
use link_msg::CanonError;
use link_msg::Cause;
use link_msg::DecodeError;
use link_msg::DefaultNla;
use link_msg::DevlinkPort;
use link_msg::DpllPin;
use link_msg::Entry;
use link_msg::Icmp6Stats;
use link_msg::Icmp6StatsBuffer;
use link_msg::In6AddrGenMode;
use link_msg::Inet6CacheInfo;
use link_msg::Inet6CacheInfoBuffer;
use link_msg::Inet6DevConf;
use link_msg::Inet6DevConfBuffer;
use link_msg::Inet6IfaceFlags;
use link_msg::Inet6Stats;
use link_msg::Inet6StatsBuffer;
use link_msg::InetDevConf;
use link_msg::InetDevConfBuffer;
use link_msg::LinkAttribute;
use link_msg::LinkEvent;
use link_msg::LinkExtentMask;
use link_msg::LinkFlags;
use link_msg::LinkHeader;
use link_msg::LinkInfo;
use link_msg::LinkLayerType;
use link_msg::LinkMessage;
use link_msg::LinkMessageBuffer;
use link_msg::LinkMode;
use link_msg::LinkPhysId;
use link_msg::LinkProtoInfoBridge;
use link_msg::LinkProtoInfoInet6;
use link_msg::LinkProtocolDownReason;
use link_msg::LinkVfInfo;
use link_msg::LinkVfPort;
use link_msg::LinkXdp;
use link_msg::Map;
use link_msg::MapBuffer;
use link_msg::MctpPhysBinding;
use link_msg::NLA_F_NESTED;
use link_msg::NLA_F_NET_BYTEORDER;
use link_msg::NLA_HEADER_SIZE;
use link_msg::NLA_TYPE_MASK;
use link_msg::NlaBuffer;
use link_msg::NlasIterator;
use link_msg::Prop;
use link_msg::State;
use link_msg::Stats;
use link_msg::Stats64;
use link_msg::Stats64Buffer;
use link_msg::StatsBuffer;
use link_msg::VfInfo;
use link_msg::VfInfoBroadcast;
use link_msg::VfInfoBroadcastBuffer;
use link_msg::VfInfoGuid;
use link_msg::VfInfoGuidBuffer;
use link_msg::VfInfoLinkState;
use link_msg::VfInfoLinkStateBuffer;
use link_msg::VfInfoMac;
use link_msg::VfInfoMacBuffer;
use link_msg::VfInfoRate;
use link_msg::VfInfoRateBuffer;
use link_msg::VfInfoRssQueryEn;
use link_msg::VfInfoRssQueryEnBuffer;
use link_msg::VfInfoSpoofCheck;
use link_msg::VfInfoSpoofCheckBuffer;
use link_msg::VfInfoTrust;
use link_msg::VfInfoTrustBuffer;
use link_msg::VfInfoTxRate;
use link_msg::VfInfoTxRateBuffer;
use link_msg::VfInfoVlan;
use link_msg::VfInfoVlanBuffer;
use link_msg::VfLinkState;
use link_msg::VfPort;
use link_msg::VfStats;
use link_msg::VfVlan;
use link_msg::VfVlanInfo;
use link_msg::VlanProtocol;
use link_msg::WirelessEvent;
use link_msg::XdpAttached;
use link_msg::check_string;
use link_msg::emit_i32;
use link_msg::emit_nlas;
use link_msg::emit_u16;
use link_msg::emit_u32;
use link_msg::emit_u64;
use link_msg::nlas_buffer_len;
use link_msg::nlas_fill;
use link_msg::nlas_fit;
use link_msg::parse_i32;
use link_msg::parse_ipv6_addr;
use link_msg::parse_string;
use link_msg::parse_u8;
use link_msg::parse_u16;
use link_msg::parse_u32;
use link_msg::parse_u64;

fn named<T>() {}

fn named_entry<E: Entry>() {}

#[test]
fn messages_and_attributes(_rt: HostRuntime) {
    named::<LinkMessage>();
    named::<LinkMessageBuffer>();
    named::<LinkHeader>();
    named::<LinkAttribute>();
    named::<CanonError>();
    named::<Cause>();
    named::<DecodeError>();
    named::<DefaultNla>();
    named::<NlaBuffer<'_>>();
    named::<NlasIterator<'_>>();
}

#[test]
fn inner_lists(_rt: HostRuntime) {
    named::<AfSpecBridge>();
    named::<AfSpecInet>();
    named::<AfSpecInet6>();
    named::<AfSpecMctp>();
    named::<AfSpecUnspec>();
    named::<LinkProtoInfoBridge>();
    named::<LinkProtoInfoInet6>();
    named::<DevlinkPort>();
    named::<DpllPin>();
    named::<LinkInfo>();
    named::<LinkProtocolDownReason>();
    named::<LinkXdp>();
    named::<Prop>();
    named::<WirelessEvent>();
    named_entry::<LinkVfInfo>();
    named_entry::<LinkVfPort>();
    named::<VfInfo>();
    named::<VfPort>();
    named::<VfStats>();
    named::<VfVlan>();
}

#[test]
fn values(_rt: HostRuntime) {
    named::<AddressFamily>();
    named::<In6AddrGenMode>();
    named::<Inet6IfaceFlags>();
    named::<LinkEvent>();
    named::<LinkExtentMask>();
    named::<LinkFlags>();
    named::<LinkLayerType>();
    named::<LinkMode>();
    named::<LinkPhysId>();
    named::<MctpPhysBinding>();
    named::<State>();
    named::<VfLinkState>();
    named::<VlanProtocol>();
    named::<XdpAttached>();
}

#[test]
fn kernel_records(_rt: HostRuntime) {
    named::<Icmp6Stats>();
    named::<Icmp6StatsBuffer>();
    named::<Inet6CacheInfo>();
    named::<Inet6CacheInfoBuffer>();
    named::<Inet6DevConf>();
    named::<Inet6DevConfBuffer>();
    named::<Inet6Stats>();
    named::<Inet6StatsBuffer>();
    named::<InetDevConf>();
    named::<InetDevConfBuffer>();
    named::<Map>();
    named::<MapBuffer>();
    named::<Stats>();
    named::<StatsBuffer>();
    named::<Stats64>();
    named::<Stats64Buffer>();
}

#[test]
fn records_of_functions(_rt: HostRuntime) {
    named::<VfInfoBroadcast>();
    named::<VfInfoBroadcastBuffer>();
    named::<VfInfoGuid>();
    named::<VfInfoGuidBuffer>();
    named::<VfInfoLinkState>();
    named::<VfInfoLinkStateBuffer>();
    named::<VfInfoMac>();
    named::<VfInfoMacBuffer>();
    named::<VfInfoRate>();
    named::<VfInfoRateBuffer>();
    named::<VfInfoRssQueryEn>();
    named::<VfInfoRssQueryEnBuffer>();
    named::<VfInfoSpoofCheck>();
    named::<VfInfoSpoofCheckBuffer>();
    named::<VfInfoTrust>();
    named::<VfInfoTrustBuffer>();
    named::<VfInfoTxRate>();
    named::<VfInfoTxRateBuffer>();
    named::<VfInfoVlan>();
    named::<VfInfoVlanBuffer>();
    named::<VfVlanInfo>();
}

/// The numbers that are read are written again.
#[test]
fn readers_and_writers(rt: HostRuntime) {
    let mut out = [0; 8];
    emit_u16(&mut out, parse_u16(&[0x01, 0x02]).expect(&rt, "it is read"));
    emit_u32(
        &mut out,
        parse_u32(&[0x01, 0x02, 0x03, 0x04]).expect(&rt, "it is read"),
    );
    emit_i32(
        &mut out,
        parse_i32(&[0x01, 0x02, 0x03, 0x04]).expect(&rt, "it is read"),
    );
    emit_u64(
        &mut out,
        parse_u64(&[0x01, 0x02, 0x03, 0x04, 0x05, 0x06, 0x07, 0x08]).expect(&rt, "it is read"),
    );
    assert!(rt; equal(&out, &[0x01, 0x02, 0x03, 0x04, 0x05, 0x06, 0x07, 0x08]));
    assert!(rt; parse_u8(&[9]).expect(&rt, "it is read") == 9);
}

#[test]
fn readers_of_texts(rt: HostRuntime) {
    parse_ipv6_addr(&[1; 16]).expect(&rt, "it is read");
    parse_string(rt.alloc(), b"lo\0").expect(&rt, "it is read");
    check_string(b"lo").expect(&rt, "it is read");
}

#[test]
fn lists_and_constants(rt: HostRuntime) {
    assert!(rt; NLA_F_NESTED + NLA_F_NET_BYTEORDER + NLA_TYPE_MASK == 0xffff);
    assert!(rt; NLA_HEADER_SIZE == 4);
    let none: [DefaultNla; 0] = [];
    let mut out = [0; 8];
    assert!(rt; nlas_fit(&none));
    assert!(rt; nlas_buffer_len(&none) == 0);
    emit_nlas(&none, &mut out);
    assert!(rt; nlas_fill(&none, &mut out) == 8);
}
