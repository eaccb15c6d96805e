//! Which attributes are cleared, by the list that they stand in.

ghost use Rattle.std.specs.Prelude.{◌≡◌};
ghost use Rattle.link_state.specs.Cleared.{filled, cleared};
ghost use Rattle.link_state.specs.declared.level.Level.TheVariants.{Message};

mod families;
mod functions;
mod info;

use crate::kind::Kind;
use crate::walk::{Listed, fill_bytes, fill_list};
use families::{FamiliesList, Inet6List, fill_af_spec, fill_proto_info};
use functions::{FunctionList, FunctionStatsList, FunctionsList};
use info::{
    BondPortList, BridgeList, BridgePortList, CanList, HsrList, InfoList, QuerierList,
    fill_link_info,
};
use link_msg::numbers::{
    IFLA_AF_SPEC, IFLA_CARRIER_CHANGES, IFLA_CARRIER_DOWN_COUNT, IFLA_CARRIER_UP_COUNT, IFLA_EVENT,
    IFLA_LINKINFO, IFLA_PROTINFO, IFLA_STATS, IFLA_STATS64, IFLA_VFINFO_LIST,
};
use link_vals::AddressFamily;

/// A list of attributes.
#[derive(Clone, Copy, Debug, PartialEq, Eq)]
pub enum Level {
    /// Those of a message whose header has this family.
    Message(AddressFamily),
    /// Those of `IFLA_AF_SPEC` of the family `AF_UNSPEC`.
    Families,
    /// Those of `AF_INET6` there, and of `IFLA_PROTINFO` of the family `AF_INET6`.
    Inet6,
    /// Those of `IFLA_VFINFO_LIST`.
    Functions,
    /// Those of `IFLA_VF_INFO`.
    Function,
    /// Those of `IFLA_VF_STATS`.
    FunctionStats,
    /// Those of `IFLA_LINKINFO`, where it names this kind of device, and this kind that the interface is a port of.
    Info(Kind, Kind),
    /// The settings of a bridge.
    Bridge,
    /// Those of `IFLA_BR_MCAST_QUERIER_STATE`.
    Querier,
    /// The settings of a bridge's port, also in `IFLA_PROTINFO` of the family `AF_BRIDGE`.
    BridgePort,
    /// The settings of a bond's port.
    BondPort,
    /// The settings of a CAN device.
    Can,
    /// The settings of a ring of HSR or PRP.
    Hsr,
}

/// `Level::Message`.
#[derive(Clone, Copy)]
struct MessageList<const BY: u8> {
    family: AddressFamily,
}

impl<const BY: u8> Listed for MessageList<BY> {
    ghost level = { λ s. Message s.family };

    ghost byte = { BY };

    #[inline(always)]
    fn keeps(&self, number: u16) -> bool {
        match number {
            IFLA_STATS => false,
            IFLA_PROTINFO => false,
            IFLA_LINKINFO => false,
            IFLA_VFINFO_LIST => false,
            IFLA_STATS64 => false,
            IFLA_AF_SPEC => false,
            IFLA_CARRIER_CHANGES => false,
            IFLA_EVENT => false,
            IFLA_CARRIER_UP_COUNT => false,
            IFLA_CARRIER_DOWN_COUNT => false,
            _ => true,
        }
    }

    #[inline(always)]
    fn fill_payload(&self, number: u16, payload: &mut [u8]) {
        match number {
            IFLA_STATS => fill_bytes::<BY>(payload),
            IFLA_PROTINFO => fill_proto_info::<BY>(self.family, payload),
            IFLA_LINKINFO => fill_link_info::<BY>(payload),
            IFLA_VFINFO_LIST => fill_list(payload, &FunctionsList::<BY>),
            IFLA_STATS64 => fill_bytes::<BY>(payload),
            IFLA_AF_SPEC => fill_af_spec::<BY>(self.family, payload),
            IFLA_CARRIER_CHANGES => fill_bytes::<BY>(payload),
            IFLA_EVENT => fill_bytes::<BY>(payload),
            IFLA_CARRIER_UP_COUNT => fill_bytes::<BY>(payload),
            IFLA_CARRIER_DOWN_COUNT => fill_bytes::<BY>(payload),
            _ => {}
        }
    }
}

/// Writes this byte over all that the state encoding clears in the attributes of a list, in which lists can stand that
/// have a level of their own.
///
/// Lengths, kinds and padding are kept, and all that stands after a fault of the frames.
pub fn fill<const BY: u8>(list: &mut [u8], level: Level)
    ensures { list.new ≡ filled BY level list.old }
{
    match level {
        Level::Message(family) => fill_list(list, &MessageList::<BY> { family }),
        Level::Families => fill_list(list, &FamiliesList::<BY>),
        Level::Inet6 => fill_list(list, &Inet6List::<BY>),
        Level::Functions => fill_list(list, &FunctionsList::<BY>),
        Level::Function => fill_list(list, &FunctionList::<BY>),
        Level::FunctionStats => fill_list(list, &FunctionStatsList::<BY>),
        Level::Info(kind, slave_kind) => fill_list(list, &InfoList::<BY> { kind, slave_kind }),
        Level::Bridge => fill_list(list, &BridgeList::<BY>),
        Level::Querier => fill_list(list, &QuerierList::<BY>),
        Level::BridgePort => fill_list(list, &BridgePortList::<BY>),
        Level::BondPort => fill_list(list, &BondPortList::<BY>),
        Level::Can => fill_list(list, &CanList::<BY>),
        Level::Hsr => fill_list(list, &HsrList::<BY>),
    }
}

/// Clears the attributes of a list, in which lists can stand that have a level of their own.
///
/// Lengths, kinds and padding are kept, and all that stands after a fault of the frames.
pub fn clear(list: &mut [u8], level: Level)
    ensures { list.new ≡ cleared level list.old }
{
    fill::<0>(list, level)
}
