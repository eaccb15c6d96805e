//! The list of `IFLA_LINKINFO`, and the settings of each kind of device and of port.

ghost use Rattle.std.specs.Prelude.{◌≡◌};
ghost use Rattle.link_state.specs.Cleared.{info_level, payload_by, filled};
ghost use Rattle.link_state.specs.declared.level.Level.TheVariants.{Info, Bridge, Querier, BridgePort, BondPort};
ghost use Rattle.link_state.specs.declared.level.Level.TheVariants.{Can, Hsr};
ghost use Rattle.link_state.specs.Table.{data_action, slave_data_action};

use crate::kind::{Kind, kinds};
use crate::numbers::{
    BRIDGE_QUERIER_IP_OTHER_TIMER, BRIDGE_QUERIER_IPV6_OTHER_TIMER,
    IFLA_BOND_SLAVE_LINK_FAILURE_COUNT, IFLA_BR_FDB_N_LEARNED, IFLA_BR_GC_TIMER,
    IFLA_BR_HELLO_TIMER, IFLA_BR_MCAST_QUERIER_STATE, IFLA_BR_TCN_TIMER,
    IFLA_BR_TOPOLOGY_CHANGE_TIMER, IFLA_BRPORT_CONFIG_PENDING, IFLA_BRPORT_FORWARD_DELAY_TIMER,
    IFLA_BRPORT_HOLD_TIMER, IFLA_BRPORT_MCAST_EHT_HOSTS_CNT, IFLA_BRPORT_MCAST_N_GROUPS,
    IFLA_BRPORT_MESSAGE_AGE_TIMER, IFLA_BRPORT_TOPOLOGY_CHANGE_ACK, IFLA_CAN_BERR_COUNTER,
    IFLA_HSR_SEQ_NR, IFLA_INFO_DATA, IFLA_INFO_SLAVE_DATA, IFLA_INFO_XSTATS,
};
use crate::walk::{Listed, fill_bytes, fill_list};

/// Fills `IFLA_LINKINFO`, by the kinds that it names.
pub(crate) fn fill_link_info<const BY: u8>(payload: &mut [u8])
    ensures { payload.new ≡ filled BY (info_level payload.old) payload.old }
{
    let (kind, slave_kind) = kinds(payload);
    fill_list(payload, &InfoList::<BY> { kind, slave_kind });
}

/// `Level::Info`.
#[derive(Clone, Copy)]
pub(crate) struct InfoList<const BY: u8> {
    pub(crate) kind: Kind,
    pub(crate) slave_kind: Kind,
}

impl<const BY: u8> Listed for InfoList<BY> {
    ghost level = { λ s. Info s.kind s.slave_kind };

    ghost byte = { BY };

    #[inline(always)]
    fn fill_payload(&self, number: u16, payload: &mut [u8]) {
        match number {
            IFLA_INFO_DATA => fill_data::<BY>(self.kind, payload),
            IFLA_INFO_XSTATS => fill_bytes::<BY>(payload),
            IFLA_INFO_SLAVE_DATA => fill_slave_data::<BY>(self.slave_kind, payload),
            _ => {}
        }
    }
}

/// Fills the settings of a device of this kind.
fn fill_data<const BY: u8>(kind: Kind, payload: &mut [u8])
    ensures { payload.new ≡ payload_by BY (filled BY) (data_action kind) payload.old }
{
    match kind {
        Kind::Bridge => fill_list(payload, &BridgeList::<BY>),
        Kind::Can => fill_list(payload, &CanList::<BY>),
        Kind::Hsr => fill_list(payload, &HsrList::<BY>),
        _ => {}
    }
}

/// Fills the settings of a port of a device of this kind.
fn fill_slave_data<const BY: u8>(kind: Kind, payload: &mut [u8])
    ensures { payload.new ≡ payload_by BY (filled BY) (slave_data_action kind) payload.old }
{
    match kind {
        Kind::Bridge => fill_list(payload, &BridgePortList::<BY>),
        Kind::Bond => fill_list(payload, &BondPortList::<BY>),
        _ => {}
    }
}

/// `Level::Bridge`.
pub(crate) struct BridgeList<const BY: u8>;

impl<const BY: u8> Listed for BridgeList<BY> {
    ghost level = { λ s. Bridge };

    ghost byte = { BY };

    #[inline(always)]
    fn fill_payload(&self, number: u16, payload: &mut [u8]) {
        match number {
            IFLA_BR_HELLO_TIMER => fill_bytes::<BY>(payload),
            IFLA_BR_TCN_TIMER => fill_bytes::<BY>(payload),
            IFLA_BR_TOPOLOGY_CHANGE_TIMER => fill_bytes::<BY>(payload),
            IFLA_BR_GC_TIMER => fill_bytes::<BY>(payload),
            IFLA_BR_MCAST_QUERIER_STATE => fill_list(payload, &QuerierList::<BY>),
            IFLA_BR_FDB_N_LEARNED => fill_bytes::<BY>(payload),
            _ => {}
        }
    }
}

/// `Level::Querier`.
pub(crate) struct QuerierList<const BY: u8>;

impl<const BY: u8> Listed for QuerierList<BY> {
    ghost level = { λ s. Querier };

    ghost byte = { BY };

    #[inline(always)]
    fn fill_payload(&self, number: u16, payload: &mut [u8]) {
        match number {
            BRIDGE_QUERIER_IP_OTHER_TIMER => fill_bytes::<BY>(payload),
            BRIDGE_QUERIER_IPV6_OTHER_TIMER => fill_bytes::<BY>(payload),
            _ => {}
        }
    }
}

/// `Level::BridgePort`.
pub(crate) struct BridgePortList<const BY: u8>;

impl<const BY: u8> Listed for BridgePortList<BY> {
    ghost level = { λ s. BridgePort };

    ghost byte = { BY };

    #[inline(always)]
    fn fill_payload(&self, number: u16, payload: &mut [u8]) {
        match number {
            IFLA_BRPORT_TOPOLOGY_CHANGE_ACK => fill_bytes::<BY>(payload),
            IFLA_BRPORT_CONFIG_PENDING => fill_bytes::<BY>(payload),
            IFLA_BRPORT_MESSAGE_AGE_TIMER => fill_bytes::<BY>(payload),
            IFLA_BRPORT_FORWARD_DELAY_TIMER => fill_bytes::<BY>(payload),
            IFLA_BRPORT_HOLD_TIMER => fill_bytes::<BY>(payload),
            IFLA_BRPORT_MCAST_EHT_HOSTS_CNT => fill_bytes::<BY>(payload),
            IFLA_BRPORT_MCAST_N_GROUPS => fill_bytes::<BY>(payload),
            _ => {}
        }
    }
}

/// `Level::BondPort`.
pub(crate) struct BondPortList<const BY: u8>;

impl<const BY: u8> Listed for BondPortList<BY> {
    ghost level = { λ s. BondPort };

    ghost byte = { BY };

    #[inline(always)]
    fn fill_payload(&self, number: u16, payload: &mut [u8]) {
        match number {
            IFLA_BOND_SLAVE_LINK_FAILURE_COUNT => fill_bytes::<BY>(payload),
            _ => {}
        }
    }
}

/// `Level::Can`.
pub(crate) struct CanList<const BY: u8>;

impl<const BY: u8> Listed for CanList<BY> {
    ghost level = { λ s. Can };

    ghost byte = { BY };

    #[inline(always)]
    fn fill_payload(&self, number: u16, payload: &mut [u8]) {
        match number {
            IFLA_CAN_BERR_COUNTER => fill_bytes::<BY>(payload),
            _ => {}
        }
    }
}

/// `Level::Hsr`.
pub(crate) struct HsrList<const BY: u8>;

impl<const BY: u8> Listed for HsrList<BY> {
    ghost level = { λ s. Hsr };

    ghost byte = { BY };

    #[inline(always)]
    fn fill_payload(&self, number: u16, payload: &mut [u8]) {
        match number {
            IFLA_HSR_SEQ_NR => fill_bytes::<BY>(payload),
            _ => {}
        }
    }
}
