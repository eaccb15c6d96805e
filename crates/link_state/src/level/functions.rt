//! The lists of virtual functions.

ghost use Rattle.link_state.specs.declared.level.Level.TheVariants.{Functions, Function, FunctionStats};

use crate::walk::{Listed, fill_bytes, fill_list};
use link_vf::numbers::{
    IFLA_VF_BROADCAST, IFLA_VF_INFO, IFLA_VF_STATS, IFLA_VF_STATS_BROADCAST,
    IFLA_VF_STATS_MULTICAST, IFLA_VF_STATS_RX_BYTES, IFLA_VF_STATS_RX_DROPPED,
    IFLA_VF_STATS_RX_PACKETS, IFLA_VF_STATS_TX_BYTES, IFLA_VF_STATS_TX_DROPPED,
    IFLA_VF_STATS_TX_PACKETS,
};

/// `Level::Functions`.
pub(crate) struct FunctionsList<const BY: u8>;

impl<const BY: u8> Listed for FunctionsList<BY> {
    ghost level = { λ s. Functions };

    ghost byte = { BY };

    #[inline(always)]
    fn fill_payload(&self, number: u16, payload: &mut [u8]) {
        match number {
            IFLA_VF_INFO => fill_list(payload, &FunctionList::<BY>),
            _ => {}
        }
    }
}

/// `Level::Function`.
///
/// `IFLA_VF_BROADCAST` repeats `IFLA_BROADCAST`, and some kernels do not set the bytes behind it; behind the address of
/// `IFLA_VF_MAC` they have zeros.
pub(crate) struct FunctionList<const BY: u8>;

impl<const BY: u8> Listed for FunctionList<BY> {
    ghost level = { λ s. Function };

    ghost byte = { BY };

    #[inline(always)]
    fn fill_payload(&self, number: u16, payload: &mut [u8]) {
        match number {
            IFLA_VF_STATS => fill_list(payload, &FunctionStatsList::<BY>),
            IFLA_VF_BROADCAST => fill_bytes::<BY>(payload),
            _ => {}
        }
    }
}

/// `Level::FunctionStats`.
pub(crate) struct FunctionStatsList<const BY: u8>;

impl<const BY: u8> Listed for FunctionStatsList<BY> {
    ghost level = { λ s. FunctionStats };

    ghost byte = { BY };

    #[inline(always)]
    fn fill_payload(&self, number: u16, payload: &mut [u8]) {
        match number {
            IFLA_VF_STATS_RX_PACKETS => fill_bytes::<BY>(payload),
            IFLA_VF_STATS_TX_PACKETS => fill_bytes::<BY>(payload),
            IFLA_VF_STATS_RX_BYTES => fill_bytes::<BY>(payload),
            IFLA_VF_STATS_TX_BYTES => fill_bytes::<BY>(payload),
            IFLA_VF_STATS_BROADCAST => fill_bytes::<BY>(payload),
            IFLA_VF_STATS_MULTICAST => fill_bytes::<BY>(payload),
            IFLA_VF_STATS_RX_DROPPED => fill_bytes::<BY>(payload),
            IFLA_VF_STATS_TX_DROPPED => fill_bytes::<BY>(payload),
            _ => {}
        }
    }
}
