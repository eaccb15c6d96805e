//! The lists of a family in `IFLA_AF_SPEC` and `IFLA_PROTINFO`.

ghost use Rattle.std.specs.Prelude.{◌≡◌};
ghost use Rattle.link_state.specs.Cleared.{payload_by, filled};
ghost use Rattle.link_state.specs.declared.level.Level.TheVariants.{Families, Inet6};
ghost use Rattle.link_state.specs.Table.{proto_info_action, af_spec_action};

use super::info::BridgePortList;
use crate::walk::{Listed, fill_bytes, fill_list, fill_part};
use link_afspec::numbers::{
    AF_INET6, IFLA_INET6_CACHEINFO, IFLA_INET6_ICMP6STATS, IFLA_INET6_STATS,
};
use link_vals::AddressFamily;

/// Fills `IFLA_PROTINFO` under a family.
pub(crate) fn fill_proto_info<const BY: u8>(family: AddressFamily, payload: &mut [u8])
    ensures { payload.new ≡ payload_by BY (filled BY) (proto_info_action family) payload.old }
{
    match family {
        AddressFamily::Inet6 => fill_list(payload, &Inet6List::<BY>),
        AddressFamily::Bridge => fill_list(payload, &BridgePortList::<BY>),
        _ => {}
    }
}

/// Fills `IFLA_AF_SPEC` under a family.
pub(crate) fn fill_af_spec<const BY: u8>(family: AddressFamily, payload: &mut [u8])
    ensures { payload.new ≡ payload_by BY (filled BY) (af_spec_action family) payload.old }
{
    match family {
        AddressFamily::Unspec => fill_list(payload, &FamiliesList::<BY>),
        _ => {}
    }
}

/// `Level::Families`.
pub(crate) struct FamiliesList<const BY: u8>;

impl<const BY: u8> Listed for FamiliesList<BY> {
    ghost level = { λ s. Families };

    ghost byte = { BY };

    #[inline(always)]
    fn fill_payload(&self, number: u16, payload: &mut [u8]) {
        match number {
            AF_INET6 => fill_list(payload, &Inet6List::<BY>),
            _ => {}
        }
    }
}

/// `Level::Inet6`.
pub(crate) struct Inet6List<const BY: u8>;

impl<const BY: u8> Listed for Inet6List<BY> {
    ghost level = { λ s. Inet6 };

    ghost byte = { BY };

    #[inline(always)]
    fn fill_payload(&self, number: u16, payload: &mut [u8]) {
        match number {
            IFLA_INET6_STATS => fill_bytes::<BY>(payload),
            IFLA_INET6_CACHEINFO => fill_part::<BY>(payload, 4, 12),
            IFLA_INET6_ICMP6STATS => fill_bytes::<BY>(payload),
            _ => {}
        }
    }
}
