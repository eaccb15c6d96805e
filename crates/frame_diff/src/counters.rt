//! What a state passes over: the attributes that `link_state` clears, since they move by themselves.

ghost use Rattle.std.specs.Prelude.{◌≡◌, ℕ};
ghost use Rattle.link_state.specs.declared.level.Level.TheVariants.{Message, Inet6, FunctionStats, Bridge, Querier};
ghost use Rattle.link_state.specs.declared.level.Level.TheVariants.{BridgePort};
ghost use Rattle.link_state.specs.Table.{action_of};
ghost use Rattle.link_vals.specs.AddressFamilyTable.{address_family_of};
ghost use Rattle.frame_diff.specs.Counters.{action_at, action_in, clears_at, is_clear, is_passed, level_in};
ghost use Rattle.frame_diff.specs.Counters.{place_level, table_level};
ghost use Rattle.frame_diff.specs.Rows.{clearing, is_inet6};

use frame_shown::form::{List, Table};
use link_afspec::numbers::{IFLA_INET6_CACHEINFO, IFLA_INET6_ICMP6STATS, IFLA_INET6_STATS};
use link_info::Place;
use link_msg::numbers::{
    IFLA_CARRIER_CHANGES, IFLA_CARRIER_DOWN_COUNT, IFLA_CARRIER_UP_COUNT, IFLA_EVENT, IFLA_STATS,
    IFLA_STATS64,
};
use link_state::numbers::{
    BRIDGE_QUERIER_IP_OTHER_TIMER, BRIDGE_QUERIER_IPV6_OTHER_TIMER,
    IFLA_BOND_SLAVE_LINK_FAILURE_COUNT, IFLA_BR_FDB_N_LEARNED, IFLA_BR_GC_TIMER,
    IFLA_BR_HELLO_TIMER, IFLA_BR_TCN_TIMER, IFLA_BR_TOPOLOGY_CHANGE_TIMER,
    IFLA_BRPORT_CONFIG_PENDING, IFLA_BRPORT_FORWARD_DELAY_TIMER, IFLA_BRPORT_HOLD_TIMER,
    IFLA_BRPORT_MCAST_EHT_HOSTS_CNT, IFLA_BRPORT_MCAST_N_GROUPS, IFLA_BRPORT_MESSAGE_AGE_TIMER,
    IFLA_BRPORT_TOPOLOGY_CHANGE_ACK, IFLA_CAN_BERR_COUNTER, IFLA_HSR_SEQ_NR, IFLA_INFO_XSTATS,
};
use link_vf::numbers::{
    IFLA_VF_BROADCAST, IFLA_VF_STATS_BROADCAST, IFLA_VF_STATS_MULTICAST, IFLA_VF_STATS_RX_BYTES,
    IFLA_VF_STATS_RX_DROPPED, IFLA_VF_STATS_RX_PACKETS, IFLA_VF_STATS_TX_BYTES,
    IFLA_VF_STATS_TX_DROPPED, IFLA_VF_STATS_TX_PACKETS,
};

/// Whether an attribute of a link moves by itself.
fn moves_in_message(family: u8, number: u16) -> bool
    ensures { result ≡ is_clear (action_of (Message (address_family_of family)) number) }
{
    match number {
        IFLA_STATS | IFLA_STATS64 | IFLA_CARRIER_CHANGES | IFLA_EVENT => true,
        IFLA_CARRIER_UP_COUNT | IFLA_CARRIER_DOWN_COUNT => true,
        _ => false,
    }
}

/// Whether what IPv6 says moves by itself.
fn moves_in_inet6(number: u16) -> bool
    ensures { result ≡ is_clear (action_of Inet6 number) }
{
    match number {
        IFLA_INET6_STATS | IFLA_INET6_ICMP6STATS => true,
        _ => false,
    }
}

/// Whether a counter of a function moves by itself.
fn moves_in_function(number: u16) -> bool
    ensures { result ≡ is_clear (action_of FunctionStats number) }
{
    match number {
        IFLA_VF_STATS_RX_PACKETS | IFLA_VF_STATS_TX_PACKETS => true,
        IFLA_VF_STATS_RX_BYTES | IFLA_VF_STATS_TX_BYTES => true,
        IFLA_VF_STATS_BROADCAST | IFLA_VF_STATS_MULTICAST => true,
        IFLA_VF_STATS_RX_DROPPED | IFLA_VF_STATS_TX_DROPPED => true,
        _ => false,
    }
}

/// Whether what a bridge says moves by itself.
fn moves_in_bridge(number: u16) -> bool
    ensures { result ≡ is_clear (action_of Bridge number) }
{
    match number {
        IFLA_BR_HELLO_TIMER | IFLA_BR_TCN_TIMER => true,
        IFLA_BR_TOPOLOGY_CHANGE_TIMER | IFLA_BR_GC_TIMER => true,
        IFLA_BR_FDB_N_LEARNED => true,
        _ => false,
    }
}

/// Whether what a bridge says of its queriers moves by itself.
fn moves_in_querier(number: u16) -> bool
    ensures { result ≡ is_clear (action_of Querier number) }
{
    match number {
        BRIDGE_QUERIER_IP_OTHER_TIMER | BRIDGE_QUERIER_IPV6_OTHER_TIMER => true,
        _ => false,
    }
}

/// Whether what a port of a bridge says moves by itself.
fn moves_in_bridge_port(number: u16) -> bool
    ensures { result ≡ is_clear (action_of BridgePort number) }
{
    match number {
        IFLA_BRPORT_TOPOLOGY_CHANGE_ACK | IFLA_BRPORT_CONFIG_PENDING => true,
        IFLA_BRPORT_MESSAGE_AGE_TIMER | IFLA_BRPORT_FORWARD_DELAY_TIMER => true,
        IFLA_BRPORT_HOLD_TIMER => true,
        IFLA_BRPORT_MCAST_EHT_HOSTS_CNT | IFLA_BRPORT_MCAST_N_GROUPS => true,
        _ => false,
    }
}

/// Whether a number of a place of link data moves by itself.
fn moves_in_place(place: Place, number: u16) -> bool
    ensures { result ≡ is_clear (action_at (place_level place) number) }
{
    match place {
        Place::Bridge => moves_in_bridge(number),
        Place::BridgeQuerier => moves_in_querier(number),
        Place::BridgePort => moves_in_bridge_port(number),
        Place::BondSlave => number == IFLA_BOND_SLAVE_LINK_FAILURE_COUNT,
        Place::Can => number == IFLA_CAN_BERR_COUNTER,
        Place::Hsr => number == IFLA_HSR_SEQ_NR,
        Place::Inet6 => moves_in_inet6(number),
        _ => false,
    }
}

/// Whether a number of a table moves by itself.
fn moves_in_table(table: Table, number: u16) -> bool
    ensures { result ≡ is_clear (action_at (table_level table) number) }
{
    match table {
        Table::Inet6 => moves_in_inet6(number),
        Table::Function => number == IFLA_VF_BROADCAST,
        Table::FunctionStats => moves_in_function(number),
        _ => false,
    }
}

/// Whether the attributes of a number in a list move by themselves.
fn moves(list: List, number: u16) -> bool
    ensures { result ≡ is_clear (action_at (level_in list) number) }
{
    match list {
        List::Message(family) => moves_in_message(family, number),
        List::Own(table) => moves_in_table(table, number),
        List::Of(place) => moves_in_place(place, number),
        List::ProtoInet6 => moves_in_inet6(number),
        List::Info(_, _) => number == IFLA_INFO_XSTATS,
        List::Refused => moves_in_message(0, number),
        List::Listed(_, _) | List::Entries(_) => false,
    }
}

/// Whether an attribute is passed over: in a state, where it moves by itself.
pub(crate) fn is_passed(is_state: bool, list: List, number: u16) -> bool
    ensures { result ≡ is_passed is_state list number }
{
    is_state && moves(list, number)
}

/// The part of a payload that moves by itself.
#[derive(Clone, Copy, Drop)]
pub struct Cleared {
    /// The place of its first byte.
    pub from: usize,
    /// The place behind its last one.
    pub to: usize,
}

/// The part of `IFLA_INET6_CACHEINFO` that does: its second field and its third.
const CACHE_PART: Cleared = Cleared { from: 4, to: 12 };

/// The part that moves by itself of a payload of what IPv6 says.
fn inet6_part(number: u16) -> Option<Cleared>
    ensures { (place : ℕ) → clears_at (action_of Inet6 number) place
        ≡ clears_at (clearing result) place }
{
    match number {
        IFLA_INET6_CACHEINFO => Some(CACHE_PART),
        _ => None,
    }
}

/// Whether a list is of what IPv6 says.
fn is_inet6(list: List) -> bool
    ensures { result ≡ is_inet6 (level_in list) }
{
    match list {
        List::Own(Table::Inet6) => true,
        List::Of(Place::Inet6) => true,
        List::ProtoInet6 => true,
        _ => false,
    }
}

/// The part that moves by itself of the payload of an attribute.
fn moving_part(list: List, number: u16) -> Option<Cleared>
    ensures { (place : ℕ) → clears_at (action_at (level_in list) number) place
        ≡ clears_at (clearing result) place }
{
    if is_inet6(list) {
        inet6_part(number)
    } else {
        None
    }
}

/// The part of the payload of an attribute that is passed over: in a state, what moves by itself.
pub(crate) fn cleared_part(is_state: bool, list: List, number: u16) -> Option<Cleared>
    ensures { (place : ℕ) → clears_at (action_in is_state list number) place
        ≡ clears_at (clearing result) place }
{
    if is_state {
        moving_part(list, number)
    } else {
        None
    }
}
