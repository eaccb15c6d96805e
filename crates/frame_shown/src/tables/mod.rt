//! The tables: the names of attributes, of fields, of values and of flags, and how payloads are shown.

mod family;
mod functions;
mod link;
mod names;

use crate::form::{Field, Form};
pub use crate::tables::family::{
    ADDR_GEN_MODES, CACHE_INFO, FAMILIES, ICMP6_STATS, INET, INET_CONF, INET6, INET6_CONF,
    INET6_FLAGS, INET6_STATS, MCTP, MCTP_BINDINGS,
};
pub use crate::tables::functions::{
    FUNCTION, FUNCTION_STATS, FUNCTION_VLANS, VF_GUID, VF_LINK_STATE, VF_LINK_STATES, VF_MAC,
    VF_RATE, VF_SETTING, VF_TX_RATE, VF_VLAN, VF_VLAN_INFO,
};
pub use crate::tables::link::{
    DEVLINK_PORT, DOWN_REASON, DPLL_PIN, KERNEL_NAMES, MESSAGE, PROPS, XDP,
};
pub use crate::tables::names::{
    EVENTS, EXT_MASK, LINK_FLAGS, LINK_MODES, MAP, OPERSTATES, STATS, XDP_ATTACHED,
};

/// A row: its number, a name, and how a payload is shown.
pub type Row = (u16, &'static str, Form);

/// A field of a record: a name, its place, and what stands there.
pub type Part = (&'static str, u8, Field);
