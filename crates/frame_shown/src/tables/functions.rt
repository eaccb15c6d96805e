//! What is said of virtual functions.

use crate::form::{Field, Form, Group, List, Record, Table};
use crate::tables::{Part, Row};
use link_info::Size;

/// A function and its address.
pub const VF_MAC: [Part; 2] = [
    ("vf", 0, Field::Number(Size::Four)),
    ("mac", 4, Field::Address),
];

/// A function and its vlan.
pub const VF_VLAN: [Part; 3] = [
    ("vf", 0, Field::Number(Size::Four)),
    ("vlan", 4, Field::Number(Size::Four)),
    ("qos", 8, Field::Number(Size::Four)),
];

/// A function and its rate.
pub const VF_TX_RATE: [Part; 2] = [
    ("vf", 0, Field::Number(Size::Four)),
    ("rate", 4, Field::Number(Size::Four)),
];

/// A function and a setting of it.
pub const VF_SETTING: [Part; 2] = [
    ("vf", 0, Field::Number(Size::Four)),
    ("setting", 4, Field::Setting),
];

/// A function and the state of its link.
pub const VF_LINK_STATE: [Part; 2] = [
    ("vf", 0, Field::Number(Size::Four)),
    ("link-state", 4, Field::LinkState),
];

/// A function and its rates.
pub const VF_RATE: [Part; 3] = [
    ("vf", 0, Field::Number(Size::Four)),
    ("min-tx-rate", 4, Field::Number(Size::Four)),
    ("max-tx-rate", 8, Field::Number(Size::Four)),
];

/// A function and a number for it, behind four bytes that say nothing.
pub const VF_GUID: [Part; 2] = [
    ("vf", 0, Field::Number(Size::Four)),
    ("guid", 8, Field::Number(Size::Eight)),
];

/// A function and a vlan with its protocol.
pub const VF_VLAN_INFO: [Part; 4] = [
    ("vf", 0, Field::Number(Size::Four)),
    ("vlan", 4, Field::Number(Size::Four)),
    ("qos", 8, Field::Number(Size::Four)),
    ("vlan-proto", 12, Field::Protocol),
];

/// The members of `IFLA_VF_INFO`.
pub const FUNCTION: [Row; 13] = [
    (1, "mac", Form::Record(Record::VfMac)),
    (2, "vlan", Form::Record(Record::VfVlan)),
    (3, "tx-rate", Form::Record(Record::VfTxRate)),
    (4, "spoofchk", Form::Record(Record::VfSetting)),
    (5, "link-state", Form::Record(Record::VfLinkState)),
    (6, "rate", Form::Record(Record::VfRate)),
    (7, "rss-query-en", Form::Record(Record::VfSetting)),
    (8, "stats", Form::List(List::Own(Table::FunctionStats))),
    (9, "trust", Form::Record(Record::VfSetting)),
    (10, "ib-node-guid", Form::Record(Record::VfGuid)),
    (11, "ib-port-guid", Form::Record(Record::VfGuid)),
    (
        12,
        "vlan-list",
        Form::List(List::Listed(Group::Info, Table::FunctionVlans)),
    ),
    (13, "broadcast", Form::Field(Field::Address)),
];

/// The members of `IFLA_VF_STATS`.
pub const FUNCTION_STATS: [Row; 9] = [
    (0, "rx-packets", Form::Number(Size::Eight)),
    (1, "tx-packets", Form::Number(Size::Eight)),
    (2, "rx-bytes", Form::Number(Size::Eight)),
    (3, "tx-bytes", Form::Number(Size::Eight)),
    (4, "broadcast", Form::Number(Size::Eight)),
    (5, "multicast", Form::Number(Size::Eight)),
    (6, "pad", Form::Kept),
    (7, "rx-dropped", Form::Number(Size::Eight)),
    (8, "tx-dropped", Form::Number(Size::Eight)),
];

/// The members of `IFLA_VF_VLAN_LIST`.
pub const FUNCTION_VLANS: [Row; 1] = [(1, "info", Form::Record(Record::VfVlanInfo))];

/// The states of a function's link, by their numbers.
pub const VF_LINK_STATES: [&str; 3] = ["auto", "enable", "disable"];
