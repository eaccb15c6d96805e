//! The data of a CAN interface (`IFLA_CAN_*`, linux/can/netlink.h).

use crate::place::Place;
use crate::style::{Member, Names, Plain, Row, Size, Style};
use crate::tables::{U16, U32};

/// The timing of bits (`struct can_bittiming`).
const BITTIMING: &[Member] = &[
    Member("bitrate", Plain::Unsigned(Size::Four)),
    Member("sample-point", Plain::Unsigned(Size::Four)),
    Member("tq", Plain::Unsigned(Size::Four)),
    Member("prop-seg", Plain::Unsigned(Size::Four)),
    Member("phase-seg1", Plain::Unsigned(Size::Four)),
    Member("phase-seg2", Plain::Unsigned(Size::Four)),
    Member("sjw", Plain::Unsigned(Size::Four)),
    Member("brp", Plain::Unsigned(Size::Four)),
];

/// What timings a controller can have (`struct can_bittiming_const`): its name, with NULs after it, and limits.
const BITTIMING_CONST: &[Member] = &[
    Member("name", Plain::Octets(16)),
    Member("tseg1-min", Plain::Unsigned(Size::Four)),
    Member("tseg1-max", Plain::Unsigned(Size::Four)),
    Member("tseg2-min", Plain::Unsigned(Size::Four)),
    Member("tseg2-max", Plain::Unsigned(Size::Four)),
    Member("sjw-max", Plain::Unsigned(Size::Four)),
    Member("brp-min", Plain::Unsigned(Size::Four)),
    Member("brp-max", Plain::Unsigned(Size::Four)),
    Member("brp-inc", Plain::Unsigned(Size::Four)),
];

/// The clock of a controller, in Hz (`struct can_clock`).
const CLOCK: &[Member] = &[Member("freq", Plain::Unsigned(Size::Four))];

/// What a controller makes of errors (`enum can_state`).
const STATES: Names = &[
    (0, "error-active"),
    (1, "error-warning"),
    (2, "error-passive"),
    (3, "bus-off"),
    (4, "stopped"),
    (5, "sleeping"),
];

/// Modes, and which of them are meant (`struct can_ctrlmode`).
const CTRLMODE: &[Member] = &[
    Member("mask", Plain::Flags(Size::Four, MODES)),
    Member("flags", Plain::Flags(Size::Four, MODES)),
];

/// Modes of a controller (`CAN_CTRLMODE_*`).
const MODES: Names = &[
    (1, "loopback"),
    (2, "listenonly"),
    (4, "3-samples"),
    (8, "one-shot"),
    (16, "berr-reporting"),
    (32, "fd"),
    (64, "presume-ack"),
    (128, "fd-non-iso"),
    (256, "cc-len8-dlc"),
    (512, "tdc-auto"),
    (1024, "tdc-manual"),
];

/// How many errors (`struct can_berr_counter`).
const BERR_COUNTER: &[Member] = &[
    Member("txerr", Plain::Unsigned(Size::Two)),
    Member("rxerr", Plain::Unsigned(Size::Two)),
];

/// The data of a CAN interface.
pub const CAN: &[Row] = &[
    Row(1, "bittiming", Style::Record(BITTIMING)),
    Row(2, "bittiming-const", Style::Record(BITTIMING_CONST)),
    Row(3, "clock", Style::Record(CLOCK)),
    Row(4, "state", Style::Plain(Plain::Named(Size::Four, STATES))),
    Row(5, "ctrlmode", Style::Record(CTRLMODE)),
    Row(6, "restart-ms", U32),
    Row(7, "restart", U32),
    Row(8, "berr-counter", Style::Record(BERR_COUNTER)),
    Row(9, "data-bittiming", Style::Record(BITTIMING)),
    Row(10, "data-bittiming-const", Style::Record(BITTIMING_CONST)),
    Row(11, "termination", U16),
    Row(
        12,
        "termination-const",
        Style::Array(Plain::Unsigned(Size::Two)),
    ),
    Row(
        13,
        "bitrate-const",
        Style::Array(Plain::Unsigned(Size::Four)),
    ),
    Row(
        14,
        "data-bitrate-const",
        Style::Array(Plain::Unsigned(Size::Four)),
    ),
    Row(15, "bitrate-max", U32),
    Row(16, "tdc", Style::Nest(Place::CanTdc)),
    Row(17, "ctrlmode-ext", Style::Nest(Place::CanCtrlmode)),
];

/// The compensation of delays of a transceiver (`IFLA_CAN_TDC_*`).
pub const CAN_TDC: &[Row] = &[
    Row(1, "tdcv-min", U32),
    Row(2, "tdcv-max", U32),
    Row(3, "tdco-min", U32),
    Row(4, "tdco-max", U32),
    Row(5, "tdcf-min", U32),
    Row(6, "tdcf-max", U32),
    Row(7, "tdcv", U32),
    Row(8, "tdco", U32),
    Row(9, "tdcf", U32),
];

/// Modes that a controller knows (`IFLA_CAN_CTRLMODE_*`).
pub const CAN_CTRLMODE: &[Row] = &[Row(
    1,
    "supported",
    Style::Plain(Plain::Flags(Size::Four, MODES)),
)];

/// What `IFLA_INFO_XSTATS` of a CAN interface holds (`struct can_device_stats`).
pub const CAN_STATS: &[Member] = &[
    Member("bus-error", Plain::Unsigned(Size::Four)),
    Member("error-warning", Plain::Unsigned(Size::Four)),
    Member("error-passive", Plain::Unsigned(Size::Four)),
    Member("bus-off", Plain::Unsigned(Size::Four)),
    Member("arbitration-lost", Plain::Unsigned(Size::Four)),
    Member("restarts", Plain::Unsigned(Size::Four)),
];
