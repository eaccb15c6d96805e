//! The data of a macsec interface (`IFLA_MACSEC_*`, linux/if_link.h).

use crate::style::{Names, Plain, Row, Size, Style};
use crate::tables::{BE16, BE64, U8, U32, U64};

/// Which frames are taken (`enum macsec_validation_type`).
const VALIDATIONS: Names = &[(0, "disabled"), (1, "check"), (2, "strict")];

/// Who does the work (`enum macsec_offload`).
const OFFLOADS: Names = &[(0, "off"), (1, "phy"), (2, "mac")];

/// The data of a macsec interface.
pub const MACSEC: &[Row] = &[
    Row(1, "sci", BE64),
    Row(2, "port", BE16),
    Row(3, "icv-len", U8),
    Row(4, "cipher-suite", U64),
    Row(5, "window", U32),
    Row(6, "encoding-sa", U8),
    Row(7, "encrypt", U8),
    Row(8, "protect", U8),
    Row(9, "inc-sci", U8),
    Row(10, "es", U8),
    Row(11, "scb", U8),
    Row(12, "replay-protect", U8),
    Row(
        13,
        "validation",
        Style::Plain(Plain::Named(Size::One, VALIDATIONS)),
    ),
    Row(
        15,
        "offload",
        Style::Plain(Plain::Named(Size::One, OFFLOADS)),
    ),
];
