//! Fixed records of the kernel that link attributes carry.
// Tests: the crate `value_tests`. Edits: edits/link_recs.txt.
#![tactic(auto)]

/// The counters of both records of them, in the order of the kernel, and behind them those that one of the records has
/// alone: `made` of words, and as the `words` of a record.
macro_rules! counters {
    (made $record:ident, $words:ident $(, $more:ident $at:literal)*) => {
        $record {
            rx_packets: $words[0],
            tx_packets: $words[1],
            rx_bytes: $words[2],
            tx_bytes: $words[3],
            rx_errors: $words[4],
            tx_errors: $words[5],
            rx_dropped: $words[6],
            tx_dropped: $words[7],
            multicast: $words[8],
            collisions: $words[9],
            rx_length_errors: $words[10],
            rx_over_errors: $words[11],
            rx_crc_errors: $words[12],
            rx_frame_errors: $words[13],
            rx_fifo_errors: $words[14],
            rx_missed_errors: $words[15],
            tx_aborted_errors: $words[16],
            tx_carrier_errors: $words[17],
            tx_fifo_errors: $words[18],
            tx_heartbeat_errors: $words[19],
            tx_window_errors: $words[20],
            rx_compressed: $words[21],
            tx_compressed: $words[22],
            rx_nohandler: $words[23],
            $($more: $words[$at],)*
        }
    };
    (words $record:expr $(, $more:ident)*) => {
        [
            $record.rx_packets,
            $record.tx_packets,
            $record.rx_bytes,
            $record.tx_bytes,
            $record.rx_errors,
            $record.tx_errors,
            $record.rx_dropped,
            $record.tx_dropped,
            $record.multicast,
            $record.collisions,
            $record.rx_length_errors,
            $record.rx_over_errors,
            $record.rx_crc_errors,
            $record.rx_frame_errors,
            $record.rx_fifo_errors,
            $record.rx_missed_errors,
            $record.tx_aborted_errors,
            $record.tx_carrier_errors,
            $record.tx_fifo_errors,
            $record.tx_heartbeat_errors,
            $record.tx_window_errors,
            $record.rx_compressed,
            $record.tx_compressed,
            $record.rx_nohandler,
            $($record.$more,)*
        ]
    };
}

pub mod inet;
pub mod inet6_cache;
pub mod inet6_devconf;
pub mod inet6_icmp;
pub mod inet6_stats;
pub mod laws;
pub mod map;
pub mod stats;
pub mod stats64;
mod words;

pub use inet::{InetDevConf, InetDevConfBuffer};
pub use inet6_cache::{Inet6CacheInfo, Inet6CacheInfoBuffer};
pub use inet6_devconf::{Inet6DevConf, Inet6DevConfBuffer};
pub use inet6_icmp::{Icmp6Stats, Icmp6StatsBuffer};
pub use inet6_stats::{Inet6Stats, Inet6StatsBuffer};
pub use map::{Map, MapBuffer};
pub use stats::{Stats, StatsBuffer};
pub use stats64::{Stats64, Stats64Buffer};
