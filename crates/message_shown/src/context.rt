//! What lines are shown by, beside themselves.

ghost use Rattle.std.specs.Prelude.{◌≡◌, map};
ghost use Rattle.link_info.specs.Lent.{member_now};
ghost use Rattle.link_info.specs.Values.{can_counters};

use frame_shown::form::Around;
pub use frame_shown::form::Order;
pub use frame_shown::value::text_of;
use link_info::Tables;
use link_info::tables::can::CAN_STATS;
use std::alloc::Global;

/// What lines are shown by, beside themselves: tables, and the order of the counters of IPv6.
#[derive(Clone, Copy, Drop)]
pub struct Context<'a> {
    /// Where memory comes from.
    pub alloc: Global,
    /// What frames are shown by.
    pub around: Around<'a>,
}

impl<'a> Context<'a> {
    /// By the rows of all places, and by this order.
    pub fn new(alloc: Global, tables: &'a Tables, order: Order) -> Context<'a>
        ensures tables { result.around.tables.now ≡ tables.now }
        ensures counters { map member_now result.around.can_stats.now ≡ can_counters }
        ensures order { result.around.order ≡ order }
        ensures address { result.around.address_len ≡ 0 }
    {
        Context {
            alloc,
            around: Around {
                tables,
                can_stats: CAN_STATS,
                order,
                address_len: 0,
            },
        }
    }
}
