//! Whether the receive side scaling of a virtual function may be asked for (IFLA_VF_RSS_QUERY_EN).

ghost use Rattle.std.proofs.Common.{rules};
ghost use Rattle.std.specs.Prelude.{◌≡◌, length};
ghost use Rattle.nla_wire.specs.Payloads.{sized};
ghost use Rattle.nla_wire.specs.Records.{Parses};
ghost use Rattle.link_vfrec.specs.Records.{vf_info_rss_query_en_size, vf_info_rss_query_en_of};
ghost use Rattle.link_vfrec.specs.Records.{vf_info_rss_query_en_bytes};
ghost use Rattle.link_vfrec.specs.Laws.{vf_info_rss_query_en_laws};

use crate::truth::{is_on, on_number};
use nla_wire::fields::{put_u32, u32_at};
use nla_wire::{DecodeError, Exact, Record, RecordBuffer};

/// The number of bytes of a record.
pub const VF_INFO_RSS_QUERY_EN_SIZE: usize = 8;

/// Whether the receive side scaling of a virtual function may be asked for (IFLA_VF_RSS_QUERY_EN).
///
/// `struct ifla_vf_rss_query_en` of linux/if_link.h, 8 bytes, numbers of four bytes, lowest byte first: `vf_id` at 0;
/// at 4 the setting, where 0 and 4294967295 are off and all else is on. It is written as 0 or 1.
#[derive(Clone, Copy, Debug, Default, PartialEq, Eq)]
pub struct VfInfoRssQueryEn {
    /// The number of the function.
    pub vf_id: u32,
    /// Whether it is on.
    pub enabled: bool,
}

impl Record<VF_INFO_RSS_QUERY_EN_SIZE> for VfInfoRssQueryEn {
    ghost of = { vf_info_rss_query_en_of };

    ghost bytes = { vf_info_rss_query_en_bytes };

    #[inline(always)]
    #[tactic(auto, unfolding(crate::specs::Records::vf_info_rss_query_en_of))]
    fn read(payload: &[u8]) -> VfInfoRssQueryEn {
        VfInfoRssQueryEn {
            vf_id: u32_at(payload, 0),
            enabled: is_on(u32_at(payload, 4)),
        }
    }

    #[tactic(auto, unfolding(crate::specs::Records::vf_info_rss_query_en_bytes))]
    fn write(&self, buffer: &mut [u8]) {
        put_u32(buffer, 0, self.vf_id);
        put_u32(buffer, 4, on_number(self.enabled));
    }

    ghost laws = { vf_info_rss_query_en_laws };
}

impl VfInfoRssQueryEn {
    /// The record with these fields.
    pub fn new(vf_id: u32, enabled: bool) -> VfInfoRssQueryEn
        ensures { result ≡ record { vf_id = vf_id; enabled = enabled } }
    {
        VfInfoRssQueryEn { vf_id, enabled }
    }

    /// Reads a record from the front of the payload. A payload of fewer than 8 bytes is refused with `TooShort`.
    pub fn parse(payload: &[u8]) -> Result<VfInfoRssQueryEn, DecodeError>
        ensures { Parses (sized vf_info_rss_query_en_size vf_info_rss_query_en_of)
            payload.now result }
    {
        VfInfoRssQueryEn::parse_sized(payload)
    }

    /// The number of bytes that `emit` writes, 8.
    pub fn buffer_len(&self) -> usize
        ensures { result ≡ vf_info_rss_query_en_size }
    {
        VF_INFO_RSS_QUERY_EN_SIZE
    }

    /// Writes the record to a buffer of exactly 8 bytes.
    pub fn emit(&self, buffer: &mut [u8])
        requires { length buffer.old ≡ vf_info_rss_query_en_size }
        ensures { buffer.new ≡ vf_info_rss_query_en_bytes self.now }
    {
        self.write(buffer);
    }
}

impl Exact for VfInfoRssQueryEn {
    ghost decides = { Prim.search rules };
}

/// The bytes of a record, `VfInfoRssQueryEn`.
pub type VfInfoRssQueryEnBuffer = RecordBuffer<VfInfoRssQueryEn, VF_INFO_RSS_QUERY_EN_SIZE>;
