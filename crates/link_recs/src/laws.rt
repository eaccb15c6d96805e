//! What holds of the records' readings and bytes, and of their defaults, beside the contracts of the calls.
//!
//! Of a record of numbers of one width: its fields are the numbers of the payload in order; a record is given by them;
//! what is written reads back; zeros after a payload and bytes after a long one change nothing; a text has as many
//! bytes as the record; and what was read is written as the payload, cut or filled up with zeros.
//!
//! The functions `.._buffer` read a named buffer: it is of its record, takes as many bytes as the record has, and gives
//! the rest of the slice.
//!
//! The functions `default_..` make the default records, each field of which is zero.

ghost use Rattle.std.specs.Prelude.{◌≡◌, ◌^◌, ◌<◌, length, pos, replicate};
ghost use Rattle.std.specs.Int.{w32, w64};
ghost use Rattle.std.specs.Int.RustNames.{FitsSigned};
ghost use Rattle.nla_wire.specs.Fields.{numbers_from, signed_from};
ghost use Rattle.nla_wire.specs.Buffers.{TakesRecord};
ghost use Rattle.nla_wire.specs.Records.{RecordLaws};
ghost use Rattle.link_recs.specs.Laws.{WordLaws};
ghost use Rattle.link_recs.specs.declared.map.Map.{Map};
ghost use Rattle.link_recs.specs.MapFields.{map_size, map_of, map_bytes, MapFits};
ghost use Rattle.link_recs.specs.declared.stats.TheConstants.{STATS_COUNT};
ghost use Rattle.link_recs.specs.StatsFields.{stats_size, stats_fields, stats_of, stats_bytes};
ghost use Rattle.link_recs.specs.declared.stats64.TheConstants.{STATS64_COUNT};
ghost use Rattle.link_recs.specs.Stats64Fields.{stats64_size, stats64_fields, stats64_of, stats64_bytes};
ghost use Rattle.link_recs.specs.declared.inet.TheConstants.{INET_DEV_CONF_COUNT};
ghost use Rattle.link_recs.specs.InetDevConfFields.{inet_dev_conf_size, inet_dev_conf_fields, inet_dev_conf_of};
ghost use Rattle.link_recs.specs.InetDevConfFields.{inet_dev_conf_bytes};
ghost use Rattle.link_recs.specs.declared.inet6_devconf.TheConstants.{INET6_DEV_CONF_COUNT};
ghost use Rattle.link_recs.specs.Inet6DevConfFields.{inet6_dev_conf_size, inet6_dev_conf_fields, inet6_dev_conf_of};
ghost use Rattle.link_recs.specs.Inet6DevConfFields.{inet6_dev_conf_bytes};
ghost use Rattle.link_recs.specs.declared.inet6_stats.TheConstants.{INET6_STATS_COUNT};
ghost use Rattle.link_recs.specs.Inet6StatsFields.{inet6_stats_size, inet6_stats_fields, inet6_stats_of};
ghost use Rattle.link_recs.specs.Inet6StatsFields.{inet6_stats_bytes};
ghost use Rattle.link_recs.specs.Inet6StatsOrder.{order_since_6_16, IsOrder};
ghost use Rattle.link_recs.specs.declared.inet6_icmp.TheConstants.{ICMP6_STATS_COUNT};
ghost use Rattle.link_recs.specs.Icmp6StatsFields.{icmp6_stats_size, icmp6_stats_fields, icmp6_stats_of};
ghost use Rattle.link_recs.specs.Icmp6StatsFields.{icmp6_stats_bytes};
ghost use Rattle.link_recs.specs.declared.inet6_cache.TheConstants.{INET6_CACHE_INFO_COUNT};
ghost use Rattle.link_recs.specs.Inet6CacheInfoFields.{inet6_cache_info_size, inet6_cache_info_fields};
ghost use Rattle.link_recs.specs.Inet6CacheInfoFields.{inet6_cache_info_of, inet6_cache_info_bytes};
ghost use Rattle.link_recs.specs.Filled.{NoneIsLonger, OneIsAsLong};

use crate::inet::{InetDevConf, InetDevConfBuffer};
use crate::inet6_cache::Inet6CacheInfoBuffer;
use crate::inet6_devconf::{Inet6DevConf, Inet6DevConfBuffer};
use crate::inet6_icmp::{Icmp6Stats, Icmp6StatsBuffer};
use crate::inet6_stats::{Inet6Stats, Inet6StatsBuffer};
use crate::map::{Map, MapBuffer};
use crate::stats::{Stats, StatsBuffer};
use crate::stats64::{Stats64, Stats64Buffer};
use nla_wire::DecodeError;

/// `Stats`.
#[tactic(auto, using(crate::specs::StatsFields::stats_laws))]
pub fn stats()
    ensures { WordLaws (λ n. n < 2 ^ 32)
        (numbers_from w32) STATS_COUNT stats_size stats_fields stats_of stats_bytes }
{}

/// `Stats64`.
#[tactic(auto, using(crate::specs::Stats64Fields::stats64_laws))]
pub fn stats64()
    ensures { WordLaws (λ n. n < 2 ^ 64)
        (numbers_from w64) STATS64_COUNT stats64_size stats64_fields stats64_of stats64_bytes }
{}

/// `InetDevConf`.
#[tactic(auto, using(crate::specs::InetDevConfFields::inet_dev_conf_laws))]
pub fn inet_dev_conf()
    ensures { WordLaws (FitsSigned w32) (signed_from w32) INET_DEV_CONF_COUNT inet_dev_conf_size
        inet_dev_conf_fields inet_dev_conf_of inet_dev_conf_bytes }
{}

/// `Inet6DevConf`.
#[tactic(auto, using(crate::specs::Inet6DevConfFields::inet6_dev_conf_laws))]
pub fn inet6_dev_conf()
    ensures { WordLaws (FitsSigned w32) (signed_from w32) INET6_DEV_CONF_COUNT inet6_dev_conf_size
        inet6_dev_conf_fields inet6_dev_conf_of inet6_dev_conf_bytes }
{}

/// `Inet6Stats`.
#[tactic(auto, using(crate::specs::Inet6StatsFields::inet6_stats_laws))]
pub fn inet6_stats()
    ensures { WordLaws (FitsSigned w64) (signed_from w64) INET6_STATS_COUNT inet6_stats_size
        inet6_stats_fields inet6_stats_of inet6_stats_bytes }
{}

/// The order of the counters since Linux 6.16 has each field of `Inet6Stats` once.
pub fn inet6_stats_order()
    ensures { IsOrder order_since_6_16 INET6_STATS_COUNT }
{}

/// `Icmp6Stats`.
#[tactic(auto, using(crate::specs::Icmp6StatsFields::icmp6_stats_laws))]
pub fn icmp6_stats()
    ensures { WordLaws (FitsSigned w64) (signed_from w64) ICMP6_STATS_COUNT icmp6_stats_size
        icmp6_stats_fields icmp6_stats_of icmp6_stats_bytes }
{}

/// `Inet6CacheInfo`.
#[tactic(auto, using(crate::specs::Inet6CacheInfoFields::inet6_cache_info_laws))]
pub fn inet6_cache_info()
    ensures { WordLaws (FitsSigned w32) (signed_from w32) INET6_CACHE_INFO_COUNT
        inet6_cache_info_size inet6_cache_info_fields inet6_cache_info_of inet6_cache_info_bytes }
{}

/// Of the records that are filled up with zeros none is longer than `longest_filled`, from which the bound on canonical
/// encoding is counted, and `Inet6Stats` is just as long.
#[tactic(auto, using(crate::proofs::FilledLemmas::none_is_longer, crate::proofs::FilledLemmas::one_is_as_long))]
pub fn filled()
    ensures most { NoneIsLonger }
    ensures reached { OneIsAsLong }
{}

/// `Map`: what is written reads back; zeros after a payload and bytes after a long one change nothing; a text has as
/// many bytes as the record.
#[tactic(auto, using(crate::proofs::MapLemmas::map_lemmas))]
pub fn map()
    ensures written { (v : Map) → MapFits v → map_of (map_bytes v) ≡ v }
    ensures laws { RecordLaws map_size map_of map_bytes }
    ensures size { (v : Map) → length (map_bytes v) ≡ map_size }
{}

/// `StatsBuffer`.
pub fn stats_buffer(bytes: &[u8]) -> Result<(StatsBuffer, &[u8]), DecodeError>
    ensures { TakesRecord stats_size stats_of bytes.entry result }
{
    StatsBuffer::read_from_prefix(bytes)
}

/// `Stats64Buffer`.
pub fn stats64_buffer(bytes: &[u8]) -> Result<(Stats64Buffer, &[u8]), DecodeError>
    ensures { TakesRecord stats64_size stats64_of bytes.entry result }
{
    Stats64Buffer::read_from_prefix(bytes)
}

/// `InetDevConfBuffer`.
pub fn inet_dev_conf_buffer(bytes: &[u8]) -> Result<(InetDevConfBuffer, &[u8]), DecodeError>
    ensures { TakesRecord inet_dev_conf_size inet_dev_conf_of bytes.entry result }
{
    InetDevConfBuffer::read_from_prefix(bytes)
}

/// `Inet6DevConfBuffer`.
pub fn inet6_dev_conf_buffer(bytes: &[u8]) -> Result<(Inet6DevConfBuffer, &[u8]), DecodeError>
    ensures { TakesRecord inet6_dev_conf_size inet6_dev_conf_of bytes.entry result }
{
    Inet6DevConfBuffer::read_from_prefix(bytes)
}

/// `Inet6StatsBuffer`.
pub fn inet6_stats_buffer(bytes: &[u8]) -> Result<(Inet6StatsBuffer, &[u8]), DecodeError>
    ensures { TakesRecord inet6_stats_size inet6_stats_of bytes.entry result }
{
    Inet6StatsBuffer::read_from_prefix(bytes)
}

/// `Icmp6StatsBuffer`.
pub fn icmp6_stats_buffer(bytes: &[u8]) -> Result<(Icmp6StatsBuffer, &[u8]), DecodeError>
    ensures { TakesRecord icmp6_stats_size icmp6_stats_of bytes.entry result }
{
    Icmp6StatsBuffer::read_from_prefix(bytes)
}

/// `Inet6CacheInfoBuffer`.
pub fn inet6_cache_info_buffer(bytes: &[u8]) -> Result<(Inet6CacheInfoBuffer, &[u8]), DecodeError>
    ensures { TakesRecord inet6_cache_info_size inet6_cache_info_of bytes.entry result }
{
    Inet6CacheInfoBuffer::read_from_prefix(bytes)
}

/// `MapBuffer`.
pub fn map_buffer(bytes: &[u8]) -> Result<(MapBuffer, &[u8]), DecodeError>
    ensures { TakesRecord map_size map_of bytes.entry result }
{
    MapBuffer::read_from_prefix(bytes)
}

/// Each field of the default `Stats` is zero.
#[tactic(auto, unfolding(crate::specs::StatsFields::stats_fields))]
pub fn default_stats() -> Stats
    ensures { stats_fields result ≡ replicate STATS_COUNT 0 }
{
    Stats::default()
}

/// Each field of the default `Stats64` is zero.
#[tactic(auto, unfolding(crate::specs::Stats64Fields::stats64_fields))]
pub fn default_stats64() -> Stats64
    ensures { stats64_fields result ≡ replicate STATS64_COUNT 0 }
{
    Stats64::default()
}

/// Each field of the default `InetDevConf` is zero.
#[tactic(auto, unfolding(crate::specs::InetDevConfFields::inet_dev_conf_fields))]
pub fn default_inet_dev_conf() -> InetDevConf
    ensures { inet_dev_conf_fields result ≡ replicate INET_DEV_CONF_COUNT (pos 0) }
{
    InetDevConf::default()
}

/// Each field of the default `Inet6DevConf` is zero.
#[tactic(auto, unfolding(crate::specs::Inet6DevConfFields::inet6_dev_conf_fields))]
pub fn default_inet6_dev_conf() -> Inet6DevConf
    ensures { inet6_dev_conf_fields result ≡ replicate INET6_DEV_CONF_COUNT (pos 0) }
{
    Inet6DevConf::default()
}

/// Each field of the default `Inet6Stats` is zero.
#[tactic(auto, unfolding(crate::specs::Inet6StatsFields::inet6_stats_fields))]
pub fn default_inet6_stats() -> Inet6Stats
    ensures { inet6_stats_fields result ≡ replicate INET6_STATS_COUNT (pos 0) }
{
    Inet6Stats::default()
}

/// Each field of the default `Icmp6Stats` is zero.
#[tactic(auto, unfolding(crate::specs::Icmp6StatsFields::icmp6_stats_fields))]
pub fn default_icmp6_stats() -> Icmp6Stats
    ensures { icmp6_stats_fields result ≡ replicate ICMP6_STATS_COUNT (pos 0) }
{
    Icmp6Stats::default()
}

/// Each field of the default `Map` is zero.
pub fn default_map() -> Map
    ensures { result ≡ record {
      memory_start = 0;
      memory_end = 0;
      base_address = 0;
      irq = 0;
      dma = 0;
      port = 0;
    } }
{
    Map::default()
}
