//! The mask that asks for more of a link, as the list of its flags.

ghost use Rattle.std.specs.Prelude.{◌≡◌, ◌<◌, ◌^◌, ◌↔◌, IsTrue, IfOk, IfErr};
ghost use Rattle.nla_wire.specs.declared.error.Cause.TheVariants.{OutOfMemory};
ghost use Rattle.link_vals.specs.LinkExtentMaskTable.{link_extent_mask_of, link_extent_mask_number, flags_set};
ghost use Rattle.link_vals.specs.LinkExtentMaskTable.{ext_list, ext_sum};

use nla_wire::{DecodeError, Exact};
use std::alloc::Global;

/// One bit of the mask that asks for more of a link, four bytes in host order: `RTEXT_FILTER_..` of linux/rtnetlink.h.
///
/// A number that is not one of the eight flags is kept in `Other`, of one bit or of many.
#[derive(Clone, Copy, Debug, PartialEq, Eq)]
pub enum LinkExtentMask {
    /// RTEXT_FILTER_VF: virtual functions.
    Vf,
    /// RTEXT_FILTER_BRVLAN: the vlans of bridges and their ports.
    Brvlan,
    /// RTEXT_FILTER_BRVLAN_COMPRESSED: the same, as ranges.
    BrvlanCompressed,
    /// RTEXT_FILTER_SKIP_STATS: no statistics.
    SkipStats,
    /// RTEXT_FILTER_MRP: the media redundancy protocol of bridges.
    Mrp,
    /// RTEXT_FILTER_CFM_CONFIG: how connectivity fault management is set.
    CfmConfig,
    /// RTEXT_FILTER_CFM_STATUS: what it has seen.
    CfmStatus,
    /// RTEXT_FILTER_MST: the states of multiple spanning trees.
    Mst,
    /// A number without a name.
    Other(u32),
}

// the flags with a name, ascending
const LISTED: [LinkExtentMask; 8] = [
    LinkExtentMask::Vf,
    LinkExtentMask::Brvlan,
    LinkExtentMask::BrvlanCompressed,
    LinkExtentMask::SkipStats,
    LinkExtentMask::Mrp,
    LinkExtentMask::CfmConfig,
    LinkExtentMask::CfmStatus,
    LinkExtentMask::Mst,
];

// the bits without a name
const UNLISTED: u32 = 0xffff_ff00;

impl From<u32> for LinkExtentMask {
    ghost from_gives = { λ n v. v ≡ link_extent_mask_of n };

    #[tactic(auto, unfolding(crate::proofs::Opened::link_extent_mask))]
    fn from(number: u32) -> LinkExtentMask {
        match number {
            1 => LinkExtentMask::Vf,
            2 => LinkExtentMask::Brvlan,
            4 => LinkExtentMask::BrvlanCompressed,
            8 => LinkExtentMask::SkipStats,
            16 => LinkExtentMask::Mrp,
            32 => LinkExtentMask::CfmConfig,
            64 => LinkExtentMask::CfmStatus,
            128 => LinkExtentMask::Mst,
            n => LinkExtentMask::Other(n),
        }
    }
}

impl From<LinkExtentMask> for u32 {
    ghost from_gives = { λ v n. n ≡ link_extent_mask_number v };

    #[tactic(auto, unfolding(crate::specs::LinkExtentMaskTable::link_extent_mask_number))]
    fn from(value: LinkExtentMask) -> u32 {
        match value {
            LinkExtentMask::Vf => 1,
            LinkExtentMask::Brvlan => 2,
            LinkExtentMask::BrvlanCompressed => 4,
            LinkExtentMask::SkipStats => 8,
            LinkExtentMask::Mrp => 16,
            LinkExtentMask::CfmConfig => 32,
            LinkExtentMask::CfmStatus => 64,
            LinkExtentMask::Mst => 128,
            LinkExtentMask::Other(n) => n,
        }
    }
}

impl LinkExtentMask {
    /// The listed flags of a mask in ascending order, and then one `Other` of the bits that are left, if any.
    ///
    /// It fails only for lack of memory.
    #[tactic(auto, unfolding(crate::specs::LinkExtentMaskTable::ext_list))]
    pub fn list_from(alloc: Global, number: u32) -> Result<Vec<LinkExtentMask>, DecodeError>
        ensures list { IfOk result (λ v. v.items ≡ ext_list number) }
        ensures memory { IfErr result (λ e. e.cause ≡ OutOfMemory) }
    {
        let mut list = set_of(alloc, &LISTED, number)?;
        let rest = number & UNLISTED;
        if rest == 0 {
            return Ok(list);
        }
        list.push(LinkExtentMask::Other(rest))?;
        Ok(list)
    }

    /// Whether the sum of the numbers fits in four bytes.
    pub fn sum_fits(list: &[LinkExtentMask]) -> bool
        ensures { IsTrue result ↔ (ext_sum list.now < 2 ^ 32) }
    {
        let mut total: u32 = 0;
        for flag in list {
            match total.checked_add(u32::from(*flag)) {
                Some(sum) => total = sum,
                None => return false,
            }
        }
        true
    }

    /// The sum of the numbers, so that a flag that stands twice counts twice.
    pub fn sum(list: &[LinkExtentMask]) -> u32
        requires { ext_sum list.now < 2 ^ 32 }
        ensures { result ≡ ext_sum list.now }
    {
        let mut total = 0;
        for flag in list {
            total += u32::from(*flag);
        }
        total
    }
}

/// Those of the flags that are set in a mask, in their order.
#[tactic(auto, unfolding(crate::specs::LinkExtentMaskTable::flags_set))]
fn set_of(
    alloc: Global,
    flags: &[LinkExtentMask],
    number: u32,
) -> Result<Vec<LinkExtentMask>, DecodeError>
    ensures list { IfOk result (λ v. v.items ≡ flags_set number flags.now) }
    ensures memory { IfErr result (λ e. e.cause ≡ OutOfMemory) }
{
    let mut found = Vec::new(alloc);
    for flag in flags {
        let bit = u32::from(*flag);
        if number & bit == bit {
            found.push(*flag)?;
        }
    }
    Ok(found)
}

impl Exact for LinkExtentMask {
    ghost use Rattle.std.proofs.Common.{rules};

    ghost decides = { Prim.search rules };
}
