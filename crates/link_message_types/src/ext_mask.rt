//! Masks of the parts of a link that a request asks for.

ghost use Rattle.std.specs.Prelude.{◌≡◌, ◌≢◌, true, IfOk, IfErr};
ghost use Rattle.netlink_packet_core.specs.Errors.{is_memory};
ghost use Rattle.link_message_types.specs.ExtentMasks.{link_extent_mask_number, link_extent_mask_of, set_extent_masks};
ghost use Rattle.link_message_types.specs.ExtentMasks.{link_extent_masks_of, joined_extent_masks};

use netlink_packet_core::DecodeError;
use std::alloc::{AllocError, Global};

/// A part of a link that a request asks for beside the usual ones, `RTEXT_FILTER_*` of
/// `linux/rtnetlink.h`. On the wire 4 bytes in native order, the bits of a list joined.
#[derive(Debug, PartialEq, Eq, Clone, Copy)]
pub enum LinkExtentMask {
    /// Virtual functions: `RTEXT_FILTER_VF`, 1.
    Vf,
    /// VLANs of a bridge: `RTEXT_FILTER_BRVLAN`, 2.
    Brvlan,
    /// VLANs of a bridge, as ranges: `RTEXT_FILTER_BRVLAN_COMPRESSED`, 4.
    BrvlanCompressed,
    /// No statistics: `RTEXT_FILTER_SKIP_STATS`, 8.
    SkipStats,
    /// The media redundancy protocol (MRP): `RTEXT_FILTER_MRP`, 16.
    Mrp,
    /// The configuration of connectivity fault management (CFM): `RTEXT_FILTER_CFM_CONFIG`, 32.
    CfmConfig,
    /// The status of connectivity fault management (CFM): `RTEXT_FILTER_CFM_STATUS`, 64.
    CfmStatus,
    /// Multiple spanning trees (MST): `RTEXT_FILTER_MST`, 128.
    Mst,
    /// Every other number.
    Other(u32),
}

impl From<u32> for LinkExtentMask {
    ghost from_gives = { λ n v. v ≡ link_extent_mask_of n };

    fn from(number: u32) -> Self
        ensures named { result ≡ link_extent_mask_of number }
        ensures keeps_the_number { link_extent_mask_number result ≡ number }
    {
        match number {
            1 => Self::Vf,
            2 => Self::Brvlan,
            4 => Self::BrvlanCompressed,
            8 => Self::SkipStats,
            16 => Self::Mrp,
            32 => Self::CfmConfig,
            64 => Self::CfmStatus,
            128 => Self::Mst,
            _ => Self::Other(number),
        }
    }
}

impl From<LinkExtentMask> for u32 {
    ghost from_gives = { λ v n. n ≡ link_extent_mask_number v };

    fn from(value: LinkExtentMask) -> Self {
        match value {
            LinkExtentMask::Vf => 1,
            LinkExtentMask::Brvlan => 2,
            LinkExtentMask::BrvlanCompressed => 4,
            LinkExtentMask::SkipStats => 8,
            LinkExtentMask::Mrp => 16,
            LinkExtentMask::CfmConfig => 32,
            LinkExtentMask::CfmStatus => 64,
            LinkExtentMask::Mst => 128,
            LinkExtentMask::Other(number) => number,
        }
    }
}

/// The masks that have a bit of their own.
const LISTED: [LinkExtentMask; 8] = [
    LinkExtentMask::Vf,
    LinkExtentMask::Brvlan,
    LinkExtentMask::BrvlanCompressed,
    LinkExtentMask::SkipStats,
    LinkExtentMask::Mrp,
    LinkExtentMask::CfmConfig,
    LinkExtentMask::CfmStatus,
    LinkExtentMask::Mst,
];

/// The bits that no listed mask has.
const OTHER_BITS: u32 = 0xffff_ff00;

impl LinkExtentMask {
    /// Returns the list of a number: each listed mask whose bit is set, in the order of the bits,
    /// and then all other bits, if any, as one `Other`. Allocates nothing for a number without a
    /// bit.
    ///
    /// # Errors
    ///
    /// Out of memory if an allocation fails.
    #[tactic(auto, using(crate::proofs::Masks::masks))]
    pub fn list(alloc: Global, number: u32) -> Result<Vec<Self>, DecodeError>
        ensures listed { IfOk result (λ v. v.items ≡ link_extent_masks_of number) }
        ensures joined { IfOk result (λ v. joined_extent_masks v.items ≡ number) }
        ensures err { IfErr result (λ e. is_memory e ≡ true) }
        ensures not_zero { IfErr result (λ _. number ≢ 0) }
    {
        Ok(masks_of(alloc, number)?)
    }

    /// Returns the number of a list: the bits of its masks joined.
    pub fn join(masks: &[Self]) -> u32
        ensures { result ≡ joined_extent_masks masks.now }
    {
        let mut number = 0;
        for mask in masks {
            number |= u32::from(*mask);
        }
        number
    }
}

/// Returns the listed masks whose bit is set in a number, and its other bits, if any, as one
/// `Other`.
fn masks_of(alloc: Global, number: u32) -> Result<Vec<LinkExtentMask>, AllocError>
    ensures listed { IfOk result (λ v. v.items ≡ link_extent_masks_of number) }
    ensures not_zero { IfErr result (λ _. number ≢ 0) }
{
    if number == 0 {
        return Ok(Vec::new(alloc));
    }
    let mut masks = set_masks(alloc, &LISTED, number)?;
    let others = number & OTHER_BITS;
    if others != 0 {
        masks.push(LinkExtentMask::Other(others))?;
    }
    Ok(masks)
}

/// Appends those of some masks whose bit is set in a number.
fn set_masks(
    alloc: Global,
    listed: &[LinkExtentMask],
    number: u32,
) -> Result<Vec<LinkExtentMask>, AllocError>
    ensures { IfOk result (λ v. v.items ≡ set_extent_masks listed.now number) }
{
    let mut masks = Vec::new(alloc);
    for mask in listed {
        if number & u32::from(*mask) != 0 {
            masks.push(*mask)?;
        }
    }
    Ok(masks)
}
