//! Which regions may be joined.
ghost use Rattle.std.specs.Prelude.{◌≡◌, ◌&&◌, ◌||◌, ◌↔◌, is_none, length, nat_le, IsTrue};
ghost use Rattle.std.specs.List.{list_all, list_any};
ghost use Rattle.olap_meaning.specs.Legal as legal;
ghost use Rattle.region_algebra.specs.Regions.{IsBounded};

use crate::cover::is_flushable;
use olap_meaning::{Region, RegionBox};
use query_meaning::BOX_LIMIT;

/// Whether a region is bounded, as `crossjoin` and `union` ask of their parts: it has not too many boxes, and its boxes
/// name measures only where the measures are among its dimensions.
pub fn is_bounded(region: &Region) -> bool
    ensures { IsTrue result ↔ IsBounded region.now }
{
    passes(region)
}

// A region has not too many boxes, and they name measures only as they may.
fn passes(region: &Region) -> bool
    ensures { result
        ≡ (nat_le (length region.now.boxes) BOX_LIMIT
        && (list_any legal.is_measures region.now.dims
        || list_all (λ box. is_none box.measures) region.now.boxes)) }
{
    is_within(region) && is_named(region)
}

// A region has not too many boxes.
fn is_within(region: &Region) -> bool
    ensures { result ≡ nat_le (length region.now.boxes) BOX_LIMIT }
{
    region.boxes.len() as u64 <= u64::from(BOX_LIMIT)
}

// The measures are among a region's dimensions, or no box names any.
fn is_named(region: &Region) -> bool
    ensures { result
        ≡ (list_any legal.is_measures region.now.dims
        || list_all (λ box. is_none box.measures) region.now.boxes) }
{
    is_flushable(region) || name_none(region.boxes.as_slice())
}

// No box names measures.
fn name_none(boxes: &[RegionBox]) -> bool
    ensures { result ≡ list_all (λ box. is_none box.measures) boxes.now }
{
    boxes.iter().all(|one| one.measures.is_none())
}
