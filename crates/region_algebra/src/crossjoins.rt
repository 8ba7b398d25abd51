//! Crossjoins of regions.
ghost use Rattle.std.specs.Prelude.{ℕ, ◌≡◌, ◌<◌, [], Ok, None, All, length, option_map, IfOk, IfErr, OnOk};
ghost use Rattle.query_meaning.specs.RegionMeaning as meaning;
ghost use Rattle.region_algebra.specs.Faults.{IsFaultOf, IsReason};
ghost use Rattle.region_algebra.specs.Regions.{cube_of, IsBounded};

use crate::boxes::all_crossed;
use crate::copies::copy_regions;
use crate::dims::{all_dims, dim_again};
use crate::fault::RegionFault;
use crate::limits::refuse_product;
use olap_meaning::{CubeId, List, Region, RegionDim};
use std::alloc::Global;

/// The crossjoin of some regions of one cube: each of its boxes is one box of each part put together, and the first part
/// varies slowest. No two parts share a dimension. Its boxes are counted before one is made.
pub fn crossjoin(alloc: Global, parts: &[Region]) -> Result<Region, RegionFault>
    requires some { 0 < length parts.now }
    requires cube { All (λ part. part.cube ≡ cube_of parts.now) parts.now }
    requires regions { All IsBounded parts.now }
    ensures ok { IfOk result
        (λ region. meaning.crossjoin_meant (cube_of parts.now) parts.now ≡ Ok region) }
    ensures own { IfOk result IsBounded }
    ensures fault { IfErr result
        (λ fault. IsFaultOf fault (meaning.crossjoin_meant (cube_of parts.now) parts.now)) }
{
    let dims = crossed_dims(alloc, parts)?;
    let boxes = all_crossed(alloc, copy_regions(alloc, parts)?)?;
    let cube = parts[0].cube;
    Ok(Region { cube, dims, boxes })
}

/// The crossjoin of some regions of a cube, which are given up: where one side is one box, the others are moved.
pub(crate) fn crossjoin_in(
    alloc: Global,
    cube: CubeId,
    parts: List<Region>,
) -> Result<Region, RegionFault>
    requires { All IsBounded parts }
    ensures ok { IfOk result (λ region. meaning.crossjoin_meant cube parts ≡ Ok region) }
    ensures own { IfOk result IsBounded }
    ensures fault { IfErr result (λ fault. IsFaultOf fault (meaning.crossjoin_meant cube parts)) }
{
    let dims = crossed_dims(alloc, parts.as_slice())?;
    let boxes = all_crossed(alloc, parts)?;
    Ok(Region { cube, dims, boxes })
}

// The dimensions of a crossjoin, or why there is none: two parts share one, or it has too many boxes.
fn crossed_dims(alloc: Global, parts: &[Region]) -> Result<List<RegionDim>, RegionFault>
    requires { All IsBounded parts.now }
    ensures dims { IfOk result (λ dims. dims ≡ meaning.all_dims parts.now) }
    ensures apart { OnOk result (meaning.dim_again [] (meaning.all_dims parts.now) ≡ None) }
    ensures few { OnOk result (meaning.many_crossed 1 (meaning.box_counts parts.now) ≡ None) }
    ensures fault { IfErr result
        (λ fault. (cube : ℕ) → IsFaultOf fault (meaning.crossjoin_meant cube parts.now)) }
{
    let dims = all_dims(alloc, parts)?;
    refuse_common(dims.as_slice())?;
    refuse_product(parts)?;
    Ok(dims)
}

// Refuses the first of some dimensions that stood earlier already.
fn refuse_common(dims: &[RegionDim]) -> Result<(), RegionFault>
    ensures ok { OnOk result (meaning.dim_again [] dims.now ≡ None) }
    ensures fault { IfErr result (λ fault. IsReason fault
        (option_map meaning.CommonDimension (meaning.dim_again [] dims.now))) }
{
    match dim_again(dims) {
        None => Ok(()),
        Some(dimension) => Err(RegionFault::CommonDimension { dimension }),
    }
}
