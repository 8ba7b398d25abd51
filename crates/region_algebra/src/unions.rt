//! Unions of regions.
ghost use Rattle.std.specs.Prelude.{ℕ, ◌≡◌, ◌<◌, Ok, None, All, find, flat_map, length, not, option_copied, IfOk, IfErr, OnOk};
ghost use Rattle.query_meaning.specs.RegionMeaning as meaning;
ghost use Rattle.region_algebra.specs.Faults.{IsFaultOf, IsReason};
ghost use Rattle.region_algebra.specs.Regions.{cube_of, IsBounded};

use crate::copies::{copy_dims, copy_regions};
use crate::dims::same_dims;
use crate::fault::RegionFault;
use crate::limits::refuse_sum;
use olap_meaning::{CubeId, List, OutOfMemory, Region, RegionBox, RegionDim};
use std::alloc::Global;

/// The union of some regions of one cube: the boxes of all parts. All parts are of the dimensions of the first, in
/// whatever order. Its boxes are counted before one is made.
pub fn union(alloc: Global, parts: &[Region]) -> Result<Region, RegionFault>
    requires some { 0 < length parts.now }
    requires cube { All (λ part. part.cube ≡ cube_of parts.now) parts.now }
    requires regions { All IsBounded parts.now }
    ensures ok { IfOk result
        (λ region. meaning.union_meant (cube_of parts.now) parts.now ≡ Ok region) }
    ensures own { IfOk result IsBounded }
    ensures fault { IfErr result
        (λ fault. IsFaultOf fault (meaning.union_meant (cube_of parts.now) parts.now)) }
{
    let dims = united_dims(alloc, parts)?;
    let boxes = all_boxes(alloc, copy_regions(alloc, parts)?)?;
    let cube = parts[0].cube;
    Ok(Region { cube, dims, boxes })
}

/// The union of some regions of a cube, which are given up: their boxes are moved.
pub(crate) fn union_in(
    alloc: Global,
    cube: CubeId,
    parts: List<Region>,
) -> Result<Region, RegionFault>
    requires { All IsBounded parts }
    ensures ok { IfOk result (λ region. meaning.union_meant cube parts ≡ Ok region) }
    ensures own { IfOk result IsBounded }
    ensures fault { IfErr result (λ fault. IsFaultOf fault (meaning.union_meant cube parts)) }
{
    let dims = united_dims(alloc, parts.as_slice())?;
    let boxes = all_boxes(alloc, parts)?;
    Ok(Region { cube, dims, boxes })
}

// The dimensions of a union, or why there is none: a part is of others, or it has too many boxes.
fn united_dims(alloc: Global, parts: &[Region]) -> Result<List<RegionDim>, RegionFault>
    requires { All IsBounded parts.now }
    ensures dims { IfOk result (λ dims. dims ≡ meaning.first_dims parts.now) }
    ensures same { OnOk result (meaning.mismatch parts.now ≡ None) }
    ensures few { OnOk result (meaning.many_united 0 (meaning.box_counts parts.now) ≡ None) }
    ensures fault { IfErr result
        (λ fault. (cube : ℕ) → IsFaultOf fault (meaning.union_meant cube parts.now)) }
{
    let dims = first_dims(alloc, parts)?;
    refuse_others(alloc, dims.as_slice(), parts)?;
    refuse_sum(parts)?;
    Ok(dims)
}

// The dimensions of the first part.
fn first_dims(alloc: Global, parts: &[Region]) -> Result<List<RegionDim>, OutOfMemory>
    ensures { IfOk result (λ dims. dims ≡ meaning.first_dims parts.now) }
{
    match parts.get(0) {
        None => Ok(List::new(alloc)),
        Some(part) => copy_dims(alloc, part.dims.as_slice()),
    }
}

// A part is of other dimensions.
fn is_of_others(dims: &[RegionDim], part: &Region) -> bool
    ensures { result ≡ not (meaning.same_dims dims.now part.now.dims) }
{
    !same_dims(dims, part.dims.as_slice())
}

// The first part that is of other dimensions.
fn first_of_others<'a>(dims: &[RegionDim], parts: &'a [Region]) -> Option<&'a Region>
    ensures { option_copied result
        ≡ find (λ part. not (meaning.same_dims dims.now part.dims)) parts.now }
{
    parts.iter().find(|part| is_of_others(dims, part))
}

// Refuses the first part that is of other dimensions than the first.
fn refuse_others(alloc: Global, dims: &[RegionDim], parts: &[Region]) -> Result<(), RegionFault>
    requires { dims.now ≡ meaning.first_dims parts.now }
    ensures ok { OnOk result (meaning.mismatch parts.now ≡ None) }
    ensures fault { IfErr result (λ fault. IsReason fault (meaning.mismatch parts.now)) }
{
    match first_of_others(dims, parts) {
        None => Ok(()),
        Some(part) => {
            let first = copy_dims(alloc, dims)?;
            let second = copy_dims(alloc, part.dims.as_slice())?;
            Err(RegionFault::Mismatch { first, second })
        }
    }
}

// The boxes of all parts, one part after another.
fn all_boxes(alloc: Global, parts: List<Region>) -> Result<List<RegionBox>, OutOfMemory>
    ensures { IfOk result (λ boxes. boxes ≡ flat_map (λ part. part.boxes) parts) }
{
    let mut boxes = Vec::new(alloc);
    for part in parts.into_vec() {
        let mut more = part.boxes.into_vec();
        boxes.append(&mut more)?;
    }
    Ok(List::from_vec(boxes))
}
