//! Dimensions of regions: which are the same, and the first that repeats.
ghost use Rattle.std.specs.Prelude.{◌≡◌, [], flat_map, not, find, option_copied, IfOk};
ghost use Rattle.std.specs.List.{list_all};
ghost use Rattle.olap_meaning.specs.Legal as legal;
ghost use Rattle.query_meaning.specs.RegionMeaning as meaning;

use crate::copies::add_dims;
use olap_meaning::{List, OutOfMemory, Region, RegionDim};
use std::alloc::Global;

/// A dimension is the measures.
pub(crate) fn is_measures(dimension: RegionDim) -> bool
    ensures measures { result ≡ legal.is_measures dimension }
    ensures same { result ≡ meaning.is_dim RegionDim.Measures dimension }
{
    match dimension {
        RegionDim::Measures => true,
        RegionDim::Dimension(_) => false,
    }
}

// A dimension is this one of the schema.
fn is_place(dimension: RegionDim, place: u32) -> bool
    ensures { result ≡ meaning.is_dim (RegionDim.Dimension place) dimension }
{
    match dimension {
        RegionDim::Measures => false,
        RegionDim::Dimension(other) => place == other,
    }
}

// Two dimensions are the same.
fn is_dim(one: RegionDim, other: RegionDim) -> bool
    ensures { result ≡ meaning.is_dim one other }
{
    match one {
        RegionDim::Measures => is_measures(other),
        RegionDim::Dimension(place) => is_place(other, place),
    }
}

// A dimension is among some.
fn has_dim(dims: &[RegionDim], one: RegionDim) -> bool
    ensures { result ≡ meaning.has_dim dims.now one }
{
    dims.iter().any(|other| is_dim(one, *other))
}

// Each of some dimensions is among others.
fn has_dims(dims: &[RegionDim], others: &[RegionDim]) -> bool
    ensures { result ≡ list_all (meaning.has_dim dims.now) others.now }
{
    others.iter().all(|other| has_dim(dims, *other))
}

/// The same dimensions, in whatever order.
pub(crate) fn same_dims(dims: &[RegionDim], others: &[RegionDim]) -> bool
    ensures { result ≡ meaning.same_dims dims.now others.now }
{
    has_dims(others, dims) && has_dims(dims, others)
}

/// The first of some dimensions that is among those before it.
pub(crate) fn dim_again(dims: &[RegionDim]) -> Option<RegionDim>
    ensures { result ≡ meaning.dim_again [] dims.now }
{
    for (i, one) in dims.iter().enumerate() {
        if has_dim(&dims[..i], *one) {
            return Some(*one);
        }
    }
    None
}

/// The dimensions of some parts, one part after another.
pub(crate) fn all_dims(alloc: Global, parts: &[Region]) -> Result<List<RegionDim>, OutOfMemory>
    ensures { IfOk result (λ dims. dims ≡ meaning.all_dims parts.now) }
{
    let mut dims = List::new(alloc);
    for part in parts {
        add_dims(&mut dims, part.dims.as_slice())?;
    }
    Ok(dims)
}
