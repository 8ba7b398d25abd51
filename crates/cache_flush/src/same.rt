//! Whether two regions are the same. Nothing here takes memory.
ghost use Rattle.std.specs.Prelude.{◌≡◌, IsTrue};

use olap_meaning::{ColumnId, List, MeasureId, Region, RegionBox, RegionDim, ValueId};

/// Whether two regions are the same: they have the same cube, dimensions and boxes, in the same order.
pub(crate) fn same_region(one: &Region, other: &Region) -> bool
    ensures { IsTrue result → one.now ≡ other.now }
{
    one.cube == other.cube
        && same_dims(one.dims.as_slice(), other.dims.as_slice())
        && same_boxes(one.boxes.as_slice(), other.boxes.as_slice())
}

fn same_dims(one: &[RegionDim], other: &[RegionDim]) -> bool
    ensures { IsTrue result → one.now ≡ other.now }
{
    if one.len() != other.len() {
        return false;
    }
    for i in 0..one.len() {
        if one[i] != other[i] {
            return false;
        }
    }
    true
}

fn same_boxes(one: &[RegionBox], other: &[RegionBox]) -> bool
    ensures { IsTrue result → one.now ≡ other.now }
{
    if one.len() != other.len() {
        return false;
    }
    for i in 0..one.len() {
        if !same_box(&one[i], &other[i]) {
            return false;
        }
    }
    true
}

fn same_box(one: &RegionBox, other: &RegionBox) -> bool
    ensures { IsTrue result → one.now ≡ other.now }
{
    same_measures(&one.measures, &other.measures)
        && same_columns(one.columns.as_slice(), other.columns.as_slice())
}

fn same_measures(one: &Option<List<MeasureId>>, other: &Option<List<MeasureId>>) -> bool
    ensures { IsTrue result → one.now ≡ other.now }
{
    match (one, other) {
        (None, None) => true,
        (Some(some), Some(others)) => have_same_measures(some.as_slice(), others.as_slice()),
        _ => false,
    }
}

fn have_same_measures(one: &[MeasureId], other: &[MeasureId]) -> bool
    ensures { IsTrue result → one.now ≡ other.now }
{
    one == other
}

fn same_columns(one: &[(ColumnId, List<ValueId>)], other: &[(ColumnId, List<ValueId>)]) -> bool
    ensures { IsTrue result → one.now ≡ other.now }
{
    if one.len() != other.len() {
        return false;
    }
    for i in 0..one.len() {
        if !same_column(&one[i], &other[i]) {
            return false;
        }
    }
    true
}

fn same_column(one: &(ColumnId, List<ValueId>), other: &(ColumnId, List<ValueId>)) -> bool
    ensures { IsTrue result → one.now ≡ other.now }
{
    one.0 == other.0 && have_same_values(one.1.as_slice(), other.1.as_slice())
}

fn have_same_values(one: &[ValueId], other: &[ValueId]) -> bool
    ensures { IsTrue result → one.now ≡ other.now }
{
    one == other
}
