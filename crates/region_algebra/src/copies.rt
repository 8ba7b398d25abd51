//! Copies of regions and of what they are made of.
ghost use Rattle.std.specs.Prelude.{◌≡◌, ◌++◌, IfOk, OnOk};

use olap_meaning::{
    ColumnId, List, MeasureId, Member, OutOfMemory, Region, RegionBox, RegionDim, ValueId,
};
use std::alloc::Global;

/// A copy of a region.
pub fn copy_region(alloc: Global, region: &Region) -> Result<Region, OutOfMemory>
    ensures { IfOk result (λ copy. copy ≡ region.now) }
{
    let mut boxes = List::new(alloc);
    add_boxes(alloc, &mut boxes, region.boxes.as_slice())?;
    Ok(Region {
        cube: region.cube,
        dims: copy_dims(alloc, region.dims.as_slice())?,
        boxes,
    })
}

/// Copies of some regions.
pub(crate) fn copy_regions(alloc: Global, regions: &[Region]) -> Result<List<Region>, OutOfMemory>
    ensures { IfOk result (λ copies. copies ≡ regions.now) }
{
    let mut copies = List::new(alloc);
    for region in regions {
        copies.push(copy_region(alloc, region)?)?;
    }
    Ok(copies)
}

/// A copy of some dimensions.
pub(crate) fn copy_dims(alloc: Global, dims: &[RegionDim]) -> Result<List<RegionDim>, OutOfMemory>
    ensures { IfOk result (λ copy. copy ≡ dims.now) }
{
    let mut copy = List::new(alloc);
    add_dims(&mut copy, dims)?;
    Ok(copy)
}

/// Adds some dimensions.
pub(crate) fn add_dims(dims: &mut List<RegionDim>, more: &[RegionDim]) -> Result<(), OutOfMemory>
    ensures { OnOk result (dims.new ≡ dims.old ++ more.now) }
{
    for one in more {
        dims.push(*one)?;
    }
    Ok(())
}

// Adds copies of some boxes.
fn add_boxes(
    alloc: Global,
    boxes: &mut List<RegionBox>,
    more: &[RegionBox],
) -> Result<(), OutOfMemory>
    ensures { OnOk result (boxes.new ≡ boxes.old ++ more.now) }
{
    for one in more {
        let copy = copy_box(alloc, one)?;
        boxes.push(copy)?;
    }
    Ok(())
}

/// A copy of a box.
pub(crate) fn copy_box(alloc: Global, region_box: &RegionBox) -> Result<RegionBox, OutOfMemory>
    ensures { IfOk result (λ copy. copy ≡ region_box.now) }
{
    let measures = copy_measures(alloc, &region_box.measures)?;
    let mut columns = List::new(alloc);
    add_columns(alloc, &mut columns, region_box.columns.as_slice())?;
    Ok(RegionBox { measures, columns })
}

/// A copy of the measures that a box names.
pub(crate) fn copy_measures(
    alloc: Global,
    measures: &Option<List<MeasureId>>,
) -> Result<Option<List<MeasureId>>, OutOfMemory>
    ensures { IfOk result (λ copy. copy ≡ measures.now) }
{
    match measures {
        None => Ok(None),
        Some(measures) => {
            let copy = Vec::from_slice(alloc, measures.as_slice())?;
            Ok(Some(List::from_vec(copy)))
        }
    }
}

/// Adds copies of some columns.
pub(crate) fn add_columns(
    alloc: Global,
    columns: &mut List<(ColumnId, List<ValueId>)>,
    more: &[(ColumnId, List<ValueId>)],
) -> Result<(), OutOfMemory>
    ensures { OnOk result (columns.new ≡ columns.old ++ more.now) }
{
    for column in more {
        columns.push((column.0, copy_values(alloc, &column.1)?))?;
    }
    Ok(())
}

// A copy of some values.
fn copy_values(alloc: Global, values: &List<ValueId>) -> Result<List<ValueId>, OutOfMemory>
    ensures { IfOk result (λ copy. copy ≡ values.now) }
{
    let copy = Vec::from_slice(alloc, values.as_slice())?;
    Ok(List::from_vec(copy))
}

/// A copy of a member.
pub(crate) fn copy_member(alloc: Global, member: &Member) -> Result<Member, OutOfMemory>
    ensures { IfOk result (λ copy. copy ≡ member.now) }
{
    match member {
        Member::Measure(m) => Ok(Member::Measure(*m)),
        Member::All(h) => Ok(Member::All(*h)),
        Member::At(h, path) => {
            let path = copy_values(alloc, path)?;
            Ok(Member::At(*h, path))
        }
    }
}
