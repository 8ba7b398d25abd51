//! Boxes put together. A box that is given up is moved and not copied.
ghost use Rattle.std.specs.Prelude.{◌≡◌, ◌++◌, ◌∷◌, [], map, IfOk, OnOk};
ghost use Rattle.std.specs.Option.{option_or};
ghost use Rattle.query_meaning.specs.RegionMeaning as meaning;

use crate::copies::{add_columns, copy_box, copy_measures};
use olap_meaning::{ColumnId, List, MeasureId, OutOfMemory, Region, RegionBox, ValueId};
use std::alloc::Global;

// The measures of a box, or those of one that is given up where it names none.
fn measures_before(
    alloc: Global,
    first: &Option<List<MeasureId>>,
    second: Option<List<MeasureId>>,
) -> Result<Option<List<MeasureId>>, OutOfMemory>
    ensures { IfOk result (λ measures. measures ≡ option_or first.now second) }
{
    if first.is_some() {
        return copy_measures(alloc, first);
    }
    Ok(second)
}

// Some columns before those that are given up.
fn columns_before(
    alloc: Global,
    firsts: &[(ColumnId, List<ValueId>)],
    seconds: List<(ColumnId, List<ValueId>)>,
) -> Result<List<(ColumnId, List<ValueId>)>, OutOfMemory>
    ensures { IfOk result (λ columns. columns ≡ firsts.now ++ seconds) }
{
    if firsts.is_empty() {
        return Ok(seconds);
    }
    let mut columns = List::new(alloc);
    add_columns(alloc, &mut columns, firsts)?;
    for column in seconds.into_vec() {
        columns.push(column)?;
    }
    Ok(columns)
}

// A box before one that is given up.
fn before(alloc: Global, first: &RegionBox, second: RegionBox) -> Result<RegionBox, OutOfMemory>
    ensures { IfOk result (λ made. made ≡ meaning.together first.now second) }
{
    let measures = measures_before(alloc, &first.measures, second.measures)?;
    let columns = columns_before(alloc, first.columns.as_slice(), second.columns)?;
    Ok(RegionBox { measures, columns })
}

// The measures of a box that is given up, or of another where it names none.
fn measures_behind(
    alloc: Global,
    first: Option<List<MeasureId>>,
    second: &Option<List<MeasureId>>,
) -> Result<Option<List<MeasureId>>, OutOfMemory>
    ensures { IfOk result (λ measures. measures ≡ option_or first second.now) }
{
    if first.is_some() {
        return Ok(first);
    }
    copy_measures(alloc, second)
}

// A box that is given up before another.
fn behind(alloc: Global, first: RegionBox, second: &RegionBox) -> Result<RegionBox, OutOfMemory>
    ensures { IfOk result (λ made. made ≡ meaning.together first second.now) }
{
    let measures = measures_behind(alloc, first.measures, &second.measures)?;
    let mut columns = first.columns;
    add_columns(alloc, &mut columns, second.columns.as_slice())?;
    Ok(RegionBox { measures, columns })
}

// A box before each of some that are given up.
fn all_before(
    alloc: Global,
    first: &RegionBox,
    seconds: List<RegionBox>,
) -> Result<List<RegionBox>, OutOfMemory>
    ensures { IfOk result (λ boxes. boxes ≡ map (meaning.together first.now) seconds) }
{
    let mut boxes = Vec::with_capacity(alloc, seconds.len())?;
    for second in seconds.into_vec() {
        boxes.push(before(alloc, first, second)?)?;
    }
    Ok(List::from_vec(boxes))
}

// A box after each of some that are given up.
fn all_behind(
    alloc: Global,
    firsts: List<RegionBox>,
    second: &RegionBox,
) -> Result<List<RegionBox>, OutOfMemory>
    ensures { IfOk result
        (λ boxes. boxes ≡ map (λ first. meaning.together first second.now) firsts) }
{
    let mut boxes = Vec::with_capacity(alloc, firsts.len())?;
    for first in firsts.into_vec() {
        boxes.push(behind(alloc, first, second)?)?;
    }
    Ok(List::from_vec(boxes))
}

// Adds a box with each of some.
fn add_together(
    alloc: Global,
    boxes: &mut List<RegionBox>,
    first: &RegionBox,
    seconds: &[RegionBox],
) -> Result<(), OutOfMemory>
    ensures { OnOk result (boxes.new ≡ boxes.old ++ map (meaning.together first.now) seconds.now) }
{
    for second in seconds {
        let made = behind(alloc, copy_box(alloc, first)?, second)?;
        boxes.push(made)?;
    }
    Ok(())
}

// Each of some boxes with each of others, as copies: the first varies slowest.
fn copies_crossed(
    alloc: Global,
    firsts: &[RegionBox],
    seconds: &[RegionBox],
) -> Result<List<RegionBox>, OutOfMemory>
    ensures { IfOk result (λ boxes. boxes ≡ meaning.crossed_boxes firsts.now seconds.now) }
{
    let mut boxes = List::new(alloc);
    for first in firsts {
        add_together(alloc, &mut boxes, first, seconds)?;
    }
    Ok(boxes)
}

// Each of some boxes with each of others: the first varies slowest. Where one side is one box, the others are moved.
fn crossed_boxes(
    alloc: Global,
    firsts: List<RegionBox>,
    seconds: List<RegionBox>,
) -> Result<List<RegionBox>, OutOfMemory>
    ensures { IfOk result (λ boxes. boxes ≡ meaning.crossed_boxes firsts seconds) }
{
    if firsts.len() == 1 {
        return all_before(alloc, &firsts.as_slice()[0], seconds);
    }
    if seconds.len() == 1 {
        return all_behind(alloc, firsts, &seconds.as_slice()[0]);
    }
    copies_crossed(alloc, firsts.as_slice(), seconds.as_slice())
}

// The box that names nothing.
fn whole_box(alloc: Global) -> RegionBox
    ensures { result ≡ meaning.whole_box }
{
    RegionBox {
        measures: None,
        columns: List::new(alloc),
    }
}

// The boxes of no part.
fn none_crossed(alloc: Global) -> Result<List<RegionBox>, OutOfMemory>
    ensures { IfOk result (λ boxes. boxes ≡ meaning.whole_box ∷ []) }
{
    let mut boxes = List::new(alloc);
    boxes.push(whole_box(alloc))?;
    Ok(boxes)
}

/// Each box of the first part with each of the second, each of these with each of the third, and so on.
pub(crate) fn all_crossed(
    alloc: Global,
    parts: List<Region>,
) -> Result<List<RegionBox>, OutOfMemory>
    ensures { IfOk result (λ boxes. boxes ≡ meaning.all_crossed parts) }
{
    let mut boxes = none_crossed(alloc)?;
    for part in parts.into_vec() {
        let more = crossed_boxes(alloc, boxes, part.boxes)?;
        boxes = more;
    }
    Ok(boxes)
}
