//! The parts that loads of one kind bring of a cell, along one split.
ghost use Rattle.std.specs.Prelude.{◌≡◌, ◌≢◌, ◌<◌, ◌≤◌, ◌∷◌, ◌==◌, ◌++◌, ◌+◌, ◌&&◌, ◌||◌, [], ℕ, List, All, Contains, IfNone, IfOk, IfSome, IsTrue, OnOk, false, filter, is_some, length, map, option_copied, option_map, slice_get, take};
ghost use Rattle.std.specs.List.{find, list_all, list_any};
ghost use Rattle.olap_meaning.specs.Covering as covering;
ghost use Rattle.olap_meaning.specs.Covering.{among};
ghost use Rattle.olap_meaning.specs.Rolled as rolled;
ghost use Rattle.olap_meaning.specs.Rolled.{allows_in, header_columns, is_open_in};
ghost use Rattle.segment_header.specs.Headers as headers;
ghost use Rattle.olap_meaning.specs.declared.cells.Cell.{Cell as CellOf};
ghost use Rattle.cache_flush.specs.Loads.{KeptOf, kept_of};
ghost use Rattle.rollup_plan.specs.Picks as picks;
ghost use Rattle.rollup_plan.specs.Picks.{AreCounted, ArePicked, ArePickedOf, is_free, is_marked, kind_splits, lent, listed, part_with};

use crate::marks::mark;
use crate::plan::Part;
use cache_flush::Kept;
use olap_meaning::{Allowed, Cell, ColumnId, Header, List, OutOfMemory};
use segment_header::names_column;
use std::alloc::Global;

// Whether any value is allowed.
fn is_any(allowed: &Allowed) -> bool
    ensures { result ≡ rolled.is_any allowed.now }
{
    match allowed {
        Allowed::Any => true,
        Allowed::Set(_) => false,
    }
}

// What a header allows in one of its columns.
fn allowed_in(header: &Header, column: ColumnId) -> &Allowed
    requires formed { IsTrue (headers.is_header header.now) }
    requires own { Contains (header_columns header.now) column }
    ensures set { IsTrue (headers.is_set result.now) }
    ensures open_in { rolled.is_any result.now ≡ is_open_in header.now column }
    ensures allows { (value : ℕ)
        → covering.allows result.now value ≡ allows_in header.now column value }
{
    let columns = header.columns.as_slice();
    match columns.binary_search_by_key(&column, |own| own.0) {
        Ok(i) => &columns[i].1,
        Err(_) => unreachable!(),
    }
}

// Whether any value is allowed in each column of a header that a cell lacks, except for the split.
fn is_open_but(header: &Header, cell: &Cell, split: ColumnId) -> bool
    ensures { result ≡ rolled.is_open_but cell.now split header.now }
{
    header.columns.as_slice().iter().all(|own| own.0 == split
        || names_column(cell, own.0)
        || is_any(&own.1))
}

// Whether a load is open except for the split, and has each value of it.
fn is_whole(kept: &Kept, cell: &Cell, split: ColumnId, size: u32) -> bool
    requires { Contains (header_columns kept.now.body.header) split }
    ensures { result ≡ picks.is_whole size cell.now split (kept_of kept.now) }
{
    let header = kept.body.header();
    is_open_but(header, cell, split) && (size == 0 || is_any(allowed_in(header, split)))
}

// The first of some loads that is open except for the split and has each value of it.
fn find_whole<'a>(kept: &[&'a Kept], cell: &Cell, split: ColumnId, size: u32) -> Option<&'a Kept>
    requires { All (λ one. Contains (header_columns one.body.header) split) (lent kept.now) }
    ensures { option_map kept_of (option_copied result)
        ≡ find (picks.is_whole size cell.now split) (lent kept.now) }
{
    for one in kept {
        if is_whole(one, cell, split, size) {
            return Some(*one);
        }
    }
    None
}

fn copy_allowed(alloc: Global, allowed: &Allowed) -> Result<Allowed, OutOfMemory>
    ensures { IfOk result (λ copy. copy ≡ allowed.now) }
{
    match allowed {
        Allowed::Any => Ok(Allowed::Any),
        Allowed::Set(values) => {
            let copy = Vec::from_slice(alloc, values.as_slice())?;
            Ok(Allowed::Set(List::from_vec(copy)))
        }
    }
}

// The part of a load that has each value of the split.
fn part_of_whole(alloc: Global, kept: &Kept, split: ColumnId) -> Result<List<Part>, OutOfMemory>
    requires { Contains (header_columns kept.now.body.header) split }
    ensures { IfOk result
        (λ parts. (size : ℕ) (cell : CellOf) (loads : List KeptOf)
        → Contains loads (kept_of kept.now)
        → IsTrue (picks.is_whole size cell split (kept_of kept.now))
        → ArePicked size cell split loads parts) }
{
    let mut parts = List::new(alloc);
    let own = copy_allowed(alloc, allowed_in(kept.body.header(), split))?;
    parts.push(Part {
        load: kept.load,
        own,
    })?;
    Ok(parts)
}

// Adds the part of a load, with those values of a set that are not marked, and marks them. There is no such part where all
// are marked.
fn add_values(
    alloc: Global,
    parts: &mut List<Part>,
    marks: &mut [bool],
    load: u64,
    allowed: &Allowed,
) -> Result<(), OutOfMemory>
    requires { IsTrue (headers.is_set allowed.now) }
    ensures parts { OnOk result (parts.new
        ≡ parts.old ++ part_with load (filter (is_free marks.old) (listed allowed.now))) }
    ensures marks { OnOk result ((value : ℕ) → value < length marks.old
        → is_marked marks.new value
        ≡ (is_marked marks.old value || among (listed allowed.now) value)) }
{
    match allowed {
        Allowed::Any => Ok(()),
        Allowed::Set(values) => {
            let own = mark(alloc, marks, values.as_slice())?;
            if own.is_empty() {
                return Ok(());
            }
            parts.push(Part {
                load,
                own: Allowed::Set(List::from_vec(own)),
            })
        }
    }
}

// Adds the part of the next load, where it is open except for the split.
fn add_load(
    alloc: Global,
    parts: &mut List<Part>,
    marks: &mut [bool],
    kept: &[&Kept],
    next: usize,
    cell: &Cell,
    split: ColumnId,
) -> Result<(), OutOfMemory>
    requires inside { next < length kept.now }
    requires having { All (λ one. Contains (header_columns one.body.header) split) (lent kept.now) }
    requires partial { All
        (λ one. picks.is_whole (length marks.old) cell.now split one ≡ false) (lent kept.now) }
    requires so_far { ArePickedOf (length marks.old) cell.now split
        (lent kept.now) (take next (lent kept.now)) parts.old marks.old }
    ensures { OnOk result (ArePickedOf (length marks.old) cell.now split
        (lent kept.now) (take (next + 1) (lent kept.now)) parts.new marks.new) }
{
    let one = kept[next];
    let header = one.body.header();
    if is_open_but(header, cell, split) {
        add_values(alloc, parts, marks, one.load, allowed_in(header, split))?;
    }
    Ok(())
}

// The parts of some loads, one after another.
fn add_loads(
    alloc: Global,
    marks: &mut [bool],
    kept: &[&Kept],
    cell: &Cell,
    split: ColumnId,
) -> Result<List<Part>, OutOfMemory>
    requires having { All (λ one. Contains (header_columns one.body.header) split) (lent kept.now) }
    requires partial { All
        (λ one. picks.is_whole (length marks.old) cell.now split one ≡ false) (lent kept.now) }
    requires unset { (value : ℕ) → is_marked marks.old value ≡ false }
    ensures { IfOk result (λ parts. ArePickedOf (length marks.old) cell.now split
        (lent kept.now) (lent kept.now) parts marks.new) }
{
    let mut parts = List::new(alloc);
    for next in 0..kept.len() {
        add_load(alloc, &mut parts, marks, kept, next, cell, split)?;
    }
    Ok(parts)
}

fn all_marked(marks: &[bool]) -> bool
    ensures { result ≡ list_all (λ mark. mark) marks.now }
{
    marks.iter().all(|mark| *mark)
}

// The parts of loads none of which has each value of the split, by marks that are not set.
fn parts_by(
    alloc: Global,
    marks: &mut [bool],
    kept: &[&Kept],
    cell: &Cell,
    split: ColumnId,
) -> Result<Option<List<Part>>, OutOfMemory>
    requires having { All (λ one. Contains (header_columns one.body.header) split) (lent kept.now) }
    requires partial { All
        (λ one. picks.is_whole (length marks.old) cell.now split one ≡ false) (lent kept.now) }
    requires unset { (value : ℕ) → is_marked marks.old value ≡ false }
    ensures found { IfOk result
        (λ found. is_some found ≡ kind_splits (length marks.old) cell.now split (lent kept.now)) }
    ensures parts { IfOk result
        (λ found. IfSome found (ArePicked (length marks.old) cell.now split (lent kept.now))) }
{
    let parts = add_loads(alloc, marks, kept, cell, split)?;
    if parts.is_empty() {
        return Ok(None);
    }
    if !all_marked(marks) {
        return Ok(None);
    }
    Ok(Some(parts))
}

// How many values a set has: without end where any is allowed.
fn set_size(allowed: &Allowed) -> usize
    ensures { length (listed allowed.now) ≤ result }
{
    match allowed {
        Allowed::Any => usize::MAX,
        Allowed::Set(values) => values.len(),
    }
}

// How many values of the split a load has at most: none where it is not open except for the split.
fn held_by(one: &Kept, cell: &Cell, split: ColumnId) -> usize
    requires { Contains (header_columns one.now.body.header) split }
    ensures { (size : ℕ) → picks.is_whole size cell.now split (kept_of one.now) ≡ false
        → AreCounted cell.now split (kept_of one.now ∷ []) result }
{
    let header = one.body.header();
    if !is_open_but(header, cell, split) {
        return 0;
    }
    set_size(allowed_in(header, split))
}

// Whether loads may have every value of the split together, by how many they have: this needs no marks.
fn are_enough(kept: &[&Kept], cell: &Cell, split: ColumnId, size: u32) -> bool
    requires having { All (λ one. Contains (header_columns one.body.header) split) (lent kept.now) }
    requires partial { All
        (λ one. picks.is_whole size cell.now split one ≡ false) (lent kept.now) }
    ensures { result ≡ false → kind_splits size cell.now split (lent kept.now) ≡ false }
{
    if size == 0 {
        return true;
    }
    let mut left = size as usize;
    for one in kept {
        let held = held_by(one, cell, split);
        if left <= held {
            return true;
        }
        left -= held;
    }
    false
}

// The parts of loads none of which has each value of the split.
fn marked_parts(
    alloc: Global,
    kept: &[&Kept],
    cell: &Cell,
    split: ColumnId,
    size: u32,
) -> Result<Option<List<Part>>, OutOfMemory>
    requires having { All (λ one. Contains (header_columns one.body.header) split) (lent kept.now) }
    requires partial { All
        (λ one. picks.is_whole size cell.now split one ≡ false) (lent kept.now) }
    ensures found { IfOk result
        (λ found. is_some found ≡ kind_splits size cell.now split (lent kept.now)) }
    ensures parts { IfOk result
        (λ found. IfSome found (ArePicked size cell.now split (lent kept.now))) }
{
    if !are_enough(kept, cell, split, size) {
        return Ok(None);
    }
    let mut marks = vec![in alloc; false; size as usize]?;
    parts_by(alloc, marks.as_mut_slice(), kept, cell, split)
}

/// The parts of loads of one kind that are rolled up to a cell along a split, None exactly where they are not.
pub(crate) fn parts_along(
    alloc: Global,
    kept: &[&Kept],
    cell: &Cell,
    split: ColumnId,
    size: u32,
) -> Result<Option<List<Part>>, OutOfMemory>
    requires { All (λ one. Contains (header_columns one.body.header) split) (lent kept.now) }
    ensures found { IfOk result
        (λ found. is_some found ≡ kind_splits size cell.now split (lent kept.now)) }
    ensures parts { IfOk result
        (λ found. IfSome found (ArePicked size cell.now split (lent kept.now))) }
{
    match find_whole(kept, cell, split, size) {
        Some(whole) => Ok(Some(part_of_whole(alloc, whole, split)?)),
        None => marked_parts(alloc, kept, cell, split, size),
    }
}
