//! What a query means in a catalog.
ghost use Rattle.std.specs.Prelude.{◌≡◌, ◌<◌, ◌≤◌, ◌*◌, ◌++◌, ◌⊎◌, [], Ok, Err, Some, false, All, length, max, min, map, option_map, IfOk, IfErr, IfSome, IsSomeAnd, OnOk};
ghost use Rattle.std.specs.Option.{option_map_or};
ghost use Rattle.cell_request.specs.Faults.{refusal_of, IsFaultOf};
ghost use Rattle.cell_request.specs.Parts.{part_meant, unless_refused, IsPartOf};
ghost use Rattle.cell_request.specs.Plans.{listed};
ghost use Rattle.olap_meaning.specs.Catalog.{find_cube};
ghost use Rattle.olap_meaning.specs.MemberOf.{IsMemberOf};
ghost use Rattle.query_meaning.specs.declared.axes.Axes.{Axes};
ghost use Rattle.query_meaning.specs.OwnAxes.{AreAxesOf, AreTuplesOf};
ghost use Rattle.query_meaning.specs.Resolution as meaning;
ghost use Rattle.query_meaning.specs.Resolution.{axes_meant, most_told};

use crate::fault::{ResolveFault, unknown_cube};
use crate::names::tuple_at;
use crate::parts::Part;
use crate::plan::tuples_of;
use crate::roots::{add_roots, refuse_twice, roots_of};
use crate::sets::set_part;
use olap_catalog::Catalog;
use olap_meaning::{CELL_LIMIT, CubeId, LevelRef, List, Member, OutOfMemory};
use query_meaning::{Axes, Axis, AxisText, Query};
use std::alloc::Global;

/// What a query means in a catalog: its cube; the columns, the rows and the slicer, each from left to right, parts before
/// their whole; then the hierarchies of all three together; then the number of cells. The fault is the first refusal.
/// No tuple of an axis is listed before the number of cells is known to be within the limit.
pub fn resolve(alloc: Global, catalog: &Catalog, query: &Query) -> Result<Axes, ResolveFault>
    ensures ok { IfOk result (λ axes. axes_meant catalog.now query.now ≡ Ok axes) }
    ensures own { IfOk result (AreAxesOf catalog.now) }
    ensures fault { IfErr result
        (λ fault. (fault ≡ ResolveFault.OutOfMemory)
        ⊎ IsSomeAnd (refusal_of fault)
        (λ refused. axes_meant catalog.now query.now ≡ Err refused)) }
{
    let Some(cube) = catalog.find_cube(query.cube.as_str()) else {
        return Err(unknown_cube(&query.cube));
    };
    axes_in(alloc, catalog, cube, query)
}

// What a query means in its cube.
fn axes_in(
    alloc: Global,
    catalog: &Catalog,
    cube: CubeId,
    query: &Query,
) -> Result<Axes, ResolveFault>
    requires known { cube < length catalog.now.cubes }
    requires found { find_cube catalog.now query.now.cube ≡ Some cube }
    ensures ok { IfOk result (λ axes. axes_meant catalog.now query.now ≡ Ok axes) }
    ensures own { IfOk result (AreAxesOf catalog.now) }
    ensures fault { IfErr result (λ fault. IsFaultOf fault (axes_meant catalog.now query.now)) }
{
    let columns = set_part(alloc, catalog, cube, &query.columns.set)?;
    let rows = rows_part(alloc, catalog, cube, &query.rows)?;
    let slicer = tuple_at(alloc, catalog, cube, query.slicer.as_slice())?;
    refuse_axes(alloc, catalog, cube, &columns, &rows, slicer.as_slice())?;
    listed_axes(alloc, catalog, cube, query, &columns, &rows, slicer)
}

// Refuses a hierarchy that stands twice, then too many cells.
fn refuse_axes(
    alloc: Global,
    catalog: &Catalog,
    cube: CubeId,
    columns: &Part,
    rows: &Option<Part>,
    slicer: &[Member],
) -> Result<(), ResolveFault>
    requires columns { IsPartOf catalog.now cube columns.now }
    requires rows { IfSome rows.now (IsPartOf catalog.now cube) }
    requires slicer { All (IsMemberOf catalog.now cube) slicer.now }
    ensures ok { OnOk result ((axes : Axes)
        → unless_refused catalog.now cube columns.now rows.now slicer.now axes ≡ Ok axes) }
    ensures fault { IfErr result (λ fault. (axes : Axes) → IsFaultOf fault
        (unless_refused catalog.now cube columns.now rows.now slicer.now axes)) }
{
    let roots = axis_roots(alloc, columns, rows, slicer)?;
    refuse_twice(alloc, catalog, roots.as_slice())?;
    refuse_many(cell_count(columns, rows))
}

// The axes with these columns, rows and slicer, with all their tuples.
fn listed_axes(
    alloc: Global,
    catalog: &Catalog,
    cube: CubeId,
    query: &Query,
    columns: &Part,
    rows: &Option<Part>,
    slicer: List<Member>,
) -> Result<Axes, ResolveFault>
    requires known { cube < length catalog.now.cubes }
    requires columns { IsPartOf catalog.now cube columns.now }
    requires rows { IfSome rows.now (IsPartOf catalog.now cube) }
    requires slicer { All (IsMemberOf catalog.now cube) slicer }
    ensures axes { IfOk result (λ axes. axes ≡ meaning.axes_of cube query.now
        (part_meant catalog.now cube columns.now)
        (option_map (part_meant catalog.now cube) rows.now) slicer) }
    ensures own { IfOk result (AreAxesOf catalog.now) }
    ensures fault { IfErr result (λ fault. fault ≡ ResolveFault.OutOfMemory) }
{
    let columns = axis(alloc, catalog, cube, query.columns.non_empty, columns)?;
    let rows = row_axis(alloc, catalog, cube, are_non_empty(&query.rows), rows)?;
    Ok(Axes {
        cube,
        columns,
        rows,
        slicer,
    })
}

// What the rows mean, where there are rows.
fn rows_part(
    alloc: Global,
    catalog: &Catalog,
    cube: CubeId,
    rows: &Option<AxisText>,
) -> Result<Option<Part>, ResolveFault>
    requires { cube < length catalog.now.cubes }
    ensures ok { IfOk result (λ part. meaning.rows_meant catalog.now cube rows.now
        ≡ Ok (option_map (part_meant catalog.now cube) part)) }
    ensures own { IfOk result (λ part. IfSome part (IsPartOf catalog.now cube)) }
    ensures fault { IfErr result
        (λ fault. IsFaultOf fault (meaning.rows_meant catalog.now cube rows.now)) }
{
    match rows {
        None => Ok(None),
        Some(axis) => {
            let part = set_part(alloc, catalog, cube, &axis.set)?;
            Ok(Some(part))
        }
    }
}

// The roots of the columns, the rows and the slicer together.
fn axis_roots(
    alloc: Global,
    columns: &Part,
    rows: &Option<Part>,
    slicer: &[Member],
) -> Result<List<LevelRef>, OutOfMemory>
    ensures { IfOk result (λ roots. roots
        ≡ columns.now.roots ++ option_map_or (λ part. part.roots) rows.now []
        ++ map meaning.root_of slicer.now) }
{
    let mut roots = List::new(alloc);
    add_roots(&mut roots, columns.roots.as_slice())?;
    if let Some(part) = rows {
        add_roots(&mut roots, part.roots.as_slice())?;
    }
    let others = roots_of(alloc, slicer)?;
    add_roots(&mut roots, others.as_slice())?;
    Ok(roots)
}

// The lesser of the number of cells and 2^64 - 1. An axis without a tuple counts as one.
fn cell_count(columns: &Part, rows: &Option<Part>) -> u64
    ensures { result
        ≡ min (max 1 columns.now.count * max 1 (option_map_or (λ part. part.count) rows.now 1))
        most_told }
{
    let down = match rows {
        None => 1,
        Some(part) => part.count.max(1),
    };
    columns.count.max(1).saturating_mul(down)
}

// Refuses more cells than the limit.
fn refuse_many(count: u64) -> Result<(), ResolveFault>
    ensures ok { OnOk result (count ≤ CELL_LIMIT) }
    ensures many { IfErr result (λ fault. CELL_LIMIT < count) }
    ensures fault { IfErr result (λ fault. fault ≡ ResolveFault.TooManyCells count CELL_LIMIT) }
{
    if count > u64::from(CELL_LIMIT) {
        return Err(ResolveFault::TooManyCells {
            count,
            limit: CELL_LIMIT,
        });
    }
    Ok(())
}

// The rows are NON EMPTY.
fn are_non_empty(rows: &Option<AxisText>) -> bool
    ensures { result ≡ option_map_or (λ axis. axis.non_empty) rows.now false }
{
    match rows {
        None => false,
        Some(axis) => axis.non_empty,
    }
}

// The axis of these tuples.
fn axis(
    alloc: Global,
    catalog: &Catalog,
    cube: CubeId,
    non_empty: bool,
    part: &Part,
) -> Result<Axis, OutOfMemory>
    requires known { cube < length catalog.now.cubes }
    requires own { IsPartOf catalog.now cube part.now }
    ensures axis { IfOk result (λ axis. axis
        ≡ record { non_empty = non_empty; tuples = listed catalog.now cube part.now.plan }) }
    ensures own { IfOk result (λ axis. AreTuplesOf catalog.now cube axis.tuples) }
{
    let tuples = tuples_of(alloc, catalog, cube, &part.plan)?;
    Ok(Axis { non_empty, tuples })
}

// The axis of the rows, where there are rows.
fn row_axis(
    alloc: Global,
    catalog: &Catalog,
    cube: CubeId,
    non_empty: bool,
    rows: &Option<Part>,
) -> Result<Option<Axis>, OutOfMemory>
    requires known { cube < length catalog.now.cubes }
    requires own { IfSome rows.now (IsPartOf catalog.now cube) }
    ensures axis { IfOk result (λ axis. axis ≡ option_map
        (λ part. record { non_empty = non_empty; tuples = listed catalog.now cube part.plan })
        rows.now) }
    ensures own { IfOk result
        (λ axis. IfSome axis (λ axis. AreTuplesOf catalog.now cube axis.tuples)) }
{
    match rows {
        None => Ok(None),
        Some(part) => {
            let axis = axis(alloc, catalog, cube, non_empty, part)?;
            Ok(Some(axis))
        }
    }
}
