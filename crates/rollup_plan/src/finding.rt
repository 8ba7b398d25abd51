//! Which kept loads are rolled up to a cell.
ghost use Rattle.std.specs.Prelude.{◌≡◌, ◌<◌, ◌&&◌, All, Contains, IfOk, IfSome, IsTrue, Some, is_some, length, map, not, option_map, true};
ghost use Rattle.std.specs.List.{list_any};
ghost use Rattle.olap_meaning.specs.declared.tables.Measure.{Measure};
ghost use Rattle.olap_meaning.specs.Covering as covering;
ghost use Rattle.olap_meaning.specs.Legal.{is_cell};
ghost use Rattle.olap_meaning.specs.Rolled as rolled;
ghost use Rattle.olap_meaning.specs.Rolled.{adds_up, can_begin, can_roll, header_columns, value_count};
ghost use Rattle.olap_meaning.specs.Worth.{measure_of};
ghost use Rattle.cache_flush.specs.Loads.{kept_of};
ghost use Rattle.rollup_plan.specs.Picks as picks;
ghost use Rattle.rollup_plan.specs.Picks.{IsPicked, IsPickedFrom, bare, kin_splits, lent, splits_along};
ghost use Rattle.rollup_plan.specs.Plans.{IsPlanned, is_candidate_at, kept_at, offer_of, offers_at};

use crate::kinds::{kin_of, leave_kin, newest};
use crate::parts::parts_along;
use crate::plan::Plan;
use crate::rolls::kept_load;
use cache_flush::{Kept, Shelf, size_of};
use olap_catalog::Catalog;
use olap_meaning::{Aggregator, Cell, ColumnId, OutOfMemory};
use segment_header::names_column;
use std::alloc::Global;

// The plan of loads of one kind along a split.
fn plan_along(
    alloc: Global,
    catalog: &Catalog,
    cell: &Cell,
    kin: &[&Kept],
    split: ColumnId,
) -> Result<Option<Plan>, OutOfMemory>
    requires { All (λ one. Contains (header_columns one.body.header) split) (lent kin.now) }
    ensures found { IfOk result (λ found. is_some found
        ≡ splits_along (value_count catalog.now) cell.now (lent kin.now) split) }
    ensures plan { IfOk result (λ found. IfSome found (λ plan. (plan.split ≡ split)
        × IsPickedFrom (value_count catalog.now) cell.now (lent kin.now) plan)) }
{
    if names_column(cell, split) {
        return Ok(None);
    }
    match parts_along(alloc, kin, cell, split, size_of(catalog, split))? {
        None => Ok(None),
        Some(parts) => Ok(Some(Plan { split, parts })),
    }
}

// The plan of the loads of one kind: along the first of their columns along which they have one.
fn plan_of_kin(
    alloc: Global,
    catalog: &Catalog,
    cell: &Cell,
    first: &Kept,
    kin: &[&Kept],
) -> Result<Option<Plan>, OutOfMemory>
    requires { All (λ one. IsTrue (picks.are_kin (kept_of first.now) one)) (lent kin.now) }
    ensures found { IfOk result (λ found. is_some found
        ≡ kin_splits (value_count catalog.now) cell.now (kept_of first.now) (lent kin.now)) }
    ensures plan { IfOk result (λ found. IfSome found (λ plan.
        Contains (header_columns first.now.body.header) plan.split
        × IsPickedFrom (value_count catalog.now) cell.now (lent kin.now) plan)) }
{
    for own in first.body.header().columns.as_slice() {
        if let Some(plan) = plan_along(alloc, catalog, cell, kin, own.0)? {
            return Ok(Some(plan));
        }
    }
    Ok(None)
}

// The plan of some loads that cover a cell: that of the newest kind that has one.
fn plan_of(
    alloc: Global,
    catalog: &Catalog,
    cell: &Cell,
    kept: &[&Kept],
) -> Result<Option<Plan>, OutOfMemory>
    requires { All
        (λ one. IsTrue (covering.header_covers one.body.header cell.now)) (lent kept.now) }
    ensures found { IfOk result (λ found. is_some found
        ≡ picks.can_begin_some (value_count catalog.now) cell.now (lent kept.now)) }
    ensures plan { IfOk result (λ found.
        IfSome found (IsPicked (value_count catalog.now) cell.now (lent kept.now))) }
{
    let mut rest = Vec::from_slice(alloc, kept)?;
    'kinds: while !rest.is_empty() {
        let first = newest(rest.as_slice());
        let kin = kin_of(alloc, rest.as_slice(), first)?;
        if let Some(plan) = plan_of_kin(alloc, catalog, cell, first, kin.as_slice())? {
            return Ok(Some(plan));
        }
        leave_kin(&mut rest, first);
    }
    Ok(None)
}

// How the measure of a cell is summed up.
fn aggregator_of(catalog: &Catalog, cell: &Cell) -> Aggregator
    requires { IsTrue (is_cell catalog.now cell.now) }
    ensures { option_map (λ measure. measure.aggregator) (measure_of catalog.now cell.now)
        ≡ Some result }
{
    let cube = catalog.cube(cell.cube);
    cube.measures.as_slice()[usize::from(cell.measure.0)].aggregator
}

// Whether the aggregates of parts make that of the whole.
fn is_additive(aggregator: Aggregator) -> bool
    ensures { result ≡ adds_up aggregator }
{
    match aggregator {
        Aggregator::DistinctCount => false,
        _ => true,
    }
}

// The kept loads of some numbers, in their order.
fn kept_loads<'a, S: Shelf>(
    alloc: Global,
    shelf: &'a S,
    numbers: &[u64],
) -> Result<Vec<&'a Kept>, OutOfMemory>
    requires { All (λ number. is_some (kept_at (S.loads shelf.now) number) ≡ true) numbers.now }
    ensures { IfOk result (λ kept. map Some (lent kept.items)
        ≡ map (kept_at (bare (S.loads shelf.now))) numbers.now) }
{
    let mut kept = Vec::with_capacity(alloc, numbers.len())?;
    for number in numbers {
        kept.push(kept_load(shelf, *number))?;
    }
    Ok(kept)
}

// The plan of a cell whose measure is summed up in some way.
fn find_for<S: Shelf>(
    alloc: Global,
    catalog: &Catalog,
    cell: &Cell,
    shelf: &S,
    candidates: &[u64],
    aggregator: Aggregator,
) -> Result<Option<Plan>, OutOfMemory>
    requires { All
        (λ number. IsTrue (is_candidate_at (S.loads shelf.now) cell.now number)) candidates.now }
    ensures found { IfOk result (λ found. is_some found
        ≡ can_roll aggregator (value_count catalog.now) cell.now
        (offers_at (S.loads shelf.now) candidates.now)) }
    ensures planned { IfOk result (λ found. IfSome found (IsPlanned aggregator
        (value_count catalog.now) cell.now (S.loads shelf.now) candidates.now)) }
{
    if !is_additive(aggregator) {
        return Ok(None);
    }
    let kept = kept_loads(alloc, shelf, candidates)?;
    plan_of(alloc, catalog, cell, kept.as_slice())
}

/// Which of the kept loads that are candidates for a cell are rolled up to it, None exactly where none are. A plan takes
/// the newest version that can be rolled up.
pub fn find_plan<S: Shelf>(
    alloc: Global,
    catalog: &Catalog,
    cell: &Cell,
    shelf: &S,
    candidates: &[u64],
) -> Result<Option<Plan>, OutOfMemory>
    requires known { IsTrue (is_cell catalog.now cell.now) }
    requires candidates { All
        (λ number. IsTrue (is_candidate_at (S.loads shelf.now) cell.now number)) candidates.now }
    ensures found { (measure : Measure) → measure_of catalog.now cell.now ≡ Some measure
        → IfOk result (λ found. is_some found
        ≡ can_roll measure.aggregator (value_count catalog.now) cell.now
        (offers_at (S.loads shelf.now) candidates.now)) }
    ensures planned { (measure : Measure) → measure_of catalog.now cell.now ≡ Some measure
        → IfOk result (λ found. IfSome found (IsPlanned measure.aggregator
        (value_count catalog.now) cell.now (S.loads shelf.now) candidates.now)) }
{
    find_for(
        alloc,
        catalog,
        cell,
        shelf,
        candidates,
        aggregator_of(catalog, cell),
    )
}
