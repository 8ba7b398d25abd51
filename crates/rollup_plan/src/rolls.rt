//! The tallies of cells, rolled up from several loads.
ghost use Rattle.std.specs.Prelude.{◌≡◌, ◌≢◌, ◌≤◌, ◌<◌, ◌++◌, List, All, IfOk, IsTrue, Some, is_some, length, true};
ghost use Rattle.std.specs.List.{AllZip, list_all};
ghost use Rattle.std.specs.List.Sorted.{IsPermutation};
ghost use Rattle.olap_meaning.specs.declared.tables.Catalog.{Catalog};
ghost use Rattle.olap_meaning.specs.declared.tables.Row.{Row};
ghost use Rattle.olap_meaning.specs.Covering.{header_covers};
ghost use Rattle.segment_header.specs.Headers.{is_set};
ghost use Rattle.segment_body.specs.AllFolds.{are_alike, folded_numbers};
ghost use Rattle.cache_flush.specs.Loads.{kept_in};
ghost use Rattle.rollup_plan.specs.Plans.{kept_at};
ghost use Rattle.rollup_plan.specs.Rolls.{IsRolledUp, LieBehind, folds_at};

use crate::plan::{Part, Plan};
use cache_flush::{Kept, Shelf};
use measure_folds::Tally;
use olap_meaning::{Aggregator, Cell, ColumnId, List, OutOfMemory, ROW_LIMIT};
use segment_body::CellTallies;
use std::alloc::Global;

/// The kept load of a number that is on a shelf.
pub(crate) fn kept_load<S: Shelf>(shelf: &S, load: u64) -> &Kept
    requires { is_some (kept_at (S.loads shelf.now) load) ≡ true }
    ensures { kept_at (S.loads shelf.now) load
        ≡ Some (kept_in (S.flushed shelf.now) result.now) }
{
    match shelf.kept(load) {
        Some(kept) => kept,
        None => unreachable!(),
    }
}

// The tally of the rows in a cell from the bodies of some parts: of each body those that have in the split a value that is
// the part's own.
fn fold_parts<S: Shelf>(
    alloc: Global,
    aggregator: Aggregator,
    parts: &[Part],
    cell: &Cell,
    split: ColumnId,
    shelf: &S,
) -> Tally
    requires adds_up { aggregator ≢ Aggregator.DistinctCount }
    requires known { All
        (λ part. is_some (kept_at (S.loads shelf.now) part.load) ≡ true) parts.now }
    requires sets { All (λ part. IsTrue (is_set part.own)) parts.now }
    requires alike { All
        (λ fold. fold.body.aggregator ≡ aggregator) (folds_at (S.loads shelf.now) split parts.now) }
    requires room { length
        (folded_numbers cell.now (folds_at (S.loads shelf.now) split parts.now)) ≤ ROW_LIMIT }
    ensures aggregator { result.aggregator ≡ aggregator }
    ensures rows { IsPermutation
        (folded_numbers cell.now (folds_at (S.loads shelf.now) split parts.now)) result.values }
{
    let mut tally = Tally::new(alloc, aggregator);
    for i in 0..parts.len() {
        let planned = &parts[i];
        let kept = kept_load(shelf, planned.load);
        let part = kept.body.fold_within(cell, split, &planned.own);
        tally.merge(&part);
    }
    tally
}

/// The tally of the rows in a cell, rolled up from the loads of a plan: each value of the split is taken from the load
/// whose own it is. It takes no memory.
pub fn roll<S: Shelf>(alloc: Global, plan: &Plan, cell: &Cell, shelf: &S) -> Tally
    requires behind { (catalog : Catalog) × (rows : List Row)
        × LieBehind catalog cell.now (S.loads shelf.now) plan.now rows × (length rows ≤ ROW_LIMIT) }
    ensures rolled { (catalog : Catalog) (rows : List Row)
        → LieBehind catalog cell.now (S.loads shelf.now) plan.now rows
        → IsRolledUp catalog rows cell.now result }
{
    let parts = plan.parts.as_slice();
    let aggregator = kept_load(shelf, parts[0].load).body.aggregator();
    fold_parts(alloc, aggregator, parts, cell, plan.split, shelf)
}

// Folds of the bodies of some parts go into the tallies of cells.
fn fold_each<S: Shelf>(tallies: &mut CellTallies, parts: &[Part], split: ColumnId, shelf: &S)
    requires known { All
        (λ part. is_some (kept_at (S.loads shelf.now) part.load) ≡ true) parts.now }
    requires sets { All (λ part. IsTrue (is_set part.own)) parts.now }
    requires alike { All
        (λ fold. fold.body.aggregator ≡ tallies.old.aggregator)
        (folds_at (S.loads shelf.now) split parts.now) }
    requires covering { All
        (λ fold. IsTrue (list_all (header_covers fold.body.header) tallies.old.cells))
        (folds_at (S.loads shelf.now) split parts.now) }
    requires room { All
        (λ cell. length
        (folded_numbers cell (tallies.old.folds ++ folds_at (S.loads shelf.now) split parts.now))
        ≤ ROW_LIMIT) tallies.old.cells }
    ensures { tallies.new
        ≡ record tallies.old {
          folds = tallies.old.folds ++ folds_at (S.loads shelf.now) split parts.now;
        } }
{
    for i in 0..parts.len() {
        let part = &parts[i];
        let kept = kept_load(shelf, part.load);
        kept.body.fold_into(tallies, split, &part.own);
    }
}

/// The tallies of the rows in each of some cells of the same columns, rolled up from the loads of a plan, in one pass over
/// the groups of each load.
pub fn roll_all<S: Shelf>(
    alloc: Global,
    plan: &Plan,
    cells: &[Cell],
    shelf: &S,
) -> Result<List<Tally>, OutOfMemory>
    requires alike { IsTrue (are_alike cells.now) }
    requires behind { (catalog : Catalog) × (rows : List Row)
        × All (λ cell. LieBehind catalog cell (S.loads shelf.now) plan.now rows) cells.now
        × (length rows ≤ ROW_LIMIT) }
    ensures rolled { IfOk result (λ tallies. (catalog : Catalog) (rows : List Row)
        → All (λ cell. LieBehind catalog cell (S.loads shelf.now) plan.now rows) cells.now
        → AllZip (IsRolledUp catalog rows) cells.now tallies) }
{
    if cells.is_empty() {
        return Ok(List::new(alloc));
    }
    let parts = plan.parts.as_slice();
    let aggregator = kept_load(shelf, parts[0].load).body.aggregator();
    let mut tallies = CellTallies::new(alloc, aggregator, cells)?;
    fold_each(&mut tallies, parts, plan.split, shelf);
    tallies.tallies()
}
