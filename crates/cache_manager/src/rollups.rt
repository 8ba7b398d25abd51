//! Rollups: cells that have no exact source and are rolled up together from kept loads.
ghost use Rattle.std.specs.Prelude.{ℕ, ◌≡◌, ◌≤◌, ◌<◌, ◌++◌, ◌∷◌, [], All, IfOk, OnOk, Some, length, slice_get};
ghost use Rattle.std.specs.List.{AllZip};
ghost use Rattle.cache_flush.specs.Loads.{KeptOf};
ghost use Rattle.rollup_plan.specs.Plans.{kept_at};
ghost use Rattle.cache_manager.specs.Rollups.{AreKept, AreRolledUp, first_serving, HasJoined, IsBegun, IsRollup, IsToldBy, IsWorth, planned};
ghost use Rattle.cache_manager.specs.Rollups as rollups;
ghost use Rattle.cache_manager.specs.declared.rollups.Rollup.{Rollup as RollupOf};

use crate::alike::are_alike;
use cache_flush::Shelf;
use fact_reader::laws::rows_are_valued;
use history_core::{Answered, History};
use measure_folds::Tally;
use olap_meaning::{Cell, List, OutOfMemory, ROW_LIMIT, Version};
use rollup_plan::{Plan, roll_all};
use segment_header::copy_cell;
use segment_index::SegmentIndex;
use std::alloc::Global;

/// Cells that are rolled up from the same loads, by one plan.
#[derive(Drop)]
pub(crate) struct Rollup {
    pub(crate) plan: Plan,
    pub(crate) loads: Vec<u64>,
    pub(crate) cells: Vec<Cell>,
}

/// Whether a cell may be rolled up by the plan of a rollup.
fn may_join(rollup: &Rollup, shelf: &SegmentIndex, cell: &Cell) -> bool
    ensures { result ≡ rollups.may_join shelf.now.loads cell.now rollup.now }
{
    match rollup.cells.first() {
        None => false,
        Some(first) => are_alike(first, cell) && rollup.plan.serves(cell, shelf),
    }
}

/// The first of some rollups by whose plan a cell may be rolled up.
pub(crate) fn serving(rollups: &[Rollup], shelf: &SegmentIndex, cell: &Cell) -> Option<usize>
    ensures { result ≡ first_serving shelf.now.loads rollups.now cell.now }
{
    rollups
        .iter()
        .position(|rollup| may_join(rollup, shelf, cell))
}

/// Adds a cell to a rollup, and tells its place there.
pub(crate) fn join(
    alloc: Global,
    rollups: &mut Vec<Rollup>,
    number: usize,
    cell: &Cell,
) -> Result<usize, OutOfMemory>
    requires { number < length rollups.old.items }
    ensures { IfOk result
        (λ place. HasJoined rollups.old.items rollups.new.items number place cell.now) }
{
    let rollup = &mut rollups[number];
    let place = rollup.cells.len();
    rollup.cells.push(copy_cell(alloc, cell)?)?;
    Ok(place)
}

/// The loads of a plan, in its order.
fn loads_of(alloc: Global, plan: &Plan) -> Result<Vec<u64>, OutOfMemory>
    ensures { IfOk result (λ loads. loads.items ≡ planned plan.now) }
{
    let mut loads = Vec::with_capacity(alloc, plan.parts.len())?;
    for part in plan.parts.as_slice() {
        loads.push(part.load)?;
    }
    Ok(loads)
}

/// Begins a rollup by a plan for a cell, which is its first.
pub(crate) fn begin(
    alloc: Global,
    rollups: &mut Vec<Rollup>,
    plan: Plan,
    cell: &Cell,
) -> Result<(), OutOfMemory>
    ensures { OnOk result ((rollup : RollupOf)
        × (rollups.new.items ≡ rollups.old.items ++ rollup ∷ [])
        × IsBegun plan cell.now rollup) }
{
    let loads = loads_of(alloc, &plan)?;
    let mut cells = Vec::new(alloc);
    cells.push(copy_cell(alloc, cell)?)?;
    rollups.push(Rollup { plan, loads, cells })?;
    Ok(())
}

/// The version of the loads of a rollup.
fn version_of(rollup: &Rollup, shelf: &SegmentIndex) -> Version
    requires { (first : ℕ) × (kept : KeptOf) × (slice_get rollup.now.loads.items 0 ≡ Some first)
        × (kept_at shelf.now.loads first ≡ Some kept) }
    ensures { (first : ℕ) (kept : KeptOf) → slice_get rollup.now.loads.items 0 ≡ Some first
        → kept_at shelf.now.loads first ≡ Some kept → result ≡ kept.version }
{
    shelf.kept(rollup.loads[0]).unwrap().version
}

/// What tallies over the rows of a version are worth.
fn worth_of(
    alloc: Global,
    tallies: &[Tally],
    version: Version,
) -> Result<List<Answered>, OutOfMemory>
    ensures { IfOk result
        (λ answered. AllZip (IsToldBy version) tallies.now answered) }
{
    let mut answered = Vec::with_capacity(alloc, tallies.len())?;
    for tally in tallies {
        answered.push(Answered {
            value: tally.finish(),
            version,
        })?;
    }
    Ok(List::from_vec(answered))
}

/// What the cells of a rollup are worth.
fn roll(
    alloc: Global,
    history: &History,
    shelf: &SegmentIndex,
    rollup: &Rollup,
) -> Result<List<Answered>, OutOfMemory>
    requires kept { AreKept history.now.setting.catalog history.now.entries shelf.now.loads }
    requires limit { history.now.setting.row_limit ≤ ROW_LIMIT }
    requires rollup { IsRollup history.now.setting.catalog history.now.entries shelf.now.loads
        rollup.now }
    ensures { IfOk result (AllZip
        (IsWorth history.now.setting.catalog history.now.entries rollup.now.loads.items)
        rollup.now.cells.items) }
{
    history.steps_are_legal();
    rows_are_valued(history.catalog());
    let tallies = roll_all(alloc, &rollup.plan, rollup.cells.as_slice(), shelf)?;
    worth_of(alloc, tallies.as_slice(), version_of(rollup, shelf))
}

/// What the cells of rollups are worth.
pub(crate) fn roll_up(
    alloc: Global,
    history: &History,
    shelf: &SegmentIndex,
    rollups: &[Rollup],
) -> Result<Vec<List<Answered>>, OutOfMemory>
    requires kept { AreKept history.now.setting.catalog history.now.entries shelf.now.loads }
    requires limit { history.now.setting.row_limit ≤ ROW_LIMIT }
    requires rollups { All
        (IsRollup history.now.setting.catalog history.now.entries shelf.now.loads)
        rollups.now }
    ensures { IfOk result
        (λ rolled. AreRolledUp history.now.setting.catalog history.now.entries rollups.now
        rolled.items) }
{
    let mut rolled = Vec::with_capacity(alloc, rollups.len())?;
    for rollup in rollups {
        rolled.push(roll(alloc, history, shelf, rollup)?)?;
    }
    Ok(rolled)
}
