//! What a look finds: each cell is looked for once, and what was found stands beside the cells.
ghost use Rattle.std.specs.Prelude.{◌≡◌, All, IfOk, IsTrue, None, OnOk, filter};
ghost use Rattle.std.specs.List.{list_all};
ghost use Rattle.olap_meaning.specs.History.{exact_source};
ghost use Rattle.olap_meaning.specs.Legal.{is_cell};
ghost use Rattle.cache_manager.specs.Found.{AreFindings, IsFirst, IsFound, IsHit, cells_of, wants};
ghost use Rattle.cell_groups.specs.Lent.{lent};
ghost use Rattle.cache_manager.specs.Rollups.{AreKept, GoOn, IsRollup, KeepFirsts};

use crate::answers::{all_answered, all_sources};
use crate::manager::Manager;
use crate::rollups::{Rollup, begin, join, roll_up, serving};
use cache_flush::{CacheShelf, Kept};
use history_core::{Answered, CellSources, History};
use olap_meaning::{Cell, List, OutOfMemory};
use rollup_plan::find_plan;
use segment_index::SegmentIndex;
use std::alloc::Global;

/// What was found for a cell.
#[derive(Clone, Copy)]
pub(crate) enum Found<'s> {
    /// Its exact source.
    Exact(&'s Kept),
    /// A rolled source: that of a rollup, of which it is the cell at a place.
    Rolled { rollup: usize, place: usize },
    /// It has no source.
    Nothing,
}

/// A cell, and what was found for it.
#[derive(Clone, Copy)]
pub(crate) struct Hit<'c, 's> {
    pub(crate) cell: &'c Cell,
    pub(crate) found: Found<'s>,
}

/// Cells with what was found for each, and the rollups of those that have a rolled source.
#[derive(Drop)]
pub(crate) struct Searched<'c, 's> {
    pub(crate) hits: Vec<Hit<'c, 's>>,
    pub(crate) rollups: Vec<Rollup>,
}

/// What a look finds of some cells.
#[derive(Drop)]
pub(crate) enum Findings<'a> {
    /// Those that have no source, in order. There are some.
    Wanting(Vec<&'a Cell>),
    /// What each is worth, and what it is answered from.
    Served(List<Answered>, CellSources),
}

/// Looks for a rolled source of a cell that has no exact one: that of a rollup of cells before it, where its loads serve the
/// cell, or else a new one.
fn find_rolled<'s>(
    alloc: Global,
    history: &History,
    shelf: &'s SegmentIndex,
    rollups: &mut Vec<Rollup>,
    cell: &Cell,
) -> Result<Found<'s>, OutOfMemory>
    requires kept { AreKept history.now.setting.catalog history.now.entries
        shelf.now.loads }
    requires known { IsTrue (is_cell history.now.setting.catalog cell.now) }
    requires unserved { exact_source history.now.entries cell.now ≡ None }
    requires rollups { All
        (IsRollup history.now.setting.catalog history.now.entries shelf.now.loads)
        rollups.old.items }
    ensures rollups { OnOk result (All
        (IsRollup history.now.setting.catalog history.now.entries shelf.entry.now.loads)
        rollups.new.items) }
    ensures goes_on { OnOk result (GoOn rollups.old.items rollups.new.items) }
    ensures firsts { OnOk result
        (KeepFirsts shelf.entry.now.loads rollups.old.items rollups.new.items) }
    ensures found { IfOk result
        (IsFound history.now.setting.catalog history.now.entries rollups.new.items cell.now) }
    ensures first { IfOk result
        (IsFirst shelf.entry.now.loads rollups.new.items cell.now) }
{
    if let Some(rollup) = serving(rollups.as_slice(), shelf, cell) {
        let place = join(alloc, rollups, rollup, cell)?;
        return Ok(Found::Rolled { rollup, place });
    }
    let candidates = shelf.candidates(cell)?;
    match find_plan(alloc, history.catalog(), cell, shelf, candidates.as_slice())? {
        None => Ok(Found::Nothing),
        Some(plan) => {
            let rollup = rollups.len();
            begin(alloc, rollups, plan, cell)?;
            Ok(Found::Rolled { rollup, place: 0 })
        }
    }
}

/// Looks for a source of a cell: its exact one, or else a rolled one.
fn find_cell<'s>(
    alloc: Global,
    history: &History,
    shelf: &'s SegmentIndex,
    rollups: &mut Vec<Rollup>,
    cell: &Cell,
) -> Result<Found<'s>, OutOfMemory>
    requires kept { AreKept history.now.setting.catalog history.now.entries
        shelf.now.loads }
    requires known { IsTrue (is_cell history.now.setting.catalog cell.now) }
    requires rollups { All
        (IsRollup history.now.setting.catalog history.now.entries shelf.now.loads)
        rollups.old.items }
    ensures rollups { OnOk result (All
        (IsRollup history.now.setting.catalog history.now.entries shelf.entry.now.loads)
        rollups.new.items) }
    ensures goes_on { OnOk result (GoOn rollups.old.items rollups.new.items) }
    ensures firsts { OnOk result
        (KeepFirsts shelf.entry.now.loads rollups.old.items rollups.new.items) }
    ensures found { IfOk result
        (IsFound history.now.setting.catalog history.now.entries rollups.new.items cell.now) }
    ensures first { IfOk result
        (IsFirst shelf.entry.now.loads rollups.new.items cell.now) }
{
    match shelf.find(cell) {
        Some(kept) => Ok(Found::Exact(kept)),
        None => find_rolled(alloc, history, shelf, rollups, cell),
    }
}

/// Looks for sources of cells.
fn look_for<'c, 's>(
    alloc: Global,
    history: &History,
    shelf: &'s SegmentIndex,
    cells: &'c [Cell],
) -> Result<Searched<'c, 's>, OutOfMemory>
    requires kept { AreKept history.now.setting.catalog history.now.entries
        shelf.now.loads }
    requires known { IsTrue (list_all (is_cell history.now.setting.catalog) cells.now) }
    ensures cells { IfOk result (λ searched. cells_of searched.hits.items ≡ cells.entry.now) }
    ensures hits { IfOk result (λ searched. All
        (IsHit history.now.setting.catalog history.now.entries searched.rollups.items)
        searched.hits.items) }
    ensures firsts { IfOk result (λ searched. All
        (λ hit. IsFirst shelf.entry.now.loads searched.rollups.items hit.cell.now hit.found)
        searched.hits.items) }
    ensures rollups { IfOk result (λ searched. All
        (IsRollup history.now.setting.catalog history.now.entries shelf.entry.now.loads)
        searched.rollups.items) }
{
    let mut hits = Vec::with_capacity(alloc, cells.len())?;
    let mut rollups = Vec::new(alloc);
    for cell in cells {
        let found = find_cell(alloc, history, shelf, &mut rollups, cell)?;
        hits.push(Hit { cell, found })?;
    }
    Ok(Searched { hits, rollups })
}

/// The cells for which nothing was found, in order.
fn wanting<'c>(alloc: Global, hits: &[Hit<'c, '_>]) -> Result<Vec<&'c Cell>, OutOfMemory>
    ensures { IfOk result (λ wanted. lent wanted.items ≡ cells_of (filter wants hits.now)) }
{
    let mut wanted = Vec::new(alloc);
    for hit in hits {
        if let Found::Nothing = hit.found {
            wanted.push(hit.cell)?;
        }
    }
    Ok(wanted)
}

impl Manager {
    /// Looks for cells: those that have no source, or where there are none, what each is worth and is answered from.
    pub(crate) fn find<'a>(&self, cells: &'a [Cell]) -> Result<Findings<'a>, OutOfMemory>
        requires known { IsTrue (list_all (is_cell self.now.setting.catalog) cells.now) }
        ensures { IfOk result (AreFindings self.now cells.entry.now) }
    {
        self.history.steps_are_legal();
        let found = look_for(self.alloc, &self.history, &self.shelf, cells)?;
        let wanted = wanting(self.alloc, &found.hits)?;
        if !wanted.is_empty() {
            return Ok(Findings::Wanting(wanted));
        }
        let rolled = roll_up(self.alloc, &self.history, &self.shelf, &found.rollups)?;
        Ok(Findings::Served(
            all_answered(
                self.alloc,
                &self.history,
                &found.hits,
                &found.rollups,
                &rolled,
            )?,
            all_sources(self.alloc, &found.hits, &found.rollups)?,
        ))
    }
}
