//! What cells are worth, and what they are answered from, by what was found for them.
ghost use Rattle.std.specs.Prelude.{◌≡◌, ◌<◌, ◌++◌, ◌∷◌, [], All, IfOk, IsTrue, OnOk, Some, false, length, map, slice_get};
ghost use Rattle.std.specs.List.{list_all};
ghost use Rattle.olap_meaning.specs.Legal.{is_cell};
ghost use Rattle.olap_meaning.specs.Worth.{answered_version, worth};
ghost use Rattle.cache_manager.specs.Found.{IsExactBy, IsHit, IsPlaced, cells_of, loads_found, source_found, wants};
ghost use Rattle.cache_manager.specs.Rollups.{AreRolledUp, IsWorth};

use crate::findings::{Found, Hit};
use crate::look::sum;
use crate::rollups::Rollup;
use cache_flush::Kept;
use history_core::{Answered, CellSources, History};
use olap_meaning::{Cell, List, OutOfMemory};
use std::alloc::Global;

/// What a cell is worth, by its exact source.
fn exact_worth(history: &History, cell: &Cell, kept: &Kept) -> Answered
    requires known { IsTrue (is_cell history.now.setting.catalog cell.now) }
    requires exact { IsExactBy history.now.setting.catalog history.now.entries cell.now kept.now }
    ensures { IsWorth history.now.setting.catalog history.now.entries (kept.now.load ∷ [])
        cell.now result }
{
    let _entries = history.len();
    let _header = kept.body.header();
    Answered {
        value: kept.body.value(cell),
        version: kept.version,
    }
}

/// What is told at a place.
fn told_at(told: &[Answered], place: usize) -> Answered
    requires { place < length told.now }
    ensures { slice_get told.now place ≡ Some result }
{
    told[place]
}

/// What a cell is worth, by what was found for it.
fn answered(
    history: &History,
    hit: &Hit<'_, '_>,
    rollups: &[Rollup],
    rolled: &[List<Answered>],
) -> Answered
    requires known { IsTrue (is_cell history.now.setting.catalog hit.now.cell.now) }
    requires hit { IsHit history.now.setting.catalog history.now.entries rollups.now hit.now }
    requires served { wants hit.now ≡ false }
    requires rolled { AreRolledUp history.now.setting.catalog history.now.entries rollups.now
        rolled.now }
    ensures { IsWorth history.now.setting.catalog history.now.entries
        (loads_found rollups.now hit.now.found) hit.now.cell.now result }
{
    let _count = rollups.len();
    match hit.found {
        Found::Exact(kept) => exact_worth(history, hit.cell, kept),
        Found::Rolled { rollup, place } => told_at(rolled[rollup].as_slice(), place),
        Found::Nothing => unreachable!(),
    }
}

/// What cells are worth, by what was found for each.
pub(crate) fn all_answered(
    alloc: Global,
    history: &History,
    hits: &[Hit<'_, '_>],
    rollups: &[Rollup],
    rolled: &[List<Answered>],
) -> Result<List<Answered>, OutOfMemory>
    requires known { IsTrue
        (list_all (is_cell history.now.setting.catalog) (cells_of hits.now)) }
    requires hits { All
        (IsHit history.now.setting.catalog history.now.entries rollups.now) hits.now }
    requires served { All (λ hit. wants hit ≡ false) hits.now }
    requires rolled { AreRolledUp history.now.setting.catalog history.now.entries rollups.now
        rolled.now }
    ensures values { IfOk result (λ answered.
        map (worth history.now.setting.catalog history.now.entries)
        (map (source_found rollups.now) hits.now) ≡ map (λ one. Some one.value) answered) }
    ensures versions { IfOk result (λ answered.
        map (answered_version history.now.entries)
        (map (source_found rollups.now) hits.now) ≡ map (λ one. Some one.version) answered) }
{
    let mut all = Vec::with_capacity(alloc, hits.len())?;
    for hit in hits {
        all.push(answered(history, hit, rollups, rolled))?;
    }
    Ok(List::from_vec(all))
}

/// How many values some cells have together.
fn value_total(hits: &[Hit<'_, '_>]) -> Result<usize, OutOfMemory> {
    let mut total = 0;
    for hit in hits {
        total = sum(total, hit.cell.at.len())?;
    }
    Ok(total)
}

/// Adds a cell with the loads that were found for it.
fn add_source(
    sources: &mut CellSources,
    hit: &Hit<'_, '_>,
    rollups: &[Rollup],
) -> Result<(), OutOfMemory>
    requires served { wants hit.now ≡ false }
    requires placed { IsPlaced rollups.now hit.now.found }
    ensures { OnOk result
        (sources.new ≡ sources.old ++ source_found rollups.now hit.now ∷ []) }
{
    match hit.found {
        Found::Exact(kept) => sources.push(hit.cell, &[kept.load]),
        Found::Rolled { rollup, .. } => sources.push(hit.cell, rollups[rollup].loads.as_slice()),
        Found::Nothing => unreachable!(),
    }
}

/// What cells are answered from, by what was found for each. Each kind of cell and each list of loads is kept once.
pub(crate) fn all_sources(
    alloc: Global,
    hits: &[Hit<'_, '_>],
    rollups: &[Rollup],
) -> Result<CellSources, OutOfMemory>
    requires served { All (λ hit. wants hit ≡ false) hits.now }
    requires placed { All (λ hit. IsPlaced rollups.now hit.found) hits.now }
    ensures { IfOk result (λ sources. sources ≡ map (source_found rollups.now) hits.now) }
{
    let mut sources = CellSources::new(alloc);
    sources.reserve(hits.len(), value_total(hits)?)?;
    for hit in hits {
        add_source(&mut sources, hit, rollups)?;
    }
    Ok(sources)
}
