//! Whoever a session asks for what it does: a seat at a cache.
ghost use Rattle.std.specs.Prelude.{◌≡◌, ◌≤◌, ◌<◌, ◌+◌, IfErr, IfOk, IsTrue, OnErr, OnOk, length};
ghost use Rattle.std.specs.List.{list_all};
ghost use Rattle.olap_meaning.specs.Legal.{Legal, is_cell, is_flushable};
ghost use Rattle.fact_reader.specs.BodyRows.{is_batch};
ghost use Rattle.segment_header.specs.Widening.{Widened};
ghost use Rattle.installed_tables.specs.Installed.{present_rows};
ghost use Rattle.line_session.specs.Desks.{AddsNone, DeskOf, HasAppended, HasAsked, HasBuilt, HasFlushed, HasReadFront, HasNotAppended, HasNotAsked, HasShown, IsIdle, costs_between};

use fact_versions::{AppendFault, Batch, Steps};
use history_core::{AggBuilt, Answer, Appended, CacheView, NotYet};
use olap_meaning::{Cell, CubeId, OutOfMemory, Region};
use segment_header::{AllowsValues, Widener};
use std::alloc::Global;
use std::sync::ledger::Ledger;

/// A seat at a cache, which numbers its calls itself. Others may have seats at the same cache, and add to its history.
pub trait Desk {
    // What the seat has seen of the cache, and the seat: known of every desk.
    ghost seen: { Self → DeskOf };

    /// What was seen is legal, and no load of the seat flies in it. This costs nothing.
    fn seen_is_legal(&self)
        ensures legal { Legal (seen self.now).cache.setting (seen self.now).cache.entries }
        ensures idle { IsIdle (seen self.now) };

    /// Answers cells, in their order. The loads that are missing, which allow what the widener answers, are run and
    /// delivered first; where there is no memory, those that were started are given up. It adds as many steps as the loads cost
    /// that it has started, and at most as many where there is no memory.
    fn ask<L: Ledger>(
        &mut self,
        alloc: Global,
        cells: &[Cell],
        widener: &Widener,
        steps: &mut Steps<L>,
    ) -> Result<Answer, OutOfMemory>
        requires known { IsTrue
            (list_all (is_cell (seen self.old).cache.setting.catalog) cells.now) }
        ensures asked { IfOk result (HasAsked
            (Widened (⟦<Widener as AllowsValues>⟧.answers widener.now))
            (seen self.old) (seen self.new) cells.now) }
        ensures refused { OnErr result (HasNotAsked
            (Widened (⟦<Widener as AllowsValues>⟧.answers widener.now))
            (seen self.old) (seen self.new) cells.now) }
        ensures cost { OnOk result
            (steps.new ≡ steps.old + costs_between (seen self.old) (seen self.new)) }
        ensures at_least { steps.old ≤ steps.new }
        ensures at_most { steps.new ≤ steps.old + costs_between (seen self.old) (seen self.new) };

    /// Adds a batch to a cube: it makes the cube's next version. A refused batch is dropped.
    fn append(&mut self, cube: CubeId, batch: Batch) -> Result<Appended, AppendFault>
        requires known { cube < length (seen self.old).cache.setting.catalog.cubes }
        requires fit { IsTrue (is_batch (seen self.old).cache.setting.catalog cube batch) }
        ensures appended { IfOk result
            (HasAppended (seen self.old) (seen self.new) cube batch.rows) }
        ensures refused { IfErr result
            (HasNotAppended (seen self.old) (seen self.new) cube batch.rows) };

    /// Flushes a region: no load that was started before serves the cells that it covers. Gives the position of the entry.
    /// Where there is no memory, nothing is flushed.
    fn flush(&mut self, region: Region) -> Result<u64, OutOfMemory>
        requires flushable { IsTrue
            (is_flushable (seen self.old).cache.setting.catalog region) }
        ensures flushed { IfOk result (HasFlushed (seen self.old) (seen self.new) region) }
        ensures refused { OnErr result (AddsNone (seen self.old) (seen self.new)) };

    /// Builds an aggregate table of the schema from the present version of its cube, for the loads that are started from then
    /// on, in place of an earlier one of its declaration. It adds as many steps as that version has rows, and at most as many
    /// where there is no memory; then nothing is built.
    fn build_agg<L: Ledger>(
        &mut self,
        table: u32,
        steps: &mut Steps<L>,
    ) -> Result<AggBuilt, OutOfMemory>
        requires declared { table
            < length (seen self.old).cache.setting.catalog.schema.aggregates }
        ensures built { IfOk result (HasBuilt (seen self.old) (seen self.new) table) }
        ensures refused { OnErr result (AddsNone (seen self.old) (seen self.new)) }
        ensures cost { OnOk result
            (steps.new ≡ steps.old + costs_between (seen self.old) (seen self.new)) }
        ensures at_least { steps.old ≤ steps.new }
        ensures at_most { OnErr result (steps.new ≤ steps.old
            + present_rows (seen self.old).cache.setting.catalog (seen self.new).cache.entries table) };

    /// Shows what is kept, as the look finds it: a line for each kept load, by rising number.
    fn show(&mut self) -> Result<CacheView, OutOfMemory>
        ensures shown { IfOk result (HasShown (seen self.old) (seen self.new)) }
        ensures refused { OnErr result (AddsNone (seen self.old) (seen self.new)) };

    /// Reads how many entries the cache has, and gives their number where there are this many. It takes no memory.
    fn after(&mut self, n: u64) -> Result<u64, NotYet>
        ensures front { IfOk result (HasReadFront (seen self.old) (seen self.new)) }
        ensures enough { IfOk result (λ front. n ≤ front) }
        ensures front_too { IfErr result
            (λ not_yet. HasReadFront (seen self.old) (seen self.new) not_yet.front) }
        ensures not_yet { IfErr result (λ not_yet. (not_yet.asked ≡ n) × (not_yet.front < n)) };
}
