//! A seat over a manager that nobody else has.
ghost use Rattle.std.specs.Prelude.{◌≡◌, ◌≤◌, ◌<◌, ◌+◌, [], IfErr, IfNone, IfOk, IfSome, IsTrue, None, OnErr, OnOk, length, true};
ghost use Rattle.std.specs.List.{list_all};
ghost use Rattle.olap_meaning.specs.Legal.{Legal, is_cell, is_flushable};
ghost use Rattle.fact_reader.specs.BodyRows.{is_batch};
ghost use Rattle.installed_tables.specs.Installed.{present_rows};
ghost use Rattle.history_core.specs.Seats.{NoneFlies, entries_of};
ghost use Rattle.line_session.specs.Desks.{AddsNone, HasAppended, HasAsked, HasBuilt, HasFlushed, HasReadFront, HasNotAppended, HasNotAsked, HasShown, IsIdle, costs_between};
ghost use Rattle.manager_desk.specs.Delivered.{costs_delivered};

use crate::asking::ask;
use cache_manager::Manager;
use fact_versions::{AppendFault, Batch, Steps};
use history_core::{AggBuilt, Answer, Appended, CacheView, NotYet};
use line_session::Desk;
use olap_catalog::Catalog;
use olap_meaning::{Cell, CubeId, OutOfMemory, Region, Who};
use segment_header::Widener;
use std::alloc::Global;
use std::marker::Model;
use std::sync::Arc;
use std::sync::ledger::Ledger;

/// A seat over a manager that nobody else has: seat 1. It numbers its calls, and counts what the loads cost that it has
/// delivered.
#[derive(Drop)]
pub struct ManagerDesk {
    manager: Manager,
    last: u64,
    read: u128,
}

impl Model for ManagerDesk {
    ghost use Rattle.history_core.specs.Cache.{CacheOf};
    ghost use Rattle.manager_desk.specs.Keeping.{IsDesk};

    ghost Value = { CacheOf };

    ghost view = { λ a. a.manager };

    ghost invariant = { λ a. IsDesk a.manager.setting.catalog a.manager.entries a.last a.read };
}

/// The next call of seat 1, by the number of its last one; none where the numbers are used up.
fn next_call(last: u64) -> Option<Who>
    ensures next { IfSome result (λ who. who ≡ record { seat = 1; call = last + 1 }) }
    ensures used_up { IfNone result (last ≡ u64.MAX) }
{
    let call = last.checked_add(1)?;
    Some(Who { seat: 1, call })
}

impl ManagerDesk {
    /// A desk over a manager, in which seat 1 has done nothing yet.
    pub fn new(manager: Manager) -> ManagerDesk
        requires idle { NoneFlies manager.entries }
        requires unused { entries_of manager.entries 1 ≡ [] }
        ensures { result ≡ manager }
    {
        ManagerDesk {
            manager,
            last: 0,
            read: 0,
        }
    }

    /// What all the loads have cost that this desk has delivered: the rows and the groups that they have read.
    pub fn read(&self) -> u128
        ensures { result ≡ costs_delivered self.now.setting.catalog 1 self.now.entries }
    {
        self.read
    }

    /// The catalog, which never changes.
    pub fn catalog(&self) -> &Arc<Catalog>
        ensures { result.now.value ≡ self.now.setting.catalog }
    {
        self.manager.catalog()
    }

    /// Gives the manager back.
    pub fn into_manager(self) -> Manager
        ensures same { result ≡ self }
        ensures idle { NoneFlies result.entries }
    {
        self.manager
    }
}

impl Desk for ManagerDesk {
    ghost seen = { λ desk. record { cache = desk; seat = 1; alone = true; fronts = None } };

    fn seen_is_legal(&self) {
        self.manager.steps_are_legal();
    }

    fn ask<L: Ledger>(
        &mut self,
        alloc: Global,
        cells: &[Cell],
        widener: &Widener,
        steps: &mut Steps<L>,
    ) -> Result<Answer, OutOfMemory> {
        let Some(who) = next_call(self.last) else {
            return Err(OutOfMemory);
        };
        self.last = who.call;
        let answer = ask(
            alloc,
            &mut self.manager,
            who,
            cells,
            widener,
            steps,
            &mut self.read,
        )?;
        Ok(answer)
    }

    fn append(&mut self, cube: CubeId, batch: Batch) -> Result<Appended, AppendFault> {
        let Some(who) = next_call(self.last) else {
            return Err(AppendFault::OutOfMemory);
        };
        self.last = who.call;
        self.manager.steps_are_legal();
        let appended = self.manager.append(who, cube, batch)?;
        Ok(appended)
    }

    fn flush(&mut self, region: Region) -> Result<u64, OutOfMemory> {
        let Some(who) = next_call(self.last) else {
            return Err(OutOfMemory);
        };
        self.last = who.call;
        self.manager.steps_are_legal();
        let position = self.manager.flush(who, region)?;
        Ok(position)
    }

    fn build_agg<L: Ledger>(
        &mut self,
        table: u32,
        steps: &mut Steps<L>,
    ) -> Result<AggBuilt, OutOfMemory> {
        let Some(who) = next_call(self.last) else {
            return Err(OutOfMemory);
        };
        self.last = who.call;
        self.manager.steps_are_legal();
        let built = self.manager.build_agg(who, table, steps)?;
        Ok(built)
    }

    fn show(&mut self) -> Result<CacheView, OutOfMemory> {
        let Some(who) = next_call(self.last) else {
            return Err(OutOfMemory);
        };
        self.last = who.call;
        self.manager.steps_are_legal();
        let view = self.manager.show(who)?;
        Ok(view)
    }

    fn after(&mut self, n: u64) -> Result<u64, NotYet> {
        let front = self.manager.history().len();
        if n <= front {
            Ok(front)
        } else {
            Err(NotYet { asked: n, front })
        }
    }
}
