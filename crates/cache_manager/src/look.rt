//! Looking at cells: they are answered from the kept loads, or the loads that are missing are started.
ghost use Rattle.std.specs.Prelude.{ℕ, ◌≡◌, ◌<◌, ◌∷◌, ◌++◌, [], ◌+◌, All, Contains, IfOk, IsTrue, OnErr, OnOk, is_some, length, map, not};
ghost use Rattle.std.specs.List.{AllByRecursion as Each, list_all};
ghost use Rattle.olap_meaning.specs.History as history;
ghost use Rattle.olap_meaning.specs.Legal.{IsAnswered, has_source, is_cell, is_next_call, rise};
ghost use Rattle.history_core.specs.Answers.{AddsEvicting, HasSource, IsAnswer, SomeWants, Waits};
ghost use Rattle.cache_manager.specs.Looks.{IfLoad, IfReady, IfWait};
ghost use Rattle.history_core.specs.Groups as groups;
ghost use Rattle.cell_groups.specs.Lent.{lent};
ghost use Rattle.segment_header.specs.Widening.{Widened};
ghost use Rattle.cache_manager.specs.Jobs.{IsJobOf};
ghost use Rattle.history_core.specs.Seats.{SeatIsIdle};
ghost use Rattle.history_core.specs.Groups.{AreHeadersFor, awaited_loads, load_count, numbers_from, unawaited, wanted_of};
ghost use Rattle.olap_meaning.specs.Covering.{among};
ghost use Rattle.cache_manager.specs.Kept.{closing};
ghost use Rattle.cache_manager.specs.Plans.{ArePrepared, IsPrepared};

use crate::evictions::evict;
use crate::findings::Findings;
use crate::jobs::LoadJob;
use crate::manager::{Manager, room_for};
use crate::outcome::Look;
use crate::starts::{Flying, Planned, reserve_places, start_all};
use cache_flush::Shelf;
use cell_groups::{Group, group_cells, header_for};
use history_core::{Answer, CellSources, Entry};
use load_sharing::Flights;
use olap_meaning::{Cell, List, OutOfMemory, Who};
use segment_header::{AllowsValues, Widener, copy_cell, copy_header};
use segment_index::SegmentIndex;
use segment_load::SegmentLoad;
use std::sync::Arc;

pub(crate) fn sum(one: usize, other: usize) -> Result<usize, OutOfMemory>
    ensures { IfOk result (λ sum. sum ≡ one + other) }
{
    one.checked_add(other).ok_or(OutOfMemory)
}

/// How many entries history needs room for, once this many loads are started: those that close what flies and what is kept,
/// and of each of these loads the Start, the end and the eviction.
fn room_to_start(
    flights: &Flights,
    shelf: &SegmentIndex,
    starts: usize,
) -> Result<usize, OutOfMemory>
    ensures { IfOk result (λ room.
        room ≡ closing flights.now.flights shelf.now.loads + (starts + starts + starts)) }
{
    room_for(flights, shelf, sum(sum(starts, starts)?, starts)?)
}

pub(crate) fn next(position: u64) -> Result<u64, OutOfMemory>
    ensures { IfOk result (λ next. next ≡ position + 1) }
{
    position.checked_add(1).ok_or(OutOfMemory)
}

impl Manager {
    /// Answers cells, in their order, where each has a source; else it starts the loads that are missing, and hands out
    /// their jobs; or, where each cell without a source awaits a load in flight, it tells which loads are to be waited for. After
    /// these loads were delivered, and those of others that some of the cells await, and nothing was flushed or evicted, the next
    /// look at the cells is answered.
    /// A cell is taken from the load that is its exact source; where there is none, it is rolled up from loads with more
    /// columns.
    ///
    /// The cells that have neither a source nor a load that they await are grouped by measure and columns, in the order of their
    /// first cells; each group gives one load, which allows in each column what the widener answers for the values that the
    /// group's cells have there. After an answer the oldest kept loads are evicted, only as many as must be, while the kept
    /// loads have more groups than the budget.
    pub fn look(&mut self, who: Who, cells: &[Cell], widener: &Widener) -> Result<Look, OutOfMemory>
        requires call { IsTrue (is_next_call self.old.entries who) }
        requires known { IsTrue (list_all (is_cell self.old.setting.catalog) cells.now) }
        requires idle { SeatIsIdle self.old.entries who.seat }
        ensures setting { self.new.setting ≡ self.old.setting }
        ensures ready { IfReady result (λ answer. All (HasSource self.old) cells.now) }
        ensures answer { IfReady result (λ answer. IsAnswer self.old cells.now answer) }
        ensures answer_entries { IfReady result (λ answer.
            AddsEvicting self.old self.new (history.Answer who answer.sources.value)) }
        ensures load { IfLoad result (λ jobs. SomeWants self.old cells.now) }
        ensures headers { IfLoad result
            (λ jobs. AreHeadersFor (Widened (⟦<Widener as AllowsValues>⟧.answers widener.now))
            self.old.setting.catalog (wanted_of self.old cells.now)
            (map (λ job. job.header) jobs)) }
        ensures load_entries { IfLoad result
            (λ jobs. self.new.entries ≡ self.old.entries
            ++ map history.Start
            (groups.loads_with self.old who cells.now (map (λ job. job.header) jobs))) }
        ensures numbers { IfLoad result
            (λ jobs. map (λ job. job.load) jobs
            ≡ numbers_from (length self.old.entries + 1) (load_count self.old cells.now)) }
        ensures jobs { IfLoad result (λ jobs. All (IsJobOf self.new) jobs) }
        ensures wait { IfWait result (λ loads. Waits self.old cells.now loads) }
        ensures wait_unchanged { IfWait result (λ loads. self.new ≡ self.old) }
        ensures unchanged { OnErr result (self.new ≡ self.old) }
    {
        self.steps_are_legal();
        let findings = self.find(cells)?;
        match findings {
            Findings::Wanting(wanted) => self.start_or_wait(who, wanted.as_slice(), widener),
            Findings::Served(answered, sources) => {
                let sources = Arc::new(self.alloc, sources)?;
                let position = self.answer(who, Arc::try_clone(&sources)?)?;
                Ok(Look::Ready(Answer {
                    position,
                    cells: answered,
                    sources,
                }))
            }
        }
    }

    /// Starts the loads that are missing for some cells without a source, or tells which loads are to be waited for.
    fn start_or_wait(
        &mut self,
        who: Who,
        wanting: &[&Cell],
        widener: &Widener,
    ) -> Result<Look, OutOfMemory>
        requires known { IsTrue
            (list_all (is_cell self.old.setting.catalog) (lent wanting.now)) }
        requires unserved { IsTrue
            (list_all (λ cell. not (has_source self.old.setting.catalog self.old.entries cell))
            (lent wanting.now)) }
        ensures setting { self.new.setting ≡ self.old.setting }
        ensures ready { IfReady result (λ answer. ⊥) }
        ensures load { IfLoad result (λ jobs.
            0 < length (unawaited self.old.entries (lent wanting.now))) }
        ensures headers { IfLoad result
            (λ jobs. AreHeadersFor (Widened (⟦<Widener as AllowsValues>⟧.answers widener.now))
            self.old.setting.catalog (unawaited self.old.entries (lent wanting.now))
            (map (λ job. job.header) jobs)) }
        ensures load_entries { IfLoad result
            (λ jobs. self.new.entries ≡ self.old.entries
            ++ map history.Start (groups.loads_over self.old who
            (groups.firsts [] (unawaited self.old.entries (lent wanting.now)))
            (map (λ job. job.header) jobs))) }
        ensures numbers { IfLoad result
            (λ jobs. map (λ job. job.load) jobs
            ≡ numbers_from (length self.old.entries + 1)
            (length (groups.firsts [] (unawaited self.old.entries (lent wanting.now))))) }
        ensures jobs { IfLoad result (λ jobs. All (IsJobOf self.new) jobs) }
        ensures wait { IfWait result (λ loads.
            unawaited self.old.entries (lent wanting.now) ≡ []) }
        ensures rising { IfWait result (λ loads. IsTrue (rise loads)) }
        ensures own { IfWait result (λ loads. (load : ℕ) → among loads load
            ≡ among (awaited_loads self.old.entries (lent wanting.now)) load) }
        ensures wait_unchanged { IfWait result (λ loads. self.new ≡ self.old) }
        ensures unchanged { OnErr result (self.new ≡ self.old) }
    {
        let wanted = self.unawaited(wanting)?;
        if wanted.is_empty() {
            return Ok(Look::Wait(self.awaited_loads(wanting)?));
        }
        Ok(Look::Load(self.start(who, wanted.as_slice(), widener)?))
    }

    /// Writes down that cells are answered from their sources, and says where. Then it evicts the oldest kept loads, while the
    /// kept loads have more groups than the budget.
    fn answer(&mut self, who: Who, sources: Arc<CellSources>) -> Result<u64, OutOfMemory>
        requires call { IsTrue (is_next_call self.old.entries who) }
        requires sources { Each (IsAnswered self.old.setting self.old.entries) sources.value }
        ensures setting { self.new.setting ≡ self.old.setting }
        ensures position { IfOk result (λ position. position ≡ length self.old.entries + 1) }
        ensures entries { OnOk result
            (AddsEvicting self.old self.new (history.Answer who sources.value)) }
        ensures unchanged { OnErr result (self.new ≡ self.old) }
    {
        self.history.steps_are_legal();
        self.history
            .reserve(room_for(&self.flights, &self.shelf, 1)?)?;
        self.history.push(Entry::Answer {
            who,
            cells: sources,
        });
        let position = self.history.len();
        evict(&mut self.history, &mut self.shelf);
        self.history.steps_are_legal();
        Ok(position)
    }

    /// Prepares the load of a group of cells, which is to have this number.
    fn plan(
        &self,
        who: Who,
        load: u64,
        group: &Group<'_>,
        widener: &Widener,
    ) -> Result<Planned, OutOfMemory>
        requires known { IsTrue
            (list_all (is_cell self.now.setting.catalog) (lent group.now.cells.items)) }
        requires alike { IsTrue
            (list_all (groups.alike group.now.first.now) (lent group.now.cells.items)) }
        requires among { Contains (lent group.now.cells.items) group.now.first.now }
        ensures { IfOk result
            (λ planned. IsPrepared (Widened (⟦<Widener as AllowsValues>⟧.answers widener.now))
            self.now who (lent group.now.cells.items) load group.now.first.now planned) }
    {
        self.steps_are_legal();
        let header = header_for(self.alloc, self.catalog(), group, widener)?;
        let copy = copy_header(self.alloc, &header)?;
        let other = copy_header(self.alloc, &header)?;
        let snapshot = self.snapshot(group.first.cube)?;
        let version = snapshot.version();
        let catalog = Arc::try_clone(self.catalog())?;
        Ok(Planned {
            start: Entry::Start {
                who,
                header: copy,
                version,
                reason: copy_cell(self.alloc, group.first)?,
            },
            flight: Flying {
                load,
                who,
                header: other,
                version,
            },
            job: SegmentLoad::new(
                catalog,
                load,
                who,
                header,
                snapshot,
                self.installed.tables(),
            )?,
        })
    }

    /// Prepares the loads of the groups of some cells.
    fn plans(
        &self,
        who: Who,
        wanted: &[&Cell],
        widener: &Widener,
    ) -> Result<Vec<Planned>, OutOfMemory>
        requires known { IsTrue
            (list_all (is_cell self.now.setting.catalog) (lent wanted.now)) }
        ensures { IfOk result
            (λ plans. ArePrepared (Widened (⟦<Widener as AllowsValues>⟧.answers widener.now))
            self.now who (lent wanted.now) (length self.now.entries + 1)
            (groups.firsts [] (lent wanted.now)) plans.items) }
    {
        let groups = group_cells(self.alloc, self.catalog(), wanted)?;
        let mut plans = Vec::with_capacity(self.alloc, groups.len())?;
        let mut load = next(self.history.len())?;
        for group in groups.as_slice() {
            plans.push(self.plan(who, load, group, widener)?)?;
            load = next(load)?;
        }
        Ok(plans)
    }

    /// Starts the loads of the groups of some cells that have no source and await none.
    fn start(
        &mut self,
        who: Who,
        wanted: &[&Cell],
        widener: &Widener,
    ) -> Result<List<LoadJob>, OutOfMemory>
        requires known { IsTrue
            (list_all (is_cell self.old.setting.catalog) (lent wanted.now)) }
        requires unserved { IsTrue
            (list_all (λ cell. not (has_source self.old.setting.catalog self.old.entries cell))
            (lent wanted.now)) }
        requires unawaited { IsTrue
            (list_all (λ cell. not (is_some (history.awaited_load self.old.entries cell)))
            (lent wanted.now)) }
        ensures setting { self.new.setting ≡ self.old.setting }
        ensures headers { IfOk result
            (λ jobs. AreHeadersFor (Widened (⟦<Widener as AllowsValues>⟧.answers widener.now))
            self.old.setting.catalog (lent wanted.now) (map (λ job. job.header) jobs)) }
        ensures entries { IfOk result
            (λ jobs. self.new.entries ≡ self.old.entries
            ++ map history.Start (groups.loads_over self.old who
            (groups.firsts [] (lent wanted.now)) (map (λ job. job.header) jobs))) }
        ensures numbers { IfOk result
            (λ jobs. map (λ job. job.load) jobs
            ≡ numbers_from (length self.old.entries + 1)
            (length (groups.firsts [] (lent wanted.now)))) }
        ensures jobs { IfOk result (λ jobs. All (IsJobOf self.new) jobs) }
        ensures unchanged { OnErr result (self.new ≡ self.old) }
    {
        let plans = self.plans(who, wanted, widener)?;
        self.history.steps_are_legal();
        self.flights.reserve(plans.len())?;
        self.history
            .reserve(room_to_start(&self.flights, &self.shelf, plans.len())?)?;
        let mut jobs = Vec::with_capacity(self.alloc, plans.len())?;
        if let Err(error) = reserve_places(&mut self.shelf, plans.as_slice()) {
            jobs.destroy_empty();
            return Err(error);
        }
        let place = self.shelf.shut_list().len();
        start_all(
            &mut self.history,
            &mut self.flights,
            &mut jobs,
            plans,
            place,
        );
        Ok(List::from_vec(jobs))
    }
}
