//! Looks of a run.
ghost use Rattle.std.specs.Prelude.{◌≡◌, ◌≤◌, ◌+◌, ◌++◌, IsTrue, drop, filter_map, length, map, option_copied, option_map, option_to_list};
ghost use Rattle.std.specs.Option.{option_and_then};
ghost use Rattle.std.specs.Vec.{vec_capacity, vec_len};
ghost use Rattle.std.specs.List.{list_all};
ghost use Rattle.olap_meaning.specs.Legal.{is_cell};
ghost use Rattle.segment_header.specs.Widening.{Widened};
ghost use Rattle.history_core.specs.Entries.{entry_of};
ghost use Rattle.manager_calls.specs.Runs.{IsRun, MayReply, MayStart, evicted_load, next_stage, stage_of};

use crate::calls::{Call, Reply};
use cache_manager::{LoadJob, Look, Manager, laws};
use history_core::{Entry, History};
use olap_meaning::{Cell, Header, List, OutOfMemory, Who};
use segment_header::{AllowsValues, Widener};
use traces::Trace;

/// The headers of the loads of some jobs, for contracts.
fn headers_of(jobs: &[LoadJob]) -> Trace<Header>
    ensures { result.items ≡ map (λ job. job.header) jobs.now }
{
    let mut headers = Trace::new();
    for job in jobs {
        headers = headers.and(job.header());
    }
    headers
}

/// A trace with the load that an entry evicts, where it evicts one.
fn and_evicted(evicted: Trace<u64>, event: Option<&Entry>) -> Trace<u64>
    ensures { result.items ≡ evicted.items
        ++ option_to_list
        (option_and_then evicted_load (option_map entry_of (option_copied event.entry))) }
{
    match event {
        Some(Entry::Evict { load }) => evicted.and(load),
        _ => evicted,
    }
}

/// The loads that were evicted after a position, for contracts.
fn evicted_after(history: &History, position: u64) -> Trace<u64>
    requires { position ≤ length history.now.entries }
    ensures { result.items ≡ filter_map evicted_load (drop position history.now.entries) }
{
    let mut evicted = Trace::new();
    for place in position..history.len() {
        evicted = and_evicted(evicted, history.entry(place + 1));
    }
    evicted
}

/// Puts the jobs of a look beside those that are out.
fn put_out(jobs: &mut Vec<LoadJob>, started: List<LoadJob>)
    requires { vec_len jobs.old + length started ≤ vec_capacity jobs.old }
    ensures { jobs.new.items ≡ jobs.old.items ++ started }
{
    let mut started = started.into_vec();
    jobs.append(&mut started).unwrap();
    started.destroy_empty();
}

/// Makes a look, where no job of the seat is out.
pub(crate) fn run_look(
    manager: &mut Manager,
    jobs: &mut Vec<LoadJob>,
    who: Who,
    cells: List<Cell>,
    widener: &Widener,
) -> Reply
    requires run { IsRun manager.old jobs.old.items who.call }
    requires known { IsTrue (list_all (is_cell manager.old.setting.catalog) cells) }
    ensures run { IsRun manager.new jobs.new.items (who.call + 1) }
    ensures reply { MayReply (stage_of manager.old jobs.old.items who.call)
        (Call.Look who.seat cells) result }
    ensures headers { MayStart (Widened (⟦<Widener as AllowsValues>⟧.answers widener.now))
        (stage_of manager.old jobs.old.items who.call) (Call.Look who.seat cells) result }
    ensures next { stage_of manager.new jobs.new.items (who.call + 1)
        ≡ next_stage (stage_of manager.old jobs.old.items who.call)
        (Call.Look who.seat cells) result }
{
    laws::jobs_stay();
    if !manager.seat_is_idle(who.seat) {
        return Reply::Busy;
    }
    if jobs.reserve(cells.len()).is_err() {
        return Reply::OutOfMemory;
    }
    match manager.look(who, cells.as_slice(), widener) {
        Ok(Look::Ready(answer)) => {
            manager.steps_are_legal();
            let evicted = evicted_after(manager.history(), answer.position);
            Reply::Ready(answer, evicted)
        }
        Ok(Look::Load(started)) => {
            let headers = headers_of(started.as_slice());
            put_out(jobs, started);
            manager.steps_are_legal();
            Reply::Loading(headers)
        }
        Ok(Look::Wait(loads)) => Reply::Waiting(loads),
        Err(OutOfMemory) => Reply::OutOfMemory,
    }
}
