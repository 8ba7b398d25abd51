//! Asking a manager for cells: the loads that are missing are run, one after another.
ghost use Rattle.std.specs.Prelude.{◌≡◌, ◌≤◌, ◌+◌, ◌++◌, ◌∷◌, [], All, IfOk, IsTrue, OnErr, OnOk, length, map, sum_by, true};
ghost use Rattle.std.specs.List.{list_all};
ghost use Rattle.olap_meaning.specs.History as history;
ghost use Rattle.olap_meaning.specs.Legal.{is_next_call, is_cell};
ghost use Rattle.segment_header.specs.Widening.{Widened};
ghost use Rattle.cache_manager.specs.Jobs.{IsJobOf, IsOwnBody, apart};
ghost use Rattle.history_core.specs.Answers.{AddsEvicting, HasSource, IsAnswer};
ghost use Rattle.history_core.specs.Seats.{NoneFlies};
ghost use Rattle.line_session.specs.Desks.{costs_after};
ghost use Rattle.manager_desk.specs.Ends.{AddsAnswer, AddsEnded, AreOut, EndsJobs, done_of, end_of};
ghost use Rattle.manager_desk.specs.Keeping.{IsCount};
ghost use Rattle.segment_load.specs.Loads.{job_cost};

use cache_manager::{LoadJob, Look, Manager, laws, run_load};
use fact_versions::Steps;
use history_core::Answer;
use olap_meaning::{Cell, List, OutOfMemory, Who};
use segment_header::{AllowsValues, Widener};
use std::alloc::Global;
use std::sync::ledger::Ledger;

/// Ends a load of seat 1: where no load failed before, it is run and delivered; else, and where memory runs out, it is
/// given up. Tells whether it was delivered, and counts what it cost if so.
fn end_load<L: Ledger>(
    alloc: Global,
    manager: &mut Manager,
    job: LoadJob,
    run: bool,
    steps: &mut Steps<L>,
    read: &mut u128,
) -> bool
    requires job { IsJobOf manager.old job }
    requires seat { job.who.seat ≡ 1 }
    requires count { IsCount manager.old.setting.catalog manager.old.entries read.old }
    ensures setting { manager.new.setting ≡ manager.old.setting }
    ensures entry { manager.new.entries ≡ manager.old.entries ++ end_of job result ∷ [] }
    ensures count { IsCount manager.old.setting.catalog manager.new.entries read.new }
    ensures failed { result ≡ true → run ≡ true }
    ensures cost { result ≡ true → steps.new ≡ steps.old + job_cost job }
    ensures at_least { steps.old ≤ steps.new }
    ensures at_most { steps.new ≤ steps.old + job_cost job }
{
    manager.steps_are_legal();
    laws::own_bodies();
    if !run {
        manager.abandon(job);
        return false;
    }
    let cost = job.cost();
    match run_load(alloc, job, steps) {
        Ok(delivery) => {
            let _entries = manager.history().len();
            manager.deliver(delivery);
            *read += u128::from(cost);
            true
        }
        Err(back) => {
            manager.abandon(back);
            false
        }
    }
}

/// Ends loads of seat 1, one after another: each is run and delivered, until one fails for want of memory; that one and
/// the rest are given up. Tells whether all were delivered.
fn end_loads<L: Ledger>(
    alloc: Global,
    manager: &mut Manager,
    jobs: List<LoadJob>,
    steps: &mut Steps<L>,
    read: &mut u128,
) -> bool
    requires jobs { All (IsJobOf manager.old) jobs }
    requires seats { All (λ job. job.who.seat ≡ 1) jobs }
    requires different { apart (map (λ job. job.load) jobs) ≡ true }
    requires complete { AreOut manager.old.entries jobs }
    requires count { IsCount manager.old.setting.catalog manager.old.entries read.old }
    ensures setting { manager.new.setting ≡ manager.old.setting }
    ensures ended { EndsJobs manager.old.entries manager.new.entries jobs }
    ensures closed { NoneFlies manager.new.entries }
    ensures delivered { result ≡ true → manager.new.entries ≡ manager.old.entries
        ++ map done_of jobs }
    ensures count { IsCount manager.old.setting.catalog manager.new.entries read.new }
    ensures cost { result ≡ true → steps.new ≡ steps.old + sum_by job_cost jobs }
    ensures at_least { steps.old ≤ steps.new }
    ensures at_most { steps.new ≤ steps.old + sum_by job_cost jobs }
{
    laws::jobs_stay();
    let mut run = true;
    let mut rest = jobs.into_vec().into_iter();
    while let Some(job) = rest.next() {
        run = end_load(alloc, manager, job, run, steps, read);
        manager.steps_are_legal();
    }
    rest.destroy_empty();
    run
}

/// Answers cells that have sources.
fn answer_ready(
    manager: &mut Manager,
    who: Who,
    cells: &[Cell],
    widener: &Widener,
) -> Result<Answer, OutOfMemory>
    requires call { IsTrue (is_next_call manager.old.entries who) }
    requires known { IsTrue (list_all (is_cell manager.old.setting.catalog) cells.now) }
    requires idle { NoneFlies manager.old.entries }
    requires ready { All (HasSource manager.old) cells.now }
    ensures setting { manager.new.setting ≡ manager.old.setting }
    ensures entries { IfOk result
        (λ answer. AddsEvicting manager.old manager.new
        (history.Answer who answer.sources.value)) }
    ensures answer { IfOk result (λ answer. IsAnswer manager.old cells.now answer) }
    ensures unchanged { OnErr result (manager.new ≡ manager.old) }
{
    match manager.look(who, cells, widener) {
        Ok(Look::Ready(answer)) => Ok(answer),
        Ok(Look::Load(_jobs)) => unreachable!(),
        Ok(Look::Wait(_loads)) => unreachable!(),
        Err(error) => Err(error),
    }
}

/// Answers cells, in their order. The loads that are missing are run and delivered first; where one fails for want of
/// memory, it and the rest are given up.
pub(crate) fn ask<L: Ledger>(
    alloc: Global,
    manager: &mut Manager,
    who: Who,
    cells: &[Cell],
    widener: &Widener,
    steps: &mut Steps<L>,
    read: &mut u128,
) -> Result<Answer, OutOfMemory>
    requires call { IsTrue (is_next_call manager.old.entries who) }
    requires seat { who.seat ≡ 1 }
    requires known { IsTrue (list_all (is_cell manager.old.setting.catalog) cells.now) }
    requires idle { NoneFlies manager.old.entries }
    requires count { IsCount manager.old.setting.catalog manager.old.entries read.old }
    ensures answered { IfOk result (AddsAnswer
        (Widened (⟦<Widener as AllowsValues>⟧.answers widener.now))
        manager.old manager.new who cells.now) }
    ensures refused { OnErr result (AddsEnded
        (Widened (⟦<Widener as AllowsValues>⟧.answers widener.now))
        manager.old manager.new who cells.now) }
    ensures idle { NoneFlies manager.new.entries }
    ensures count { IsCount manager.old.setting.catalog manager.new.entries read.new }
    ensures cost { OnOk result
        (steps.new ≡ steps.old + costs_after manager.old.setting.catalog 1 manager.old.entries manager.new.entries) }
    ensures at_least { steps.old ≤ steps.new }
    ensures at_most { steps.new
        ≤ steps.old + costs_after manager.old.setting.catalog 1 manager.old.entries manager.new.entries }
{
    manager.steps_are_legal();
    match manager.look(who, cells, widener)? {
        Look::Ready(answer) => Ok(answer),
        Look::Load(jobs) => {
            manager.steps_are_legal();
            if !end_loads(alloc, manager, jobs, steps, read) {
                return Err(OutOfMemory);
            }
            manager.steps_are_legal();
            laws::delivered_looks_are_ready();
            let answer = answer_ready(manager, who, cells, widener)?;
            Ok(answer)
        }
        Look::Wait(_loads) => unreachable!(),
    }
}
