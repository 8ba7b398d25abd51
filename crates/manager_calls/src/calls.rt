//! Whole runs of calls on one manager.
ghost use Rattle.std.specs.Prelude.{◌≡◌, ◌≤◌, ◌<◌, ◌+◌, ◌++◌, [], ℕ, All, IfOk, IsTrue, OnErr, OnOk, length, map};
ghost use Rattle.std.specs.List.{list_all};
ghost use Rattle.olap_meaning.specs.Legal.{Legal, is_cell, is_flushable};
ghost use Rattle.history_core.specs.History.{setting_of};
ghost use Rattle.fact_reader.specs.BodyRows.{is_batch};
ghost use Rattle.segment_header.specs.Widening.{Widened};
ghost use Rattle.cache_manager.specs.Jobs.{IsJobOf, apart};
ghost use Rattle.manager_calls.specs.Runs.{IsRun, IsStopped, MayCall, MayReply, MayReplyAll, MayStart, drop_of, ended, first_stage, next_stage, rows_delivered, rows_over, rows_tried, stage_after, stage_of};

use crate::looks::run_look;
use cache_manager::{LoadJob, Manager, laws, run_load};
use fact_versions::{AppendFault, Batch, Steps};
use history_core::{AggBuilt, Answer, Appended, CacheView};
use olap_catalog::Catalog;
use olap_meaning::{Cell, CubeId, Header, List, OutOfMemory, ROW_LIMIT, Region, Version, Who};
use segment_header::{AllowsValues, Widener};
use std::alloc::Global;
use std::sync::Arc;
use std::sync::ledger::Ledger;
use traces::Trace;

/// A call on a manager, by any seat.
#[derive(Drop)]
pub enum Call {
    Append {
        seat: u32,
        cube: CubeId,
        batch: Batch,
    },
    Look {
        seat: u32,
        cells: List<Cell>,
    },
    /// Runs a job that is out, by its place among them, and delivers what it has come to.
    Deliver {
        job: usize,
    },
    /// Gives a job up that is out, by its place among them.
    Abandon {
        job: usize,
    },
    Flush {
        seat: u32,
        region: Region,
    },
    Show {
        seat: u32,
    },
    /// Builds an aggregate table from the present version of its cube, and installs it.
    BuildAgg {
        seat: u32,
        table: u32,
    },
    /// Builds an aggregate table from a version of its cube, and installs it.
    Install {
        seat: u32,
        table: u32,
        version: Version,
    },
}

/// What a call is answered.
#[derive(Drop)]
pub enum Reply {
    Appended(Appended),
    Refused(AppendFault),
    /// The cells were answered, and then these loads were evicted, which contracts see.
    Ready(Answer, Trace<u64>),
    /// The jobs of a look are out: those of loads with these headers, which contracts see.
    Loading(Trace<Header>),
    /// The cells that have no source await these loads in flight.
    Waiting(List<u64>),
    /// A look was not made, since a job of the seat is out.
    Busy,
    /// The job was delivered or given up.
    Ended,
    /// No job has this place.
    NoJob,
    /// The position of the flush.
    Flushed(u64),
    Shown(CacheView),
    Built(AggBuilt),
    /// The position of the entry of a table.
    Installed(u64),
    /// The cube of a table has not reached the version.
    NotReached,
    OutOfMemory,
}

/// A manager after a list of calls, and what each was answered.
#[derive(Drop)]
pub struct Run {
    pub manager: Manager,
    pub replies: List<Reply>,
}

fn run_append(
    manager: &mut Manager,
    jobs: &[LoadJob],
    who: Who,
    cube: CubeId,
    batch: Batch,
) -> Reply
    requires run { IsRun manager.old jobs.now who.call }
    requires known { cube < length manager.old.setting.catalog.cubes }
    requires fit { IsTrue (is_batch manager.old.setting.catalog cube batch) }
    ensures run { IsRun manager.new jobs.now (who.call + 1) }
    ensures reply { MayReply (stage_of manager.old jobs.now who.call)
        (Call.Append who.seat cube batch) result }
    ensures next { stage_of manager.new jobs.now (who.call + 1)
        ≡ next_stage (stage_of manager.old jobs.now who.call)
        (Call.Append who.seat cube batch) result }
{
    let _out = jobs;
    laws::jobs_stay();
    match manager.append(who, cube, batch) {
        Ok(appended) => {
            manager.steps_are_legal();
            Reply::Appended(appended)
        }
        Err(fault) => Reply::Refused(fault),
    }
}

/// Runs a job that is out and delivers what it has come to; where there is no memory, the job stays out.
fn run_delivery<L: Ledger>(
    alloc: Global,
    manager: &mut Manager,
    jobs: &mut Vec<LoadJob>,
    job: usize,
    steps: &mut Steps<L>,
) -> Reply
    requires jobs { All (IsJobOf manager.old) jobs.old.items }
    ensures run { (n : ℕ) → IsRun manager.old jobs.old.items n
        → IsRun manager.new jobs.new.items (n + 1) }
    ensures reply { (n : ℕ)
        → MayReply (stage_of manager.old jobs.old.items n) (Call.Deliver job) result }
    ensures next { (n : ℕ) → stage_of manager.new jobs.new.items (n + 1)
        ≡ next_stage (stage_of manager.old jobs.old.items n) (Call.Deliver job) result }
    ensures at_least { (n : ℕ) → steps.old
        + rows_delivered (stage_of manager.old jobs.old.items n) (Call.Deliver job) result
        ≤ steps.new }
    ensures at_most { (n : ℕ) → steps.new ≤ steps.old
        + rows_tried (stage_of manager.old jobs.old.items n) (Call.Deliver job) result }
{
    if job >= jobs.len() {
        return Reply::NoJob;
    }
    laws::jobs_stay();
    laws::own_bodies();
    match run_load(alloc, jobs.remove(job), steps) {
        Ok(delivery) => {
            manager.deliver(delivery);
            manager.steps_are_legal();
            Reply::Ended
        }
        Err(back) => {
            jobs.insert(job, back).unwrap();
            Reply::OutOfMemory
        }
    }
}

/// Gives a job up that is out.
fn run_abandonment(manager: &mut Manager, jobs: &mut Vec<LoadJob>, job: usize) -> Reply
    requires jobs { All (IsJobOf manager.old) jobs.old.items }
    ensures run { (n : ℕ) → IsRun manager.old jobs.old.items n
        → IsRun manager.new jobs.new.items (n + 1) }
    ensures reply { (n : ℕ)
        → MayReply (stage_of manager.old jobs.old.items n) (Call.Abandon job) result }
    ensures next { (n : ℕ) → stage_of manager.new jobs.new.items (n + 1)
        ≡ next_stage (stage_of manager.old jobs.old.items n) (Call.Abandon job) result }
{
    if job >= jobs.len() {
        return Reply::NoJob;
    }
    laws::jobs_stay();
    manager.abandon(jobs.remove(job));
    manager.steps_are_legal();
    Reply::Ended
}

fn run_flush(manager: &mut Manager, jobs: &[LoadJob], who: Who, region: Region) -> Reply
    requires run { IsRun manager.old jobs.now who.call }
    requires flushable { IsTrue (is_flushable manager.old.setting.catalog region) }
    ensures run { IsRun manager.new jobs.now (who.call + 1) }
    ensures reply { MayReply (stage_of manager.old jobs.now who.call)
        (Call.Flush who.seat region) result }
    ensures next { stage_of manager.new jobs.now (who.call + 1)
        ≡ next_stage (stage_of manager.old jobs.now who.call)
        (Call.Flush who.seat region) result }
{
    let _out = jobs;
    laws::jobs_stay();
    match manager.flush(who, region) {
        Ok(position) => {
            manager.steps_are_legal();
            Reply::Flushed(position)
        }
        Err(OutOfMemory) => Reply::OutOfMemory,
    }
}

fn run_show(manager: &mut Manager, jobs: &[LoadJob], who: Who) -> Reply
    requires run { IsRun manager.old jobs.now who.call }
    ensures run { IsRun manager.new jobs.now (who.call + 1) }
    ensures reply { MayReply (stage_of manager.old jobs.now who.call) (Call.Show who.seat) result }
    ensures next { stage_of manager.new jobs.now (who.call + 1)
        ≡ next_stage (stage_of manager.old jobs.now who.call) (Call.Show who.seat) result }
{
    let _out = jobs;
    laws::jobs_stay();
    match manager.show(who) {
        Ok(view) => {
            manager.steps_are_legal();
            Reply::Shown(view)
        }
        Err(OutOfMemory) => Reply::OutOfMemory,
    }
}

fn run_build<L: Ledger>(
    manager: &mut Manager,
    jobs: &[LoadJob],
    who: Who,
    table: u32,
    steps: &mut Steps<L>,
) -> Reply
    requires run { IsRun manager.old jobs.now who.call }
    requires declared { table < length manager.old.setting.catalog.schema.aggregates }
    ensures run { IsRun manager.new jobs.now (who.call + 1) }
    ensures reply { MayReply (stage_of manager.old jobs.now who.call)
        (Call.BuildAgg who.seat table) result }
    ensures next { stage_of manager.new jobs.now (who.call + 1)
        ≡ next_stage (stage_of manager.old jobs.now who.call)
        (Call.BuildAgg who.seat table) result }
    ensures at_least { steps.old
        + rows_delivered (stage_of manager.old jobs.now who.call)
        (Call.BuildAgg who.seat table) result ≤ steps.new }
    ensures at_most { steps.new ≤ steps.old
        + rows_tried (stage_of manager.old jobs.now who.call)
        (Call.BuildAgg who.seat table) result }
{
    let _out = jobs;
    laws::jobs_stay();
    match manager.build_agg(who, table, steps) {
        Ok(built) => {
            manager.steps_are_legal();
            Reply::Built(built)
        }
        Err(OutOfMemory) => Reply::OutOfMemory,
    }
}

fn run_install<L: Ledger>(
    manager: &mut Manager,
    jobs: &[LoadJob],
    who: Who,
    table: u32,
    version: Version,
    steps: &mut Steps<L>,
) -> Reply
    requires run { IsRun manager.old jobs.now who.call }
    requires declared { table < length manager.old.setting.catalog.schema.aggregates }
    ensures run { IsRun manager.new jobs.now (who.call + 1) }
    ensures reply { MayReply (stage_of manager.old jobs.now who.call)
        (Call.Install who.seat table version) result }
    ensures next { stage_of manager.new jobs.now (who.call + 1)
        ≡ next_stage (stage_of manager.old jobs.now who.call)
        (Call.Install who.seat table version) result }
    ensures at_least { steps.old
        + rows_delivered (stage_of manager.old jobs.now who.call)
        (Call.Install who.seat table version) result ≤ steps.new }
    ensures at_most { steps.new ≤ steps.old
        + rows_tried (stage_of manager.old jobs.now who.call)
        (Call.Install who.seat table version) result }
{
    let _out = jobs;
    laws::jobs_stay();
    if version.0 > manager.table_version(table).0 {
        return Reply::NotReached;
    }
    let made = match manager.build(table, version, steps) {
        Ok(made) => made,
        Err(OutOfMemory) => return Reply::OutOfMemory,
    };
    match manager.install(who, made) {
        Ok(position) => {
            manager.steps_are_legal();
            Reply::Installed(position)
        }
        Err(OutOfMemory) => Reply::OutOfMemory,
    }
}

fn run_call<L: Ledger>(
    alloc: Global,
    manager: &mut Manager,
    jobs: &mut Vec<LoadJob>,
    number: u64,
    call: Call,
    widener: &Widener,
    steps: &mut Steps<L>,
) -> Reply
    requires run { IsRun manager.old jobs.old.items number }
    requires may { MayCall manager.old.setting.catalog call }
    ensures run { IsRun manager.new jobs.new.items (number + 1) }
    ensures reply { MayReply (stage_of manager.old jobs.old.items number) call result }
    ensures headers { MayStart (Widened (⟦<Widener as AllowsValues>⟧.answers widener.now))
        (stage_of manager.old jobs.old.items number) call result }
    ensures next { stage_of manager.new jobs.new.items (number + 1)
        ≡ next_stage (stage_of manager.old jobs.old.items number) call result }
    ensures at_least { steps.old
        + rows_delivered (stage_of manager.old jobs.old.items number) call result ≤ steps.new }
    ensures at_most { steps.new
        ≤ steps.old + rows_tried (stage_of manager.old jobs.old.items number) call result }
{
    match call {
        Call::Append { seat, cube, batch } => {
            let who = Who { seat, call: number };
            run_append(manager, jobs.as_slice(), who, cube, batch)
        }
        Call::Look { seat, cells } => {
            let who = Who { seat, call: number };
            run_look(manager, jobs, who, cells, widener)
        }
        Call::Deliver { job } => run_delivery(alloc, manager, jobs, job, steps),
        Call::Abandon { job } => run_abandonment(manager, jobs, job),
        Call::Flush { seat, region } => {
            let who = Who { seat, call: number };
            run_flush(manager, jobs.as_slice(), who, region)
        }
        Call::Show { seat } => {
            let who = Who { seat, call: number };
            run_show(manager, jobs.as_slice(), who)
        }
        Call::BuildAgg { seat, table } => {
            let who = Who { seat, call: number };
            run_build(manager, jobs.as_slice(), who, table, steps)
        }
        Call::Install {
            seat,
            table,
            version,
        } => {
            let who = Who { seat, call: number };
            run_install(manager, jobs.as_slice(), who, table, version, steps)
        }
    }
}

/// Runs calls, one after another, on a manager of its own. Each gets the next call number, whatever its seat. A job may
/// be delivered as late as wished, or never: the jobs that are out after the calls are abandoned, in their order. The loads of
/// looks have the headers that the widener allows.
///
/// The history after them is legal. It has just the entries that the calls and their replies give, one after another, and after
/// them the ends of the jobs that were out; and each reply has its cause where its call was made.
///
/// The steps are those of the loads that are delivered and of the tables that are built, and no others: each load takes what
/// it costs, and each table the rows of its version. One that there was no memory for takes this many at most. Where the run
/// itself stops for want of memory, that is so of the calls that were made.
pub fn run_calls<L: Ledger>(
    alloc: Global,
    catalog: Arc<Catalog>,
    row_limit: u32,
    budget: u64,
    calls: List<Call>,
    widener: &Widener,
    steps: &mut Steps<L>,
) -> Result<Run, OutOfMemory>
    requires limit { row_limit ≤ ROW_LIMIT }
    requires may { All (MayCall catalog.value) calls }
    ensures setting { IfOk result
        (λ run. run.manager.setting ≡ setting_of catalog.value row_limit budget) }
    ensures legal { IfOk result (λ run. Legal run.manager.setting run.manager.entries) }
    ensures replies { IfOk result
        (λ run. MayReplyAll (Widened (⟦<Widener as AllowsValues>⟧.answers widener.now))
        (first_stage (setting_of catalog.value row_limit budget)) calls run.replies) }
    ensures entries { IfOk result
        (λ run. run.manager
        ≡ ended (stage_after
        (first_stage (setting_of catalog.value row_limit budget)) calls run.replies)) }
    ensures at_least { IfOk result (λ run. steps.old
        + rows_over rows_delivered
        (first_stage (setting_of catalog.value row_limit budget)) calls run.replies
        ≤ steps.new) }
    ensures at_most { IfOk result (λ run. steps.new ≤ steps.old
        + rows_over rows_tried
        (first_stage (setting_of catalog.value row_limit budget)) calls run.replies) }
    ensures rise { steps.old ≤ steps.new }
    ensures stopped { OnErr result
        (IsStopped (Widened (⟦<Widener as AllowsValues>⟧.answers widener.now))
        (first_stage (setting_of catalog.value row_limit budget)) calls
        steps.old steps.new) }
{
    let mut manager = Manager::new(alloc, catalog, row_limit, budget)?;
    let replies = replies_to(alloc, &mut manager, calls, widener, steps)?;
    manager.steps_are_legal();
    Ok(Run { manager, replies })
}

// Abandons the jobs that are out, in their order.
fn abandon_all(manager: &mut Manager, jobs: Vec<LoadJob>)
    requires jobs { All (IsJobOf manager.old) jobs.items }
    requires different { IsTrue (apart (map (λ job. job.load) jobs.items)) }
    ensures setting { manager.new.setting ≡ manager.old.setting }
    ensures entries { manager.new.entries ≡ manager.old.entries ++ map drop_of jobs.items }
{
    laws::jobs_stay();
    let mut rest = jobs.into_iter();
    while let Some(job) = rest.next() {
        manager.abandon(job);
        manager.steps_are_legal();
    }
    rest.destroy_empty();
}

// Makes calls, one after another, and adds what each is answered. Tells whether there was memory for all.
fn make_calls<L: Ledger>(
    alloc: Global,
    manager: &mut Manager,
    jobs: &mut Vec<LoadJob>,
    replies: &mut List<Reply>,
    calls: List<Call>,
    widener: &Widener,
    steps: &mut Steps<L>,
) -> Result<(), OutOfMemory>
    requires none { manager.old ≡ record { setting = manager.old.setting; entries = [] } }
    requires no_jobs { jobs.old.items ≡ [] }
    requires no_replies { replies.old ≡ [] }
    requires may { All (MayCall manager.old.setting.catalog) calls }
    ensures setting { manager.new.setting ≡ manager.old.setting }
    ensures run { (n : ℕ) × IsRun manager.new jobs.new.items n }
    ensures replies { OnOk result
        (MayReplyAll (Widened (⟦<Widener as AllowsValues>⟧.answers widener.now))
        (first_stage manager.old.setting) calls replies.new) }
    ensures stage { OnOk result ((n : ℕ) × (stage_of manager.new jobs.new.items n
        ≡ stage_after (first_stage manager.old.setting) calls replies.new)) }
    ensures at_least { OnOk result (steps.old
        + rows_over rows_delivered (first_stage manager.old.setting) calls replies.new
        ≤ steps.new) }
    ensures at_most { OnOk result (steps.new ≤ steps.old
        + rows_over rows_tried (first_stage manager.old.setting) calls replies.new) }
    ensures rise { steps.old ≤ steps.new }
    ensures stopped { OnErr result
        (IsStopped (Widened (⟦<Widener as AllowsValues>⟧.answers widener.now))
        (first_stage manager.old.setting) calls steps.old steps.new) }
{
    let mut number = 1;
    for call in calls.into_vec() {
        replies.push(run_call(alloc, manager, jobs, number, call, widener, steps))?;
        number = next(number)?;
    }
    Ok(())
}

// Runs calls on a new manager.
fn replies_to<L: Ledger>(
    alloc: Global,
    manager: &mut Manager,
    calls: List<Call>,
    widener: &Widener,
    steps: &mut Steps<L>,
) -> Result<List<Reply>, OutOfMemory>
    requires none { manager.old ≡ record { setting = manager.old.setting; entries = [] } }
    requires may { All (MayCall manager.old.setting.catalog) calls }
    ensures setting { OnOk result (manager.new.setting ≡ manager.old.setting) }
    ensures replies { IfOk result
        (λ replies. MayReplyAll (Widened (⟦<Widener as AllowsValues>⟧.answers widener.now))
        (first_stage manager.old.setting) calls replies) }
    ensures entries { IfOk result
        (λ replies. manager.new
        ≡ ended (stage_after (first_stage manager.old.setting) calls replies)) }
    ensures at_least { IfOk result (λ replies. steps.old
        + rows_over rows_delivered (first_stage manager.old.setting) calls replies ≤ steps.new) }
    ensures at_most { IfOk result (λ replies. steps.new ≤ steps.old
        + rows_over rows_tried (first_stage manager.old.setting) calls replies) }
    ensures rise { steps.old ≤ steps.new }
    ensures stopped { OnErr result
        (IsStopped (Widened (⟦<Widener as AllowsValues>⟧.answers widener.now))
        (first_stage manager.old.setting) calls steps.old steps.new) }
{
    let mut jobs = Vec::new(alloc);
    let mut replies = List::new(alloc);
    let made = make_calls(
        alloc,
        manager,
        &mut jobs,
        &mut replies,
        calls,
        widener,
        steps,
    );
    abandon_all(manager, jobs);
    match made {
        Ok(()) => Ok(replies),
        Err(error) => Err(error),
    }
}

fn next(position: u64) -> Result<u64, OutOfMemory>
    ensures { IfOk result (λ next. next ≡ position + 1) }
{
    position.checked_add(1).ok_or(OutOfMemory)
}
