//! Calls of many seats on one manager over the sample files.
//!
//! A line is a call: `append SEAT FILE`, `look SEAT CELL ..`, `flush SEAT TEXT`, `build SEAT TABLE`, `install SEAT TABLE
//! VERSION`, `show SEAT`, or `deliver JOB` or `abandon JOB` by the place of a job among those that are out. Cells are told
//! by their measure and columns, as `0:0=0,1=1`; the columns are year, quarter, state and city, and the values of each are
//! numbered from 0 by first appearance; the measures are the units, by their sum and by their count. The text of a flush has
//! no white space. What a load allows in a column is what the program's widener allows.
//!
//! Or it is a question about the history at the end: `entries` asks how many entries it has, `entry N` for one, and `sources
//! N` for what the cells of an answer are taken from.
ghost use Rattle.std.specs.Prelude.{◌≡◌, ◌≤◌, All, IfOk, IsTrue};
ghost use Rattle.segment_header.specs.Widening.{Serves, WidensPlainly, are_wanted};
ghost use Rattle.manager_calls.specs.Runs.{MayCall};

use crate::calls::call_of;
use crate::lines::{Wrong, is_remark, number, parts};
use crate::opened::catalog;
use crate::told::{told_entry, told_reply, told_sources};
use fact_versions::Steps;
use history_core::{Entry, History};
use manager_calls::{Call, Run, run_calls};
use olap_catalog::Catalog;
use olap_meaning::{Allowed, List, OutOfMemory, ROW_LIMIT, ValueId};
use segment_header::{Widener, Widening, plain_widener, widened_plainly};
use std::alloc::Global;
use std::marker::Brand;
use std::rt::Files;
use std::sync::Arc;
use std::sync::ledger::{Blank, Ledger};

// Whether a line asks about the history at the end.
fn is_question(asked: &str) -> bool {
    asked == "entries" || asked.starts_with("entry ") || asked.starts_with("sources ")
}

// Whether a line is a call.
fn is_call(line: &str) -> bool {
    !is_remark(line) && !is_question(parts(line).0)
}

// The lines of a table that are calls.
fn call_lines(alloc: Global, table: &str) -> Result<Vec<&str>, Wrong> {
    let mut lines = Vec::new(alloc);
    for line in table.lines() {
        if is_call(line) {
            lines.push(line)?;
        }
    }
    Ok(lines)
}

// The calls of lines.
fn calls_of(
    rt: &(impl Files + AllocGlobal),
    catalog: &Catalog,
    lines: &[&str],
) -> Result<List<Call>, Wrong>
    ensures { IfOk result (λ calls. All (MayCall catalog.now) calls) }
{
    let mut calls = List::new(rt.alloc());
    for line in lines {
        let call = call_of(rt, catalog, parts(line).0)?;
        let Ok(()) = calls.push(call) else {
            return Err(Wrong::OutOfMemory);
        };
    }
    Ok(calls)
}

fn run<L: Ledger>(
    alloc: Global,
    catalog: Arc<Catalog>,
    row_limit: u32,
    budget: u64,
    calls: List<Call>,
    widener: &Widener,
    blank: Blank,
) -> Result<Run, OutOfMemory>
    requires name { blank.name ≡ L.name }
    requires parts { blank.parts ≡ L.parts }
    requires one { blank.parts ≡ 1 }
    requires limit { row_limit ≤ ROW_LIMIT }
    requires may { All (MayCall catalog.value) calls }
{
    let mut steps: Steps<L> = Steps::new(blank);
    run_calls(
        alloc, catalog, row_limit, budget, calls, widener, &mut steps,
    )
}

// The run of the calls of a table.
fn run_of(
    rt: &(impl Files + AllocGlobal),
    row_limit: u32,
    budget: u64,
    table: &str,
    widener: &Widener,
) -> Result<Run, Wrong> {
    let catalog = catalog(rt)?;
    let lines = call_lines(rt.alloc(), table)?;
    let calls = calls_of(rt, &catalog, lines.as_slice())?;
    let row_limit = row_limit.min(ROW_LIMIT);
    match run::<Brand>(
        rt.alloc(),
        catalog,
        row_limit,
        budget,
        calls,
        widener,
        Blank::new(1),
    ) {
        Ok(run) => Ok(run),
        Err(_) => Err(Wrong::OutOfMemory),
    }
}

// What the cells of an answer are taken from.
fn sources(alloc: Global, history: &History, place: u32) -> Result<String, Wrong> {
    match history.entry(u64::from(place)) {
        Some(Entry::Answer { who: _, cells }) => Ok(told_sources(alloc, cells)?),
        _ => Err(Wrong::Words("no answer")),
    }
}

// What is said of the history at the end.
fn answered(alloc: Global, history: &History, asked: &str) -> Result<String, Wrong> {
    match asked.split_once(' ') {
        Some(("entry", place)) => {
            Ok(told_entry(alloc, history.entry(u64::from(number(place)?)))?)
        }
        Some((_, place)) => sources(alloc, history, number(place)?),
        None => Ok(format!(in alloc; "{}", history.len())?),
    }
}

// What is said of a line, where this many calls stand before it.
fn said(alloc: Global, run: &Run, before: usize, asked: &str) -> Result<String, Wrong> {
    if is_question(asked) {
        return answered(alloc, run.manager.history(), asked);
    }
    match run.replies.get(before) {
        Some(reply) => Ok(told_reply(alloc, reply)?),
        None => Err(Wrong::Words("no reply")),
    }
}

// Adds what is said of a line, or an empty line for a remark.
fn add_said(
    alloc: Global,
    text: &mut String,
    run: &Run,
    before: usize,
    line: &str,
) -> Result<(), Wrong> {
    if !is_remark(line) {
        text.push_str(said(alloc, run, before, parts(line).0)?.as_str())?;
    }
    Ok(text.push('\n')?)
}

// What is said of each line of a table.
fn told(alloc: Global, run: &Run, table: &str) -> Result<String, Wrong> {
    let mut text = String::new(alloc);
    let mut before: usize = 0;
    for line in table.lines() {
        add_said(alloc, &mut text, run, before, line)?;
        if is_call(line) {
            before = before.saturating_add(1);
        }
    }
    Ok(text)
}

/// What is said of each line of a table of calls, with a limit of rows and a budget of groups.
pub(crate) fn told_calls(
    rt: &(impl Files + AllocGlobal),
    row_limit: u32,
    budget: u64,
    table: &str,
) -> Result<String, Wrong> {
    let alloc = rt.alloc();
    let widen: Widening = Box::new(
        alloc,
        move |wanted: &[ValueId], count: u32| -> Result<Allowed, OutOfMemory>
            requires { IsTrue (are_wanted wanted.now count) }
            ensures plain { IfOk result (WidensPlainly wanted.now count) }
            ensures serves { IfOk result (Serves wanted.now count) }
        { widened_plainly(alloc, wanted, count) },
    )?;
    let widener = plain_widener(widen);
    let run = run_of(rt, row_limit, budget, table, &widener)?;
    told(alloc, &run, table)
}
