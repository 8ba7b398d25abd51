//! Runs of a case, and what differs from what is to come of it.
use crate::around::{Limits, depot, limits_of, link};
use crate::case::{Case, wanted_of, written_of};
use crate::difference::difference;
use crate::fields::{items, number};
use crate::outcome::{Outcome, outcome_of};
use crate::recorded::Recorded;
use anyhow::Result;
use olap_server::{Tools, Words, carry_out};
use outside::{MemoryDepot, MemoryLink};
use serde_json::Value;
use std::marker::Brand;
use std::rt::Files;
use std::sync::ledger::Blank;
use std::thread::Threads;

/// Carries words out over a depot and a link.
pub(crate) fn carried_out(
    rt: &(impl AllocGlobal + Threads + Sync),
    tools: &Tools,
    words: &Words,
    depot: &mut MemoryDepot,
    link: &mut Recorded<MemoryLink>,
) -> Outcome {
    let ended = carry_out::<_, _, Brand>(rt, rt.alloc(), words, depot, link, tools, Blank::new(1));
    outcome_of(&ended)
}

// What differs between what came of a case and what is to come of it.
fn compared(
    rt: &(impl Files + AllocGlobal),
    object: &Value,
    found: Outcome,
    taken: &[u8],
) -> Result<Option<String>> {
    let wanted = wanted_of(object)?;
    let written = written_of(rt, object)?;
    if found == wanted && taken == written.as_slice() {
        return Ok(None);
    }
    let text = difference(rt.alloc(), (found, taken), (wanted, written.as_slice()))?;
    Ok(Some(text))
}

// Carries a case out over a depot, and says what differs.
fn difference_over(
    rt: &(impl Files + AllocGlobal + Threads + Sync),
    tools: &Tools,
    case: &Case<'_>,
    words: &Words,
    depot: &mut MemoryDepot,
    limits: Limits,
) -> Result<Option<String>> {
    let mut link = link(rt, case.object, limits)?;
    let outcome = carried_out(rt, tools, words, depot, &mut link);
    compared(rt, case.object, outcome, link.link().output().taken())
}

// Carries a case out, where one read gives this many bytes at most, and says what differs.
fn difference_at(
    rt: &(impl Files + AllocGlobal + Threads + Sync),
    tools: &Tools,
    case: &Case<'_>,
    words: &Words,
    most: u64,
) -> Result<Option<String>> {
    let limits = limits_of(case.object, most)?;
    let mut depot = depot(rt, case, limits.fetch)?;
    difference_over(rt, tools, case, words, &mut depot, limits)
}

// The same, with what a read gives told before.
fn told_at(
    rt: &(impl Files + AllocGlobal + Threads + Sync),
    tools: &Tools,
    case: &Case<'_>,
    words: &Words,
    most: u64,
) -> Result<Option<String>> {
    match difference_at(rt, tools, case, words, most)? {
        Some(difference) => Ok(Some(format!(in rt.alloc(); "cut {most}: {difference}")?)),
        None => Ok(None),
    }
}

/// Carries a case out for each of its cuts, and says what differs at the first that differs.
pub(crate) fn first_difference(
    rt: &(impl Files + AllocGlobal + Threads + Sync),
    tools: &Tools,
    case: &Case<'_>,
    words: &Words,
) -> Result<Option<String>> {
    let Some(cuts) = case.object.get("cuts") else {
        return told_at(rt, tools, case, words, 0);
    };
    for most in items(cuts)? {
        let difference = told_at(rt, tools, case, words, number(most)?)?;
        if difference.is_some() {
            return Ok(difference);
        }
    }
    Ok(None)
}
