//! What passes of a run at whose link one call fails, held against the plain definition of a conversation: nothing is waited
//! for before all replies to the lines that came are sent, nothing is sent that is not due, and nothing passes after the end.
use crate::around::{Limits, depot, link};
use crate::case::Case;
use crate::content::bytes_of;
use crate::fields::items;
use crate::recorded::Passed;
use crate::run::carried_out;
use anyhow::{Result, bail};
use olap_server::{Tools, Words};
use outside::MemoryDepot;
use serde_json::Value;
use std::rt::Files;
use std::thread::Threads;

/// How many bytes a line has, with its end, and how many its reply.
#[derive(Clone, Copy)]
pub(crate) struct Turn {
    line: usize,
    reply: usize,
}

/// How many bytes were given and taken so far, and whether a receive or a send has failed.
#[derive(Clone, Copy)]
struct Heard {
    given: usize,
    taken: usize,
    failed: bool,
    cut: bool,
}

// A turn of a script.
fn turn_of(rt: &(impl Files + AllocGlobal), turn: &Value) -> Result<Turn> {
    let [line, reply] = items(turn)? else {
        bail!("a line and its reply are wanted");
    };
    Ok(Turn {
        line: bytes_of(rt, line)?.len(),
        reply: bytes_of(rt, reply)?.len(),
    })
}

/// The turns of a script.
pub(crate) fn turns_of(rt: &(impl Files + AllocGlobal), script: &Value) -> Result<Vec<Turn>> {
    let mut turns = Vec::new(rt.alloc());
    for turn in items(script)? {
        turns.push(turn_of(rt, turn)?)?;
    }
    Ok(turns)
}

// How many bytes of replies are due once this many bytes were given, and whether the session has ended by then.
fn due(turns: &[Turn], given: usize) -> (usize, bool) {
    let mut lines = 0_usize;
    let mut replies = 0_usize;
    for turn in turns {
        lines = lines.saturating_add(turn.line);
        if lines > given {
            return (replies, false);
        }
        replies = replies.saturating_add(turn.reply);
    }
    (replies, true)
}

// Whether something may be waited for: all that is due was sent, no receive has failed, and the session has not ended.
fn may_wait(turns: &[Turn], heard: &Heard) -> bool {
    let (replies, ended) = due(turns, heard.given);
    heard.taken == replies && !ended && !heard.failed
}

// Whether an event may come after what was heard. After a failed receive stands the line of the status, after a failed send
// nothing.
fn may_come(turns: &[Turn], heard: &Heard, event: Passed) -> bool {
    match event {
        _ if heard.cut => false,
        Passed::Gave(_) | Passed::Ended | Passed::GaveNot => may_wait(turns, heard),
        Passed::Took(size) => {
            heard.failed || heard.taken.saturating_add(size) <= due(turns, heard.given).0
        }
        Passed::TookNot(_) => true,
    }
}

// Adds an event to what was heard.
fn hear(heard: &mut Heard, event: Passed) {
    match event {
        Passed::Gave(size) => heard.given = heard.given.saturating_add(size),
        Passed::Took(size) => heard.taken = heard.taken.saturating_add(size),
        Passed::Ended => {}
        Passed::GaveNot => heard.failed = true,
        Passed::TookNot(_) => heard.cut = true,
    }
}

// Whether what has passed is a conversation.
fn is_conversation(turns: &[Turn], passed: &[Passed]) -> bool {
    let mut heard = Heard {
        given: 0,
        taken: 0,
        failed: false,
        cut: false,
    };
    for event in passed {
        if !may_come(turns, &heard, *event) {
            return false;
        }
        hear(&mut heard, *event);
    }
    heard.cut || heard.failed || heard.taken == due(turns, heard.given).0
}

// Whether a run over a depot is a conversation.
fn holds_over(
    rt: &(impl Files + AllocGlobal + Threads + Sync),
    tools: &Tools,
    object: &Value,
    words: &Words,
    depot: &mut MemoryDepot,
    turns: &[Turn],
    limits: Limits,
) -> Result<bool> {
    let mut link = link(rt, object, limits)?;
    let _outcome = carried_out(rt, tools, words, depot, &mut link);
    Ok(is_conversation(turns, link.passed()))
}

// Whether a run is a conversation.
fn holds(
    rt: &(impl Files + AllocGlobal + Threads + Sync),
    tools: &Tools,
    case: &Case<'_>,
    words: &Words,
    turns: &[Turn],
    limits: Limits,
) -> Result<bool> {
    let mut depot = depot(rt, case, None)?;
    holds_over(rt, tools, case.object, words, &mut depot, turns, limits)
}

// The limits of a run whose receive or send of these numbers fails.
fn failing(most: usize, read: Option<u64>, write: Option<u64>) -> Limits {
    Limits {
        most: Some(most),
        room: None,
        fetch: None,
        read,
        write,
    }
}

// Whether runs are conversations of which a receive or a send of this number fails.
fn both_hold(
    rt: &(impl Files + AllocGlobal + Threads + Sync),
    tools: &Tools,
    case: &Case<'_>,
    words: &Words,
    turns: &[Turn],
    most: usize,
    number: u64,
) -> Result<bool> {
    let read = failing(most, Some(number), None);
    let write = failing(most, None, Some(number));
    Ok(holds(rt, tools, case, words, turns, read)? && holds(rt, tools, case, words, turns, write)?)
}

// How many calls fail, one in each run.
const FAILING: u64 = 30;

/// Carries a case out for each of the first receives and sends, which fails, and says where what has passed is no
/// conversation.
pub(crate) fn first_fault(
    rt: &(impl Files + AllocGlobal + Threads + Sync),
    tools: &Tools,
    case: &Case<'_>,
    words: &Words,
    turns: &[Turn],
) -> Result<Option<String>> {
    for most in [7_usize, 60] {
        for number in 0..FAILING {
            if !both_hold(rt, tools, case, words, turns, most, number)? {
                let text = format!(in rt.alloc();
                    "cut {most}: no conversation where call {number} fails"
                )?;
                return Ok(Some(text));
            }
        }
    }
    Ok(None)
}
