//! Replies and entries, in words.
use history_core::{Answer, CacheView, CellSources, Entry};
use manager_calls::Reply;
use olap_meaning::{Allowed, Cell, Header, ValueId};
use std::alloc::{AllocError, Global};

// An answer: its position, and each cell's value and version.
fn told_answer(alloc: Global, answer: &Answer) -> Result<String, AllocError> {
    let mut text = format!(in alloc; "answer {}:", answer.position)?;
    for cell in answer.cells.as_slice() {
        let more = format!(in alloc; " {:?} of {}", cell.value, cell.version.0)?;
        text.push_str(more.as_str())?;
    }
    Ok(text)
}

/// Loads by rising number, with signs of addition between them.
pub(crate) fn told_loads(alloc: Global, loads: &[u64]) -> Result<String, AllocError> {
    let mut rising = Vec::from_slice(alloc, loads)?;
    rising.sort_unstable();
    let mut text = String::new(alloc);
    for load in rising.as_slice() {
        let between = if text.is_empty() { "" } else { "+" };
        text.push_str(format!(in alloc; "{between}{load}")?.as_str())?;
    }
    Ok(text)
}

/// The loads that each cell is taken from, by rising number.
pub(crate) fn told_sources(alloc: Global, cells: &CellSources) -> Result<String, AllocError> {
    let mut text = String::new(alloc);
    for place in 0..cells.len() {
        if place > 0 {
            text.push_str("; ")?;
        }
        if let Some(loads) = cells.loads_at(place) {
            text.push_str(told_loads(alloc, loads)?.as_str())?;
        }
    }
    Ok(text)
}

// Values, with signs of addition between them.
fn told_values(alloc: Global, values: &[ValueId]) -> Result<String, AllocError> {
    let mut text = String::new(alloc);
    for value in values {
        let between = if text.is_empty() { "" } else { "+" };
        text.push_str(format!(in alloc; "{between}{}", value.0)?.as_str())?;
    }
    Ok(text)
}

// What is allowed in a column.
fn told_allowed(alloc: Global, allowed: &Allowed) -> Result<String, AllocError> {
    match allowed {
        Allowed::Any => String::from_str(alloc, "*"),
        Allowed::Set(values) => told_values(alloc, values.as_slice()),
    }
}

// A header by its measure and what it allows in its columns: `0:0=0+1,1=*`.
fn told_header(alloc: Global, header: &Header) -> Result<String, AllocError> {
    let mut text = format!(in alloc; "{}:", header.measure.0)?;
    let mut between = "";
    for column in header.columns.as_slice() {
        let allowed = told_allowed(alloc, &column.1)?;
        text.push_str(format!(in alloc; "{between}{}={allowed}", column.0.0)?.as_str())?;
        between = ",";
    }
    Ok(text)
}

// A cell by its measure and its columns: `0:0=0,1=1`.
fn told_cell(alloc: Global, cell: &Cell) -> Result<String, AllocError> {
    let mut text = format!(in alloc; "{}:", cell.measure.0)?;
    let mut between = "";
    for pair in cell.at.as_slice() {
        text.push_str(format!(in alloc; "{between}{}={}", pair.0.0, pair.1.0)?.as_str())?;
        between = ",";
    }
    Ok(text)
}

// What is kept: the position, and of each load its number, version and header, and how many flushes touch it.
fn told_view(alloc: Global, view: &CacheView) -> Result<String, AllocError> {
    let mut text = format!(in alloc; "view {}:", view.position)?;
    for line in view.lines.as_slice() {
        let header = told_header(alloc, &line.header)?;
        let more = format!(in alloc;
            " load {} of version {} of {header}, {} flushes;",
            line.load, line.version.0, line.flushes
        )?;
        text.push_str(more.as_str())?;
    }
    Ok(text)
}

// A Start: what it loads, in which version, and for which cell.
fn told_start(
    alloc: Global,
    header: &Header,
    version: u32,
    reason: &Cell,
) -> Result<String, AllocError> {
    let header = told_header(alloc, header)?;
    let reason = told_cell(alloc, reason)?;
    format!(in alloc; "{header} of version {version} for {reason}")
}

// What stands in an entry beside its call.
fn told_numbers(alloc: Global, entry: &Entry) -> Result<String, AllocError> {
    match entry {
        Entry::Append {
            who: _,
            cube,
            version,
            batch,
        } => format!(in alloc;
            "cube {}, version {}, rows {}",
            cube.0,
            version.0,
            batch.len()
        ),
        Entry::Start {
            who: _,
            header,
            version,
            reason,
        } => told_start(alloc, header, version.0, reason),
        Entry::Agg {
            who: _,
            table,
            version,
        } => format!(in alloc; "table {table}, version {}", version.0),
        Entry::Flush { who: _, region } => {
            format!(in alloc; "cube {}, boxes {}", region.cube.0, region.boxes.len())
        }
        Entry::Done { who: _, load } => format!(in alloc; "load {load}"),
        Entry::Drop { who: _, load } => format!(in alloc; "load {load}"),
        Entry::Evict { load } => format!(in alloc; "load {load}"),
        Entry::Answer { who: _, cells } => format!(in alloc; "cells {}", cells.len()),
        Entry::Saw { who: _ } => String::from_str(alloc, "what is kept"),
    }
}

// The kind of an entry, and its call.
fn told_call(alloc: Global, entry: &Entry) -> Result<String, AllocError> {
    let (kind, who) = match entry {
        Entry::Append {
            who,
            cube: _,
            version: _,
            batch: _,
        } => ("append", who),
        Entry::Start {
            who,
            header: _,
            version: _,
            reason: _,
        } => ("start", who),
        Entry::Agg {
            who,
            table: _,
            version: _,
        } => ("aggregate", who),
        Entry::Flush { who, region: _ } => ("flush", who),
        Entry::Done { who, load: _ } => ("done", who),
        Entry::Drop { who, load: _ } => ("drop", who),
        Entry::Evict { load: _ } => return String::from_str(alloc, "evict"),
        Entry::Answer { who, cells: _ } => ("answer", who),
        Entry::Saw { who } => ("saw", who),
    };
    format!(in alloc; "{kind} {}/{}", who.seat, who.call)
}

/// An entry: its kind, its call by the seat and the number, and its numbers.
pub(crate) fn told_entry(alloc: Global, entry: Option<&Entry>) -> Result<String, AllocError> {
    let Some(entry) = entry else {
        return String::from_str(alloc, "nothing");
    };
    let call = told_call(alloc, entry)?;
    let numbers = told_numbers(alloc, entry)?;
    format!(in alloc; "{call}: {numbers}")
}

// The loads that a look waits for.
fn told_waiting(alloc: Global, loads: &[u64]) -> Result<String, AllocError> {
    let loads = told_loads(alloc, loads)?;
    format!(in alloc; "waiting for {loads}")
}

/// What a call of a list is answered.
pub(crate) fn told_reply(alloc: Global, reply: &Reply) -> Result<String, AllocError> {
    match reply {
        Reply::Appended(made) => {
            format!(in alloc; "version {} at {}", made.version.0, made.position)
        }
        Reply::Refused(fault) => fault.to_string(alloc),
        Reply::Ready(answer, _) => told_answer(alloc, answer),
        Reply::Flushed(position) => format!(in alloc; "entry {position}"),
        Reply::Shown(view) => told_view(alloc, view),
        Reply::Loading(_) => String::from_str(alloc, "loading"),
        Reply::Waiting(loads) => told_waiting(alloc, loads.as_slice()),
        Reply::Busy => String::from_str(alloc, "busy"),
        Reply::Ended => String::from_str(alloc, "ended"),
        Reply::NoJob => String::from_str(alloc, "no job"),
        Reply::Built(built) => format!(in alloc;
            "built {}: version {}, {} groups",
            built.position, built.version.0, built.groups
        ),
        Reply::Installed(position) => format!(in alloc; "installed at {position}"),
        Reply::NotReached => String::from_str(alloc, "not reached"),
        Reply::OutOfMemory => String::from_str(alloc, "no memory"),
    }
}
