//! The objects in memory around a run.
use crate::case::{Case, Stored, add_files, input_of};
use crate::fields::number_at;
use crate::recorded::Recorded;
use anyhow::{Result, anyhow};
use olap_meaning::{List, OutOfMemory, Text};
use outside::{Calls, MemoryDepot, MemoryLink, MemorySink, MemorySource, Pair};
use serde_json::Value;
use std::alloc::Global;
use std::rt::Files;

/// The most bytes that a read gives, how many bytes the output takes, and the numbers of the calls that fail, each where one
/// is given.
#[derive(Clone, Copy)]
pub(crate) struct Limits {
    pub most: Option<usize>,
    pub room: Option<u64>,
    pub fetch: Option<u64>,
    pub read: Option<u64>,
    pub write: Option<u64>,
}

/// The limits of a case, where one read gives this many bytes at most, 0 for no limit.
pub(crate) fn limits_of(object: &Value, most: u64) -> Result<Limits> {
    Ok(Limits {
        most: if most == 0 { None } else { Some(most as usize) },
        room: number_at(object, "room")?,
        fetch: number_at(object, "fetch")?,
        read: number_at(object, "read")?,
        write: number_at(object, "write")?,
    })
}

fn no_memory(_fault: OutOfMemory) -> anyhow::Error {
    anyhow!("no memory")
}

// The plan by which the call of this number fails.
fn calls(alloc: Global, failing: Option<u64>) -> Result<Calls, OutOfMemory> {
    let mut numbers = List::new(alloc);
    if let Some(number) = failing {
        numbers.push(number)?;
    }
    Ok(Calls::failing(numbers))
}

fn copy(alloc: Global, bytes: &[u8]) -> Result<List<u8>, OutOfMemory> {
    Ok(List::from_vec(Vec::from_slice(alloc, bytes)?))
}

/// The files of a depot, as it holds them.
type Held = List<(Text, List<u8>)>;

// Adds a file to those that a depot is to hold.
fn hold_file(alloc: Global, held: &mut Held, name: &str, bytes: &[u8]) -> Result<(), OutOfMemory> {
    let name = Text::from_str(alloc, name)?;
    held.push((name, copy(alloc, bytes)?))
}

// Adds files to those that a depot is to hold.
fn hold(alloc: Global, held: &mut Held, files: &Stored) -> Result<(), OutOfMemory> {
    for (name, bytes) in files {
        hold_file(alloc, held, name.as_str(), bytes.as_slice())?;
    }
    Ok(())
}

// The files of a field, where there is one.
fn files_at(rt: &(impl Files + AllocGlobal), object: &Value, name: &str) -> Result<Stored> {
    let mut files = Vec::new(rt.alloc());
    if let Some(said) = object.get(name) {
        add_files(rt, &mut files, said)?;
    }
    Ok(files)
}

// Adds the files of a field to those that a depot is to hold.
fn hold_field(
    rt: &(impl Files + AllocGlobal),
    held: &mut Held,
    object: &Value,
    name: &str,
) -> Result<()> {
    let files = files_at(rt, object, name)?;
    hold(rt.alloc(), held, &files).map_err(no_memory)
}

// Adds the files of a case, its own or those of its group, and those beside them.
fn hold_case(rt: &(impl Files + AllocGlobal), held: &mut Held, case: &Case<'_>) -> Result<()> {
    if case.object.get("files").is_none() {
        hold(rt.alloc(), held, case.files).map_err(no_memory)?;
    }
    hold_field(rt, held, case.object, "files")?;
    hold_field(rt, held, case.object, "more")
}

// The files of a case, as a depot holds them.
fn held_of(rt: &(impl Files + AllocGlobal), case: &Case<'_>) -> Result<Held> {
    let mut held = List::new(rt.alloc());
    hold_case(rt, &mut held, case)?;
    Ok(held)
}

/// The depot of a case.
pub(crate) fn depot(
    rt: &(impl Files + AllocGlobal),
    case: &Case<'_>,
    failing: Option<u64>,
) -> Result<MemoryDepot> {
    let calls = calls(rt.alloc(), failing).map_err(no_memory)?;
    Ok(MemoryDepot::new(held_of(rt, case)?, calls))
}

// A source of these bytes.
fn source(alloc: Global, bytes: Vec<u8>, limits: Limits) -> Result<MemorySource, OutOfMemory> {
    let calls = calls(alloc, limits.read)?;
    Ok(MemorySource::new(List::from_vec(bytes), calls, None, limits.most))
}

// The most bytes that a sink takes for which no number is given: more than any case writes.
const ROOM: usize = 1_000_000;

// A sink with room for this many bytes, where a number is given.
fn sink(alloc: Global, limits: Limits) -> Result<MemorySink, OutOfMemory> {
    let room = match limits.room {
        Some(room) => (room as usize).min(ROOM),
        None => ROOM,
    };
    MemorySink::new(alloc, calls(alloc, limits.write)?, room)
}

// A link over which these bytes come.
fn link_over(alloc: Global, bytes: Vec<u8>, limits: Limits) -> Result<MemoryLink, OutOfMemory> {
    let input = source(alloc, bytes, limits)?;
    Ok(Pair::new(input, sink(alloc, limits)?))
}

/// The link of a case, which keeps what passes.
pub(crate) fn link(
    rt: &(impl Files + AllocGlobal),
    object: &Value,
    limits: Limits,
) -> Result<Recorded<MemoryLink>> {
    let input = input_of(rt, object)?;
    let link = link_over(rt.alloc(), input, limits).map_err(no_memory)?;
    Ok(Recorded::new(rt.alloc(), link))
}
