//! Files of tables.
use crate::histories::History;
use crate::lines::{Wrong, is_remark, number, parts};
use crate::plays::told_calls;
use anyhow::Result;
use std::alloc::Global;
use std::rt::Files;

/// A table: its kind, what stands beside that, its name, and its lines.
#[derive(Clone, Copy)]
struct Table<'a> {
    kind: &'a str,
    rest: &'a str,
    name: &'a str,
    lines: &'a str,
}

// A table of a part of a file, after its first mark.
fn table_of(part: &str) -> Table<'_> {
    let (head, lines) = part.split_once('\n').unwrap_or((part, ""));
    let (kind, name) = head.split_once(": ").unwrap_or((head, ""));
    let (kind, rest) = kind.split_once(' ').unwrap_or((kind, ""));
    Table {
        kind,
        rest,
        name,
        lines,
    }
}

// The records in the head of a table of a history, and the budget after them: a word without slashes, or 100 where there
// is none.
fn records_and_budget(rest: &str) -> std::result::Result<(&str, u64), Wrong> {
    let (records, last) = rest.rsplit_once(' ').unwrap_or(("", rest));
    if last.is_empty() || last.contains('/') {
        return Ok((rest, 100));
    }
    Ok((records, u64::from(number(last)?)))
}

// The limit of rows in the head of a table of calls, and the budget after it, or 100 where there is none.
fn limit_and_budget(rest: &str) -> std::result::Result<(u32, u64), Wrong> {
    let (limit, budget) = rest.split_once(' ').unwrap_or((rest, "100"));
    Ok((number(limit)?, u64::from(number(budget)?)))
}

// What is said of each line of a table of calls.
fn told_table(
    rt: &(impl Files + AllocGlobal),
    table: Table<'_>,
) -> std::result::Result<String, Wrong> {
    let (limit, budget) = limit_and_budget(table.rest)?;
    told_calls(rt, limit, budget, table.lines)
}

// What is said of each line of a table of a history.
fn told_history(alloc: Global, table: Table<'_>) -> std::result::Result<String, Wrong> {
    let (records, budget) = records_and_budget(table.rest)?;
    let mut history = History::new(alloc, records, budget)?;
    history.told(alloc, table.lines)
}

// What is said of each line of a table, one line each; a remark has an empty one.
fn said_of(
    rt: &(impl Files + AllocGlobal),
    table: Table<'_>,
) -> std::result::Result<String, Wrong> {
    let alloc = rt.alloc();
    match table.kind {
        "history" => told_history(alloc, table),
        "calls" => told_table(rt, table),
        _ => Err(Wrong::Words("no kind of table")),
    }
}

// Adds what differs between a line and what is said of it.
fn add_difference(
    alloc: Global,
    text: &mut String,
    line: &str,
    said: &str,
) -> std::result::Result<(), Wrong> {
    let (asked, wanted) = parts(line);
    if !is_remark(line) && wanted != said {
        let difference = format!(in alloc; "{asked} => {said}, not {wanted}\n")?;
        text.push_str(difference.as_str())?;
    }
    Ok(())
}

// What differs between the lines of a table and what is said of them.
fn differences(alloc: Global, lines: &str, said: &str) -> std::result::Result<String, Wrong> {
    let mut text = String::new(alloc);
    for (line, said) in lines.lines().zip(said.lines()) {
        add_difference(alloc, &mut text, line, said)?;
    }
    Ok(text)
}

// What differs in a table.
fn difference(
    rt: &(impl Files + AllocGlobal),
    table: Table<'_>,
) -> std::result::Result<String, Wrong> {
    let said = said_of(rt, table)?;
    differences(rt.alloc(), table.lines, said.as_str())
}

// Writes the line of a table, or what differs in it.
fn write_table(
    rt: &impl Print,
    name: &str,
    difference: std::result::Result<&str, Wrong>,
) -> Result<()> {
    match difference {
        Ok("") => println!(rt; "ok {name}")?,
        Ok(text) => print!(rt; "{name}:\n{text}")?,
        Err(wrong) => println!(rt; "{name}: {}", wrong.text())?,
    }
    Ok(())
}

// Carries a table out, and writes what came of it.
fn tell_table(rt: &(impl Files + AllocGlobal + Print), table: Table<'_>) -> Result<()> {
    match difference(rt, table) {
        Ok(text) => write_table(rt, table.name, Ok(text.as_str())),
        Err(wrong) => write_table(rt, table.name, Err(wrong)),
    }
}

/// Carries the tables of a file out, and writes what came of each.
pub(crate) fn tell(rt: &(impl Files + AllocGlobal + Print), text: &str) -> Result<()> {
    for part in text.split("== ").skip(1) {
        tell_table(rt, table_of(part))?;
    }
    Ok(())
}
