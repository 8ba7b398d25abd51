//! Groups of cases.
//!
//! A case file is a list of groups. A group has `files`, an object of contents by the names of the files in the depot, a
//! list of `cases`, and the `words` of those cases that name none.
use crate::case::{Case, Stored, add_files, words_of};
use crate::fields::{field, items, text};
use crate::run::first_difference;
use crate::talk::{first_fault, turns_of};
use anyhow::Result;
use olap_server::{Tools, Words};
use serde_json::Value;
use std::rt::Files;
use std::thread::Threads;

// Carries out the talks of a script, and says what is wrong with the first that is none.
fn fault_of_talk(
    rt: &(impl Files + AllocGlobal + Threads + Sync),
    tools: &Tools,
    case: &Case<'_>,
    words: &Words,
    script: &Value,
) -> Result<Option<String>> {
    let turns = turns_of(rt, script)?;
    first_fault(rt, tools, case, words, &turns)
}

// Carries a case out, and says what is wrong.
fn wrong(
    rt: &(impl Files + AllocGlobal + Threads + Sync),
    tools: &Tools,
    case: &Case<'_>,
    words: &Words,
) -> Result<Option<String>> {
    let difference = first_difference(rt, tools, case, words)?;
    match case.object.get("script") {
        Some(script) if difference.is_none() => fault_of_talk(rt, tools, case, words, script),
        _ => Ok(difference),
    }
}

// Writes the line of a case.
fn write_line(rt: &impl Print, name: &str, difference: Option<&str>) -> Result<()> {
    match difference {
        None => println!(rt; "ok {name}")?,
        Some(difference) => println!(rt; "{name}: {difference}")?,
    }
    Ok(())
}

// Carries a case out, and writes its line.
fn tell_case(
    rt: &(impl Files + AllocGlobal + Print + Threads + Sync),
    tools: &Tools,
    case: &Case<'_>,
) -> Result<()> {
    let name = text(field(case.object, "name")?)?;
    let words = words_of(rt.alloc(), case)?;
    let difference = wrong(rt, tools, case, &words)?;
    write_line(rt, name, difference.as_deref())
}

// Carries out the cases of a group over its files, and writes a line for each.
fn tell_cases(
    rt: &(impl Files + AllocGlobal + Print + Threads + Sync),
    tools: &Tools,
    files: &Stored,
    group: &Value,
) -> Result<()> {
    for object in items(field(group, "cases")?)? {
        let case = Case {
            object,
            words: group.get("words"),
            files,
        };
        tell_case(rt, tools, &case)?;
    }
    Ok(())
}

// The files of a group.
fn files_of(rt: &(impl Files + AllocGlobal), group: &Value) -> Result<Stored> {
    let mut files = Vec::new(rt.alloc());
    add_files(rt, &mut files, field(group, "files")?)?;
    Ok(files)
}

/// Carries out the cases of a group, and writes a line for each.
pub(crate) fn tell(
    rt: &(impl Files + AllocGlobal + Print + Threads + Sync),
    tools: &Tools,
    group: &Value,
) -> Result<()> {
    let files = files_of(rt, group)?;
    tell_cases(rt, tools, &files, group)
}
