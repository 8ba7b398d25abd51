//! Tables, and the lines that are written of them.
use crate::{grids, paths, sessions};
use anyhow::{Result, bail};
use std::alloc::Global;
use std::fs;
use std::rt::Files;

/// Whether what is said of a line is what is wanted. A line is written where it is not.
pub(crate) fn compared(
    rt: &impl Print,
    table: &str,
    asked: &str,
    said: &str,
    wanted: &str,
) -> Result<bool> {
    if said == wanted {
        return Ok(true);
    }
    println!(rt; "{table}: {asked} => {said}; wanted {wanted}")?;
    Ok(false)
}

/// What a line asks, and what is to be said.
pub(crate) fn parted(line: &str) -> Result<(&str, &str)> {
    match line.split_once(" => ") {
        Some(parts) => Ok(parts),
        None => bail!("a line without its answer"),
    }
}

// Adds what is said in a table of a kind.
fn add_said(alloc: Global, said: &mut String, kind: &str, asked: &str) -> Result<()> {
    match kind {
        "paths" => paths::add_said(alloc, said, asked),
        "grids" => grids::add_said(alloc, said, asked),
        _ => bail!("no table is of this kind"),
    }
}

// Whether a line comes out as it stands.
fn tell_line(rt: &(impl AllocGlobal + Print), table: &str, kind: &str, line: &str) -> Result<bool> {
    let (asked, wanted) = parted(line)?;
    let mut said = String::new(rt.alloc());
    add_said(rt.alloc(), &mut said, kind, asked)?;
    compared(rt, table, asked, said.as_str(), wanted)
}

// Whether each line comes out as it stands.
fn tell_lines(
    rt: &(impl AllocGlobal + Print),
    table: &str,
    kind: &str,
    lines: &str,
) -> Result<bool> {
    let mut same = true;
    for line in lines.lines() {
        same &= tell_line(rt, table, kind, line)?;
    }
    Ok(same)
}

// Whether each line of a table comes out as it stands.
fn tell(
    rt: &(impl Files + AllocGlobal + Print),
    table: &str,
    head: &str,
    lines: &str,
) -> Result<bool> {
    match head.strip_prefix("session ") {
        Some(setting) => sessions::tell(rt, table, setting, lines),
        None => tell_lines(rt, table, head, lines),
    }
}

// Tells a table.
fn tell_table(rt: &(impl Files + AllocGlobal + Print), table: &str, text: &str) -> Result<()> {
    let Some((head, lines)) = text.split_once('\n') else {
        bail!("a table without a line");
    };
    if tell(rt, table, head, lines)? {
        println!(rt; "ok {table}")?;
    }
    Ok(())
}

/// Tells the table of a file.
pub(crate) fn tell_file(rt: &(impl Files + AllocGlobal + Print), name: &str) -> Result<()> {
    let text = fs::read_to_string(rt, name)?;
    tell_table(rt, name, text.as_str())
}
