//! Grids read back. What is said of a text is the grid that shows each value plainly, or that it is no grid.
use crate::escapes::{add_bytes, bytes_of};
use anyhow::{Result, bail};
use grid_reader::{GridFault, read_grid};
use olap_meaning::{OutOfMemory, Text, plain_text};
use query_meaning::{Grid, GridRow};
use std::alloc::Global;

// Adds a row, with its values' plain texts.
fn add_row(alloc: Global, text: &mut String, row: &GridRow) -> Result<(), OutOfMemory> {
    text.push_str("R\t")?;
    text.push_str(row.title.as_str())?;
    for value in row.values.as_slice() {
        text.push_str("\t")?;
        text.push_str(plain_text(alloc, value)?.as_str())?;
    }
    text.push_str("\n")?;
    Ok(())
}

fn add_titles(alloc: Global, text: &mut String, titles: &[Text]) -> Result<(), OutOfMemory> {
    for title in titles {
        text.push_str(format!(in alloc; "C\t{title}\n")?.as_str())?;
    }
    Ok(())
}

fn add_rows(alloc: Global, text: &mut String, rows: &[GridRow]) -> Result<(), OutOfMemory> {
    for row in rows {
        add_row(alloc, text, row)?;
    }
    Ok(())
}

fn add_grid(alloc: Global, text: &mut String, grid: &Grid) -> Result<(), OutOfMemory> {
    let (columns, rows) = (grid.columns.as_slice(), grid.rows.as_slice());
    let head = format!(in alloc; "GRID {} {} {}\n", grid.position, columns.len(), rows.len())?;
    text.push_str(head.as_str())?;
    add_titles(alloc, text, columns)?;
    add_rows(alloc, text, rows)?;
    text.push_str(".\n")?;
    Ok(())
}

// Adds a grid in one line.
fn add_line(alloc: Global, said: &mut String, grid: &Grid) -> Result<()> {
    let mut text = String::new(alloc);
    match add_grid(alloc, &mut text, grid) {
        Ok(()) => Ok(add_bytes(alloc, said, text.as_str().as_bytes())?),
        Err(OutOfMemory) => bail!("no memory"),
    }
}

// Adds what is read of bytes.
fn add_read(alloc: Global, said: &mut String, bytes: &[u8]) -> Result<()> {
    match read_grid(alloc, bytes) {
        Ok(grid) => add_line(alloc, said, &grid),
        Err(GridFault::NotGrid) => Ok(said.push_str("no grid")?),
        Err(GridFault::OutOfMemory) => bail!("no memory"),
    }
}

/// Adds what is said of a text.
pub(crate) fn add_said(alloc: Global, said: &mut String, asked: &str) -> Result<()> {
    let bytes = bytes_of(alloc, asked)?;
    add_read(alloc, said, &bytes)
}
