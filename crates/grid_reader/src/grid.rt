//! Grids read back.
ghost use Rattle.std.specs.Prelude.{◌≡◌, ◌⊎◌, IfOk, IfErr, map};
ghost use Rattle.query_meaning.specs.GridForm.{IsOfGrid};
ghost use Rattle.grid_reader.specs.Lines.{AreGridLines, IsInnerOf};
ghost use Rattle.grid_reader.specs.Reading.{ReadsAs};

use crate::columns::read_columns;
use crate::fault::GridFault;
use crate::head::Head;
use crate::numbers::read_head;
use crate::parting::parted;
use crate::rows::read_rows;
use olap_meaning::OutOfMemory;
use query_meaning::Grid;
use std::alloc::Global;

// The grid with these numbers, by the lines of its columns and rows.
fn read_inner(alloc: Global, head: Head, lines: &[&[u8]]) -> Result<Option<Grid>, OutOfMemory>
    ensures { IfOk result (ReadsAs (IsInnerOf head) (map (λ line. line.now) lines.now)) }
{
    let (width, height) = (head.columns as usize, head.rows as usize);
    if lines.len() < width || lines.len() - width != height {
        return Ok(None);
    }
    let (first, second) = lines.split_at(width);
    let Some(columns) = read_columns(alloc, first)? else {
        return Ok(None);
    };
    let Some(rows) = read_rows(alloc, width, second)? else {
        return Ok(None);
    };
    Ok(Some(Grid {
        position: head.position,
        columns,
        rows,
    }))
}

// The grid that lines are.
fn read_lines(alloc: Global, lines: &[&[u8]]) -> Result<Option<Grid>, OutOfMemory>
    ensures { IfOk result (ReadsAs AreGridLines (map (λ line. line.now) lines.now)) }
{
    if lines.len() < 3 {
        return Ok(None);
    }
    let last = lines.len() - 2;
    if lines[last] != b".".as_slice() || !lines[last + 1].is_empty() {
        return Ok(None);
    }
    let Some(head) = read_head(alloc, lines[0])? else {
        return Ok(None);
    };
    read_inner(alloc, head, &lines[1..last])
}

// The grid that a text is.
fn read_form(alloc: Global, bytes: &[u8]) -> Result<Option<Grid>, OutOfMemory>
    ensures { IfOk result (ReadsAs IsOfGrid bytes.now) }
{
    let lines = parted(alloc, bytes, b'\n')?;
    read_lines(alloc, lines.as_slice())
}

/// The grid that bytes are, whatever formatter showed its values: its position, titles and values.
pub fn read_grid(alloc: Global, bytes: &[u8]) -> Result<Grid, GridFault>
    ensures ok { IfOk result (IsOfGrid bytes.now) }
    ensures one { (grid : _) → IsOfGrid bytes.now grid → IfOk result (λ read. read ≡ grid) }
    ensures err { IfErr result (λ fault. (fault ≡ GridFault.OutOfMemory)
        ⊎ ((fault ≡ GridFault.NotGrid) × ((grid : _) → ¬ IsOfGrid bytes.now grid))) }
{
    match read_form(alloc, bytes) {
        Err(OutOfMemory) => Err(GridFault::OutOfMemory),
        Ok(None) => Err(GridFault::NotGrid),
        Ok(Some(grid)) => Ok(grid),
    }
}
