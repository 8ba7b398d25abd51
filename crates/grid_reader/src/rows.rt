//! The lines of rows read back.
ghost use Rattle.std.specs.Prelude.{◌≡◌, [], IfOk, MatchBool, ◌≢◌, map};
ghost use Rattle.query_meaning.specs.Shown.{breaks};
ghost use Rattle.grid_reader.specs.Lines.{AreRowLines, AreShown, IsRowLine};
ghost use Rattle.grid_reader.specs.Reading.{ReadsAs};

use crate::parting::parted;
use crate::title::read_title;
use olap_meaning::{CellValue, List, OutOfMemory};
use query_meaning::GridRow;
use shown_values::read_value;
use std::alloc::Global;

// Whether a text has a tab, a carriage return or a line feed.
fn has_break(text: &[u8]) -> bool
    ensures { MatchBool result (breaks text.now ≢ []) (breaks text.now ≡ []) }
{
    for byte in text {
        if *byte == b'\t' || *byte == b'\r' || *byte == b'\n' {
            return true;
        }
    }
    false
}

// The values that texts show.
fn read_values(alloc: Global, texts: &[&[u8]]) -> Result<Option<List<CellValue>>, OutOfMemory>
    ensures { IfOk result (ReadsAs AreShown (map (λ text. text.now) texts.now)) }
{
    let mut values = List::new(alloc);
    for text in texts {
        if has_break(text) {
            return Ok(None);
        }
        match read_value(alloc, text)? {
            None => return Ok(None),
            Some(value) => values.push(value)?,
        }
    }
    Ok(Some(values))
}

// The row of this many columns, by its line.
fn read_row(alloc: Global, columns: usize, line: &[u8]) -> Result<Option<GridRow>, OutOfMemory>
    ensures { IfOk result (ReadsAs (IsRowLine columns) line.now) }
{
    let fields = parted(alloc, line, b'\t')?;
    let Some((first, others)) = fields.as_slice().split_first() else {
        return Ok(None);
    };
    let Some((title, texts)) = others.split_first() else {
        return Ok(None);
    };
    if *first != b"R".as_slice() || texts.len() != columns {
        return Ok(None);
    }
    let Some(title) = read_title(alloc, title)? else {
        return Ok(None);
    };
    let Some(values) = read_values(alloc, texts)? else {
        return Ok(None);
    };
    Ok(Some(GridRow { title, values }))
}

/// Rows of this many columns, by their lines.
pub(crate) fn read_rows(
    alloc: Global,
    columns: usize,
    lines: &[&[u8]],
) -> Result<Option<List<GridRow>>, OutOfMemory>
    ensures { IfOk result (ReadsAs (AreRowLines columns) (map (λ line. line.now) lines.now)) }
{
    let mut rows = List::new(alloc);
    for line in lines {
        match read_row(alloc, columns, line)? {
            None => return Ok(None),
            Some(row) => rows.push(row)?,
        }
    }
    Ok(Some(rows))
}
