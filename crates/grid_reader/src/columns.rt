//! The lines of columns read back.
ghost use Rattle.std.specs.Prelude.{IfOk, map};
ghost use Rattle.grid_reader.specs.Lines.{AreColumnLines, IsColumnLine};
ghost use Rattle.grid_reader.specs.Reading.{ReadsAs};

use crate::title::read_title;
use olap_meaning::{List, OutOfMemory, Text};
use std::alloc::Global;

// The title of a column, by its line.
fn read_column(alloc: Global, line: &[u8]) -> Result<Option<Text>, OutOfMemory>
    ensures { IfOk result (ReadsAs IsColumnLine line.now) }
{
    match line.strip_prefix(b"C\t") {
        None => Ok(None),
        Some(title) => read_title(alloc, title),
    }
}

/// The titles of columns, by their lines.
pub(crate) fn read_columns(
    alloc: Global,
    lines: &[&[u8]],
) -> Result<Option<List<Text>>, OutOfMemory>
    ensures { IfOk result (ReadsAs AreColumnLines (map (λ line. line.now) lines.now)) }
{
    let mut titles = List::new(alloc);
    for line in lines {
        match read_column(alloc, line)? {
            None => return Ok(None),
            Some(title) => titles.push(title)?,
        }
    }
    Ok(Some(titles))
}
