//! The first line of a grid read back.
ghost use Rattle.std.specs.Prelude.{ℕ, ◌≡◌, ◌<◌, ◌^◌, Some, IfOk, MatchBool};
ghost use Rattle.std.specs.Fmt.{decimal};
ghost use Rattle.grid_reader.specs.Lines.{IsHead};
ghost use Rattle.grid_reader.specs.Reading.{ReadsAs};

use crate::head::Head;
use crate::parting::parted;
use olap_meaning::OutOfMemory;
use std::alloc::Global;
use std::str;

// The number that a field is in decimal, and any number or none where it is none.
fn guess_number(field: &[u8]) -> Option<u64>
    ensures { (n : ℕ) → n < 2 ^ 64 → field.now ≡ decimal n → result ≡ Some n }
{
    let text = str::from_utf8(field).ok()?;
    text.parse::<u64>().ok()
}

// A lenient reading: the numbers of the first line, and any numbers or none where it is no first line.
fn guess_head(alloc: Global, line: &[u8]) -> Result<Option<Head>, OutOfMemory>
    ensures { IfOk result (λ read. (head : Head) → IsHead line.now head → read ≡ Some head) }
{
    let fields = parted(alloc, line, b' ')?;
    if fields.len() != 4 {
        return Ok(None);
    }
    let Some(position) = guess_number(fields[1]) else {
        return Ok(None);
    };
    let Some(columns) = guess_number(fields[2]) else {
        return Ok(None);
    };
    let Some(rows) = guess_number(fields[3]) else {
        return Ok(None);
    };
    Ok(Some(Head {
        position,
        columns,
        rows,
    }))
}

// Whether a line is the first of a grid with these numbers.
fn is_head(alloc: Global, head: Head, line: &[u8]) -> Result<bool, OutOfMemory>
    ensures { IfOk result (λ is. MatchBool is (IsHead line.now head) (¬ IsHead line.now head)) }
{
    let (position, columns, rows) = (head.position, head.columns, head.rows);
    if position == 0 {
        return Ok(false);
    }
    let again = format!(in alloc; "GRID {position} {columns} {rows}")?;
    Ok(again.as_str().as_bytes() == line)
}

/// The numbers of a grid's first line.
pub(crate) fn read_head(alloc: Global, line: &[u8]) -> Result<Option<Head>, OutOfMemory>
    ensures { IfOk result (ReadsAs IsHead line.now) }
{
    let Some(head) = guess_head(alloc, line)? else {
        return Ok(None);
    };
    if is_head(alloc, head, line)? {
        Ok(Some(head))
    } else {
        Ok(None)
    }
}
