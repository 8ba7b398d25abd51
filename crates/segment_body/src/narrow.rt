//! Values on the columns of one header as another header has them.
ghost use Rattle.std.specs.Prelude.{◌≡◌, ◌==◌, IfOk, IsTrue, None, Some, if◌then◌else◌, option_and_then, position, slice_get};
ghost use Rattle.segment_header.specs.Headers as headers;
ghost use Rattle.segment_body.specs.Narrowed as narrowed;
ghost use Rattle.olap_meaning.specs.Budget.{allowed_values, if_allowed};

use olap_meaning::{Allowed, ColumnId, OutOfMemory, ValueId};
use segment_header::allows;

fn place_among(columns: &[(ColumnId, Allowed)], column: ColumnId) -> Option<usize>
    ensures { result ≡ position (λ own. own.0 == column) columns.now }
{
    columns.iter().position(|own| own.0 == column)
}

/// The value in a column, of values on some columns.
fn value_in(
    columns: &[(ColumnId, Allowed)],
    values: &[ValueId],
    column: ColumnId,
) -> Option<ValueId>
    ensures { result ≡ narrowed.value_in columns.now values.now column }
{
    match place_among(columns, column) {
        Some(place) => values.get(place).copied(),
        None => None,
    }
}

/// The value in the column at a place among others, where it is allowed there.
fn allowed_at(
    columns: &[(ColumnId, Allowed)],
    values: &[ValueId],
    others: &[(ColumnId, Allowed)],
    k: usize,
) -> Option<ValueId>
    requires columns { IsTrue (headers.are_columns others.now) }
    ensures { result
        ≡ option_and_then
        (λ other. option_and_then (if_allowed other.1)
        (narrowed.value_in columns.now values.now other.0)) (slice_get others.now k) }
{
    match others.get(k) {
        Some(other) => match value_in(columns, values, other.0) {
            Some(value) if allows(&other.1, value) => Some(value),
            _ => None,
        },
        None => None,
    }
}

/// Puts values on some columns into a buffer as other columns have them, and tells whether these have each value and allow
/// it.
pub(crate) fn narrow_values(
    columns: &[(ColumnId, Allowed)],
    values: &[ValueId],
    others: &[(ColumnId, Allowed)],
    buffer: &mut Vec<ValueId>,
) -> Result<bool, OutOfMemory>
    requires columns { IsTrue (headers.are_columns others.now) }
    ensures { IfOk result
        (λ kept. allowed_values (narrowed.value_in columns.now values.now) others.now
        ≡ (if kept then Some buffer.new.items else None)) }
{
    buffer.clear();
    for k in 0..others.len() {
        match allowed_at(columns, values, others, k) {
            None => return Ok(false),
            Some(value) => buffer.push(value)?,
        }
    }
    Ok(true)
}
