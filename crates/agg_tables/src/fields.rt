//! What a field of a table's file says.
ghost use Rattle.std.specs.Prelude.{◌≡◌, ◌==◌, slice_index};
ghost use Rattle.agg_tables.specs.Files as meaning;

use olap_meaning::CellValue;

/// Whether a field says a value: it is empty where the value is, and else it is a number, and the value's.
pub(crate) fn says(value: &CellValue, field: &str) -> bool
    ensures { result ≡ meaning.says value.now field.now }
{
    match *value {
        CellValue::Empty => field.is_empty(),
        CellValue::Whole(number) => is_number(number, field),
        CellValue::Hundredths(_) => false,
    }
}

fn is_number(number: i128, field: &str) -> bool
    ensures { result ≡ meaning.says (CellValue.Whole number) field.now }
{
    match wide_number(field) {
        Some(stored) => stored == number,
        None => false,
    }
}

// The number of a field: a minus sign or none, and one or more ASCII digits, within 128 bits.
fn wide_number(field: &str) -> Option<i128>
    ensures { result ≡ meaning.wide_number field.now }
{
    if has_plus(field.as_bytes()) {
        return None;
    }
    field.parse::<i128>().ok()
}

// Whether a field begins with a plus sign, with which it is no number.
fn has_plus(field: &[u8]) -> bool
    ensures { result ≡ (slice_index field.now 0 == 43) }
{
    matches!(field, [b'+', ..])
}
