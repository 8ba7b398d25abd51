//! What a field says.
ghost use Rattle.std.specs.Prelude.{◌≡◌, ◌==◌, ◌<◌, ◌≤◌, EachIndex, IfSome, IsTrue, Some, slice_index};
ghost use Rattle.std.specs.Str.{is_utf8};
ghost use Rattle.olap_meaning.specs.Records.{number};

use std::str;

/// Whether a field is UTF-8.
pub fn is_text(field: &[u8]) -> bool
    ensures { result ≡ is_utf8 field.now }
{
    match str::from_utf8(field) {
        Ok(_) => true,
        Err(_) => false,
    }
}

// The greatest byte, 0 where there is none. There is no early end, so that many bytes are looked at in one step.
fn greatest_byte(bytes: &[u8]) -> u8
    ensures { EachIndex bytes.now (λ k. slice_index bytes.now k ≤ result) }
{
    let mut greatest = 0u8;
    for byte in bytes {
        greatest = greatest.max(*byte);
    }
    greatest
}

/// Whether all bytes are ASCII.
pub(crate) fn is_ascii(bytes: &[u8]) -> bool
    ensures { IsTrue result → EachIndex bytes.now (λ k. slice_index bytes.now k < 128) }
{
    greatest_byte(bytes) < 128
}

// The number of at most 18 digits, as most are: it fits whatever they are. None for anything else.
fn short_number(field: &[u8]) -> Option<i64>
    ensures { IfSome result (λ n. number field.now ≡ Some n) }
{
    if field.is_empty() || field.len() > 18 {
        return None;
    }
    let mut value = 0u64;
    for byte in field {
        if !byte.is_ascii_digit() {
            return None;
        }
        value = value * 10 + u64::from(*byte - b'0');
    }
    Some(value as i64)
}

// Whether a field begins with a plus sign, with which it is no number.
fn has_plus(field: &[u8]) -> bool
    ensures { result ≡ (slice_index field.now 0 == 43) }
{
    matches!(field, [b'+', ..])
}

// The number of any field.
fn parsed_number(field: &[u8]) -> Option<i64>
    ensures { result ≡ number field.now }
{
    if has_plus(field) {
        return None;
    }
    let Ok(text) = str::from_utf8(field) else {
        return None;
    };
    text.parse::<i64>().ok()
}

/// The number of a field: a minus sign or none, and one or more ASCII digits, within 64 bits. None where the field is
/// anything else.
pub fn number(field: &[u8]) -> Option<i64>
    ensures { result ≡ number field.now }
{
    match short_number(field) {
        Some(value) => Some(value),
        None => parsed_number(field),
    }
}
