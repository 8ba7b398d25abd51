//! Reading a shown value back.
ghost use Rattle.std.specs.Prelude.{ℕ, ◌≡◌, ◌==◌, ◌≤◌, ◌^◌, Some, IfOk, filter, string_bytes};
ghost use Rattle.std.specs.Char.{is_ascii_digit};
ghost use Rattle.std.specs.List.{list_any};
ghost use Rattle.std.specs.Option.{IfSome};
ghost use Rattle.olap_meaning.specs.Texts.{CanBeShown, plain_text};
ghost use Rattle.query_meaning.specs.Shown.{bare};
ghost use Rattle.shown_values.specs.Shown.{signed, IsReadAs};

use olap_meaning::{CellValue, OutOfMemory, plain_text};
use std::alloc::Global;

// The greatest number that can be shown, 2^100.
const LIMIT: u128 = 1_267_650_600_228_229_401_496_703_205_376;

// A text without its commas and spaces.
fn bare(alloc: Global, text: &[u8]) -> Result<Vec<u8>, OutOfMemory>
    ensures { IfOk result (λ kept. kept.items ≡ bare text.now) }
{
    let mut kept = Vec::new(alloc);
    for byte in text {
        if !(*byte == b',' || *byte == b' ') {
            kept.push(*byte)?;
        }
    }
    Ok(kept)
}

// The digits of a text.
fn digits(alloc: Global, text: &[u8]) -> Result<String, OutOfMemory>
    ensures { IfOk result (λ digits. string_bytes digits ≡ filter is_ascii_digit text.now) }
{
    let mut digits = String::new(alloc);
    for byte in text {
        if byte.is_ascii_digit() {
            digits.push(*byte as char)?;
        }
    }
    Ok(digits)
}

// Whether a text has a byte.
fn has(text: &[u8], byte: u8) -> bool
    ensures { result ≡ list_any (λ b. b == byte) text.now }
{
    text.contains(&byte)
}

// A number by its sign and its size.
fn signed(minus: bool, size: u128) -> i128
    requires { size ≤ 2 ^ 100 }
    ensures value { result ≡ signed minus size }
{
    if minus { -(size as i128) } else { size as i128 }
}

// A lenient reading: the value whose plain text this is, and any value or none where it is no plain text.
fn guess(alloc: Global, bare: &[u8]) -> Result<Option<CellValue>, OutOfMemory>
    ensures can { IfOk result (λ read. IfSome read CanBeShown) }
    ensures undoes { IfOk result (λ read. (value : CellValue) → CanBeShown value
        → bare.now ≡ plain_text value → read ≡ Some value) }
{
    if bare.is_empty() {
        return Ok(Some(CellValue::Empty));
    }
    let digits = digits(alloc, bare)?;
    let Ok(size) = digits.as_str().parse::<u128>() else {
        return Ok(None);
    };
    if size > LIMIT {
        return Ok(None);
    }
    let number = signed(has(bare, b'-'), size);
    if has(bare, b'.') {
        Ok(Some(CellValue::Hundredths(number)))
    } else {
        Ok(Some(CellValue::Whole(number)))
    }
}

/// The value that a text shows: Some exactly where the text, without its commas and spaces, is the plain text of a
/// value that can be shown, and then that value.
pub fn read_value(alloc: Global, text: &[u8]) -> Result<Option<CellValue>, OutOfMemory>
    ensures { IfOk result (IsReadAs text.now) }
{
    let bare = bare(alloc, text)?;
    let Some(value) = guess(alloc, bare.as_slice())? else {
        return Ok(None);
    };
    let plain = plain_text(alloc, &value)?;
    if plain.as_str().as_bytes() == bare.as_slice() {
        Ok(Some(value))
    } else {
        Ok(None)
    }
}
