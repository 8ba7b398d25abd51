//! What differs from what a case wants, in words.
use crate::outcome::Outcome;
use std::alloc::{AllocError, Global};

/// Adds bytes in ASCII, in one line: a line feed is `\n`, and any other byte that does not print is `\xNN`.
fn add_shown(alloc: Global, text: &mut String, bytes: &[u8]) -> Result<(), AllocError> {
    for byte in bytes {
        match *byte {
            b'\n' => text.push_str("\\n")?,
            b'\\' => text.push_str("\\x5c")?,
            b' '..=b'~' => text.push(char::from(*byte))?,
            other => text.push_str(format!(in alloc; "\\x{other:02x}")?.as_str())?,
        }
    }
    Ok(())
}

/// Adds an outcome and what was written.
fn add_outcome(
    alloc: Global,
    text: &mut String,
    outcome: Outcome,
    written: &[u8],
) -> Result<(), AllocError> {
    let status = outcome.status;
    text.push_str(format!(in alloc; "status {status}, ")?.as_str())?;
    match outcome.history {
        Some((entries, rows)) => {
            text.push_str(format!(in alloc; "{entries} entries, {rows} rows")?.as_str())?;
        }
        None => text.push_str("no history")?,
    }
    text.push_str(", written ")?;
    add_shown(alloc, text, written)
}

/// What came of a case, and what was wanted.
pub(crate) fn difference(
    alloc: Global,
    found: (Outcome, &[u8]),
    wanted: (Outcome, &[u8]),
) -> Result<String, AllocError> {
    let mut text = String::new(alloc);
    add_outcome(alloc, &mut text, found.0, found.1)?;
    text.push_str("; wanted ")?;
    add_outcome(alloc, &mut text, wanted.0, wanted.1)?;
    Ok(text)
}
