//! Bytes in the lines of a table: a line feed is `\n`, a tab `\t`, a carriage return `\r`, a backslash `\\`, and `\xNN`, with
//! two hexadecimal digits, the byte of this number.
ghost use Rattle.std.specs.Prelude.{◌<◌, IfSome};

use anyhow::{Result, bail};
use std::alloc::{AllocError, Global};

// The value of a hexadecimal digit.
fn digit(byte: u8) -> Option<u8>
    ensures { IfSome result (λ value. value < 16) }
{
    match byte {
        b'0'..=b'9' => Some(byte - b'0'),
        b'a'..=b'f' => Some(byte - b'a' + 10),
        _ => None,
    }
}

// The byte of two digits.
fn byte_of(digits: &[u8]) -> Option<u8> {
    let [high, low, ..] = digits else {
        return None;
    };
    let (high, low) = (digit(*high)?, digit(*low)?);
    Some(high * 16 + low)
}

// The byte that stands after a backslash, and how many bytes say it.
fn escaped(behind: &[u8]) -> Option<(u8, usize)> {
    match behind {
        [b'n', ..] => Some((b'\n', 1)),
        [b't', ..] => Some((b'\t', 1)),
        [b'r', ..] => Some((b'\r', 1)),
        [b'\\', ..] => Some((b'\\', 1)),
        [b'x', digits @ ..] => Some((byte_of(digits)?, 3)),
        _ => None,
    }
}

// The first byte that a text says, and what stands after it.
fn first(text: &[u8]) -> Option<(u8, &[u8])> {
    let (byte, rest) = text.split_first()?;
    if *byte != b'\\' {
        return Some((*byte, rest));
    }
    let (byte, size) = escaped(rest)?;
    Some((byte, rest.get(size..)?))
}

/// The bytes that a text says.
pub(crate) fn bytes_of(alloc: Global, text: &str) -> Result<Vec<u8>> {
    let mut bytes = Vec::new(alloc);
    let mut rest = text.as_bytes();
    for _ in 0..text.len() {
        if rest.is_empty() {
            break;
        }
        let Some((byte, behind)) = first(rest) else {
            bail!("a backslash without its byte");
        };
        bytes.push(byte)?;
        rest = behind;
    }
    Ok(bytes)
}

// Adds a byte.
fn add_byte(alloc: Global, text: &mut String, byte: u8) -> Result<(), AllocError> {
    match byte {
        b'\n' => text.push_str("\\n"),
        b'\t' => text.push_str("\\t"),
        b'\r' => text.push_str("\\r"),
        b'\\' => text.push_str("\\\\"),
        b' '..=b'~' => text.push(char::from(byte)),
        other => text.push_str(format!(in alloc; "\\x{other:02x}")?.as_str()),
    }
}

/// Adds bytes.
pub(crate) fn add_bytes(alloc: Global, text: &mut String, bytes: &[u8]) -> Result<(), AllocError> {
    for byte in bytes {
        add_byte(alloc, text, *byte)?;
    }
    Ok(())
}
