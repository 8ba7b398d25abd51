//! The bytes that a case file says.
//!
//! A content is a text, or a list of parts one after the other. A part is a text, the bytes of a file beside the case
//! file, `{"file": NAME}`, or a block, `{"times": N, "of": [ITEM ..]}`: its items one after the other, this many times. An
//! item is a text, or `{"from": A, "count": C}`: a number that counts from A on, C numbers again and again. With
//! `"old": TEXT, "new": TEXT` beside the name of a file, the first OLD in it is exchanged.
//!
//! In a text `\xNN`, with two hexadecimal digits, is the byte of this number.
ghost use Rattle.std.specs.Prelude.{◌<◌, IfSome};

use crate::fields::{field, items, number, text};
use anyhow::{Result, bail};
use serde_json::Value;
use std::alloc::Global;
use std::fs;
use std::rt::Files;

// The value of a hexadecimal digit.
fn digit(byte: u8) -> Option<u8>
    ensures { IfSome result (λ value. value < 16) }
{
    match byte {
        b'0'..=b'9' => Some(byte - b'0'),
        b'a'..=b'f' => Some(byte - b'a' + 10),
        _ => None,
    }
}

// Adds what stands after a mark: the byte of two digits, and then a text.
fn add_marked(bytes: &mut Vec<u8>, piece: &[u8]) -> Result<()> {
    let [high, low, rest @ ..] = piece else {
        bail!("two digits are wanted");
    };
    let (Some(high), Some(low)) = (digit(*high), digit(*low)) else {
        bail!("two digits are wanted");
    };
    bytes.push(high * 16 + low)?;
    bytes.extend_from_slice(rest)?;
    Ok(())
}

/// Adds the bytes of a text.
pub(crate) fn add_text(bytes: &mut Vec<u8>, text: &str) -> Result<()> {
    for (place, piece) in text.split("\\x").enumerate() {
        if place == 0 {
            bytes.extend_from_slice(piece.as_bytes())?;
        } else {
            add_marked(bytes, piece.as_bytes())?;
        }
    }
    Ok(())
}

/// An item of a block.
#[derive(Clone, Copy)]
enum Item<'a> {
    Text(&'a str),
    Counter { from: i64, count: u64 },
}

fn item_of(value: &Value) -> Result<Item<'_>> {
    if let Value::String(text) = value {
        return Ok(Item::Text(text.as_str()));
    }
    let Some(from) = field(value, "from")?.as_i64() else {
        bail!("a number is wanted");
    };
    let count = number(field(value, "count")?)?;
    Ok(Item::Counter { from, count })
}

// Adds an item the time of this number.
fn add_item(alloc: Global, bytes: &mut Vec<u8>, item: Item<'_>, time: u64) -> Result<()> {
    match item {
        Item::Text(text) => add_text(bytes, text),
        Item::Counter { from, count } => {
            let past = time.checked_rem(count).unwrap_or(0);
            let number = i128::from(from) + i128::from(past);
            let text = format!(in alloc; "{number}")?;
            bytes.extend_from_slice(text.as_bytes())?;
            Ok(())
        }
    }
}

// The items of a block.
fn items_of<'a>(alloc: Global, list: &'a [Value]) -> Result<Vec<Item<'a>>> {
    let mut items = Vec::new(alloc);
    for item in list {
        items.push(item_of(item)?)?;
    }
    Ok(items)
}

// Adds items one after the other, this many times.
fn add_items(alloc: Global, bytes: &mut Vec<u8>, items: &[Item<'_>], times: u64) -> Result<()> {
    for time in 0..times {
        for item in items {
            add_item(alloc, bytes, *item, time)?;
        }
    }
    Ok(())
}

fn add_block(alloc: Global, bytes: &mut Vec<u8>, block: &Value) -> Result<()> {
    let times = number(field(block, "times")?)?;
    let list = items(field(block, "of")?)?;
    let items = items_of(alloc, list)?;
    add_items(alloc, bytes, &items, times)
}

// Adds a text in which the first of a text is exchanged, which has to be there.
fn add_exchanged(
    alloc: Global,
    bytes: &mut Vec<u8>,
    file: &str,
    old: &str,
    new: &str,
) -> Result<()> {
    if !file.contains(old) {
        bail!("the file has no {old}");
    }
    let exchanged = file.replacen(alloc, old, new, 1)?;
    bytes.extend_from_slice(exchanged.as_bytes())?;
    Ok(())
}

// Adds the bytes of a file, with one text exchanged where the part says so.
fn add_file(
    rt: &(impl Files + AllocGlobal),
    bytes: &mut Vec<u8>,
    name: &str,
    part: &Value,
) -> Result<()> {
    let Some(old) = part.get("old") else {
        let file = fs::read(rt, name)?;
        bytes.extend_from_slice(file.as_slice())?;
        return Ok(());
    };
    let file = fs::read_to_string(rt, name)?;
    let new = text(field(part, "new")?)?;
    add_exchanged(rt.alloc(), bytes, file.as_str(), text(old)?, new)
}

fn add_part(rt: &(impl Files + AllocGlobal), bytes: &mut Vec<u8>, part: &Value) -> Result<()> {
    if let Value::String(text) = part {
        return add_text(bytes, text.as_str());
    }
    match part.get("file") {
        Some(name) => add_file(rt, bytes, text(name)?, part),
        None => add_block(rt.alloc(), bytes, part),
    }
}

/// Adds the bytes of a content.
pub(crate) fn add_content(
    rt: &(impl Files + AllocGlobal),
    bytes: &mut Vec<u8>,
    content: &Value,
) -> Result<()> {
    let Value::Array(parts) = content else {
        return add_part(rt, bytes, content);
    };
    for part in parts.as_slice() {
        add_part(rt, bytes, part)?;
    }
    Ok(())
}

/// The bytes of a content.
pub(crate) fn bytes_of(rt: &(impl Files + AllocGlobal), content: &Value) -> Result<Vec<u8>> {
    let mut bytes = Vec::new(rt.alloc());
    add_content(rt, &mut bytes, content)?;
    Ok(bytes)
}
