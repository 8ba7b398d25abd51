//! How values and names are written.
ghost use Rattle.std.specs.Prelude.{◌≡◌, ◌++◌, IfOk, OnOk, string_bytes};
ghost use Rattle.olap_meaning.specs.Texts.{plain_text, name_text, name_character, named_line, sign, text_of};

use crate::{CellValue, OutOfMemory, Text};
use std::alloc::{AllocError, Global};

/// The plain text of a value: nothing for an empty cell, and a number of hundredths with two digits after the dot.
pub fn plain_text(alloc: Global, value: &CellValue) -> Result<Text, OutOfMemory>
    ensures { IfOk result (λ t. t ≡ plain_text value.now) }
{
    let text = match *value {
        CellValue::Empty => String::new(alloc),
        CellValue::Whole(number) => number.to_string(alloc)?,
        CellValue::Hundredths(number) => hundredths(alloc, number)?,
    };
    Ok(Text::from_string(text))
}

// A number of hundredths as a decimal fraction.
fn hundredths(alloc: Global, number: i128) -> Result<String, AllocError>
    ensures { IfOk result (λ t. string_bytes t ≡ plain_text (CellValue.Hundredths number)) }
{
    let sign = sign(number);
    let size = number.unsigned_abs();
    let whole = size / 100;
    let tenth = size % 100 / 10;
    let hundredth = size % 100 % 10;
    format!(in alloc; "{sign}{whole}.{tenth}{hundredth}")
}

// What stands before a number.
fn sign(number: i128) -> &'static str
    ensures { result.now ≡ sign number }
{
    if number < 0 { "-" } else { "" }
}

/// The name text of a name: in brackets, with a closing bracket doubled and each character that would end a line
/// or a field after a backslash.
pub fn name_text(alloc: Global, name: &str) -> Result<Text, OutOfMemory>
    ensures { IfOk result (λ t. t ≡ name_text name.now) }
{
    let mut text = String::from_str(alloc, "[")?;
    for c in name.chars() {
        push_character(&mut text, c)?;
    }
    text.push_str("]")?;
    Ok(Text::from_string(text))
}

// Adds a character of a name as its name text has it.
fn push_character(text: &mut String, c: char) -> Result<(), AllocError>
    ensures { OnOk result (string_bytes text.new ≡ string_bytes text.old ++ name_character c) }
{
    match c {
        ']' => text.push_str("]]"),
        '\\' => text.push_str("\\\\"),
        '\t' => text.push_str("\\t"),
        '\r' => text.push_str("\\r"),
        '\n' => text.push_str("\\n"),
        _ => text.push(c),
    }
}

/// A line of a label, a space and the name text of a name.
pub fn named_line(alloc: Global, label: &str, name: &str) -> Result<Text, OutOfMemory>
    ensures { IfOk result (λ t. t ≡ named_line label.now name.now) }
{
    let name = name_text(alloc, name)?;
    Ok(Text::from_string(format!(in alloc; "{label} {name}\n")?))
}

/// A text that is written. A fixed one takes no memory.
#[derive(Drop)]
pub enum Written {
    Fixed(&'static str),
    Made(Text),
}

impl Written {
    /// The text.
    pub fn as_str(&self) -> &str
        ensures { result.now ≡ text_of self.now }
    {
        match self {
            Written::Fixed(text) => text,
            Written::Made(text) => text.as_str(),
        }
    }
}
