//! Formatters: the program's, one that puts a space after each digit, and one that has no memory.
ghost use Rattle.std.specs.Prelude.{◌≡◌, IfOk, flat_map, string_bytes};
ghost use Rattle.std.specs.Str.{chars};
ghost use Rattle.olap_meaning.specs.Texts.{CanBeShown, plain_text};
ghost use Rattle.query_meaning.specs.Shown.{Shows, bare, breaks};
ghost use Rattle.text_cases.specs.Spaced.{spaced};

use anyhow::{Result as Anyhow, bail};
use olap_meaning::{CellValue, OutOfMemory, Text};
use shown_values::shown_plainly;
use std::alloc::Global;

/// How a value is shown.
#[derive(Clone, Copy)]
pub(crate) enum Manner {
    Plainly,
    Spaced,
    NoMemory,
}

// A text with a space after each digit.
fn with_spaces(alloc: Global, plain: &str) -> Result<String, OutOfMemory>
    ensures text { IfOk result (λ text. string_bytes text ≡ flat_map spaced (chars plain.now)) }
    ensures same { IfOk result (λ text. bare (string_bytes text) ≡ bare plain.now) }
    ensures breaks { IfOk result (λ text. breaks (string_bytes text) ≡ breaks plain.now) }
{
    let mut text = String::new(alloc);
    for c in plain.chars() {
        text.push(c)?;
        if c.is_ascii_digit() {
            text.push(' ')?;
        }
    }
    Ok(text)
}

// The text of a value with a space after each digit.
fn shown_with_spaces(alloc: Global, value: &CellValue) -> Result<Text, OutOfMemory>
    requires { CanBeShown value.now }
    ensures text { IfOk result (λ text. text ≡ flat_map spaced (chars (plain_text value.now))) }
    ensures shows { IfOk result (Shows value.now) }
{
    let plain = shown_plainly(alloc, value)?;
    let text = with_spaces(alloc, plain.as_str())?;
    Ok(Text::from_string(text))
}

/// The text of a value.
pub(crate) fn shown(alloc: Global, how: Manner, value: &CellValue) -> Result<Text, OutOfMemory>
    requires { CanBeShown value.now }
    ensures { IfOk result (Shows value.now) }
{
    match how {
        Manner::Plainly => shown_plainly(alloc, value),
        Manner::Spaced => shown_with_spaces(alloc, value),
        Manner::NoMemory => Err(OutOfMemory),
    }
}

/// The way of this name.
pub(crate) fn manner_of(name: &str) -> Anyhow<Manner> {
    match name {
        "plainly" => Ok(Manner::Plainly),
        "spaced" => Ok(Manner::Spaced),
        "no-memory" => Ok(Manner::NoMemory),
        _ => bail!("no formatter has this name"),
    }
}
