//! The argument that is a name in brackets.
ghost use Rattle.std.specs.Prelude.{ℕ, IfOk};
ghost use Rattle.command_arguments.specs.Name.{IsName, rest_of, fits};
ghost use Rattle.command_arguments.specs.declared.name.NameReader.TheVariants.{Closing};
ghost use Rattle.text_forms.specs.Forms.{Answers, Steps};

use crate::characters::is_white;
use olap_meaning::{OutOfMemory, Text};
use std::alloc::Global;
use text_forms::{Form, ReadFault, read};

/// A reader in the middle of a name.
#[derive(Drop)]
pub(crate) enum NameReader {
    /// Before the name.
    Before,
    /// In the name, after these characters.
    InName(Text),
    /// In the name, after these characters and a `]`, which ends it unless another follows.
    Closing(Text),
    /// In the white after the name.
    Behind(Text),
}

// Reads a character after a `]` in the name, which ended it unless this is another.
fn end_name(mut name: Text, c: char) -> Result<Option<NameReader>, OutOfMemory>
    ensures { IfOk result (λ next. (at : ℕ) → Steps rest_of (Closing name) at c next) }
{
    if c == ']' {
        name.push(c)?;
        return Ok(Some(NameReader::InName(name)));
    }
    if name.is_empty() || !is_white(c) {
        return Ok(None);
    }
    Ok(Some(NameReader::Behind(name)))
}

impl Form for NameReader {
    type Value = Text;

    ghost use Rattle.std.specs.Prelude.{List};
    ghost use Rattle.command_arguments.specs.NameCloses.{name_closes};

    ghost Meaning = { List ℕ };

    ghost meaning = { λ name. name };

    ghost rest = { rest_of };

    ghost stands = { fits };

    ghost places = { λ at. Unit {0} };

    ghost lacks = { Unit {0} };

    fn step(self, alloc: Global, _at: usize, c: char) -> Result<Option<NameReader>, OutOfMemory> {
        match self {
            NameReader::Before => {
                if is_white(c) {
                    return Ok(Some(NameReader::Before));
                }
                if c != '[' {
                    return Ok(None);
                }
                Ok(Some(NameReader::InName(Text::new(alloc))))
            }
            NameReader::InName(mut name) => {
                if c == ']' {
                    return Ok(Some(NameReader::Closing(name)));
                }
                name.push(c)?;
                Ok(Some(NameReader::InName(name)))
            }
            NameReader::Closing(name) => end_name(name, c),
            NameReader::Behind(name) => {
                if !is_white(c) {
                    return Ok(None);
                }
                Ok(Some(NameReader::Behind(name)))
            }
        }
    }

    fn finish(self, _alloc: Global) -> Result<Option<Text>, OutOfMemory> {
        match self {
            NameReader::Before => Ok(None),
            NameReader::InName(_) => Ok(None),
            NameReader::Closing(name) => {
                if name.is_empty() {
                    return Ok(None);
                }
                Ok(Some(name))
            }
            NameReader::Behind(name) => Ok(Some(name)),
        }
    }

    ghost closes = { name_closes };
}

/// Reads a name in brackets, or tells the byte at which the text stops.
pub fn read_name(alloc: Global, text: &str) -> Result<Text, ReadFault>
    ensures { Answers (λ name. name) IsName (Unit {0}) text.now result }
{
    read(alloc, NameReader::Before, text)
}
