//! The argument that is a name in brackets and a file name.
ghost use Rattle.std.specs.Prelude.{ℕ, IfOk, IfSome};
ghost use Rattle.command_arguments.specs.Append.{IsAppend, rest_of, fits};
ghost use Rattle.command_arguments.specs.declared.append.AppendReader.TheVariants.{Between, Closing, InFile};
ghost use Rattle.text_forms.specs.Forms.{Answers, Steps};

use crate::characters::{is_file_character, is_white};
use olap_meaning::{OutOfMemory, Text};
use std::alloc::Global;
use text_forms::{Form, ReadFault, read};

/// What is appended to which cube.
#[derive(Drop)]
pub struct AppendArgument {
    pub cube: Text,
    pub file: Text,
}

/// A reader in the middle of such an argument.
#[derive(Drop)]
pub(crate) enum AppendReader {
    /// Before the cube's name.
    Before,
    /// In the cube's name, after these characters.
    InName(Text),
    /// In the cube's name, after these characters and a `]`, which ends it unless another follows.
    Closing(Text),
    /// After the cube's name.
    Between(Text),
    /// In the file name, after these characters, where this many more may come.
    InFile { cube: Text, file: Text, left: u8 },
    /// In the white after the file name.
    Behind { cube: Text, file: Text },
}

// Reads a character between the name and the file name.
fn begin_file(alloc: Global, cube: Text, c: char) -> Result<Option<AppendReader>, OutOfMemory>
    ensures kept { IfOk result (λ next. IfSome next fits) }
    ensures steps { IfOk result (λ next. (at : ℕ) → Steps rest_of (Between cube) at c next) }
{
    if is_white(c) {
        return Ok(Some(AppendReader::Between(cube)));
    }
    if c == '.' || !is_file_character(c) {
        return Ok(None);
    }
    let mut file = Text::new(alloc);
    file.push(c)?;
    Ok(Some(AppendReader::InFile {
        cube,
        file,
        left: 63,
    }))
}

// Reads a character after a `]` in the name, which ended it unless this is another.
fn end_name(alloc: Global, mut name: Text, c: char) -> Result<Option<AppendReader>, OutOfMemory>
    ensures kept { IfOk result (λ next. IfSome next fits) }
    ensures steps { IfOk result (λ next. (at : ℕ) → Steps rest_of (Closing name) at c next) }
{
    if c == ']' {
        name.push(c)?;
        return Ok(Some(AppendReader::InName(name)));
    }
    if name.is_empty() {
        return Ok(None);
    }
    begin_file(alloc, name, c)
}

// Reads a character in the file name.
fn go_on_in_file(
    cube: Text,
    mut file: Text,
    left: u8,
    c: char,
) -> Result<Option<AppendReader>, OutOfMemory>
    ensures kept { IfOk result (λ next. IfSome next fits) }
    ensures steps { IfOk result
        (λ next. (at : ℕ) → Steps rest_of (InFile cube file left) at c next) }
{
    if is_white(c) {
        return Ok(Some(AppendReader::Behind { cube, file }));
    }
    if left == 0 || !is_file_character(c) {
        return Ok(None);
    }
    file.push(c)?;
    Ok(Some(AppendReader::InFile {
        cube,
        file,
        left: left - 1,
    }))
}

impl Form for AppendReader {
    type Value = AppendArgument;

    ghost use Rattle.command_arguments.specs.declared.append.AppendArgument.{AppendArgument};
    ghost use Rattle.command_arguments.specs.AppendCloses.{append_closes};

    ghost Meaning = { AppendArgument };

    ghost meaning = { λ argument. argument };

    ghost rest = { rest_of };

    ghost stands = { fits };

    ghost places = { λ at. Unit {0} };

    ghost lacks = { Unit {0} };

    fn step(self, alloc: Global, _at: usize, c: char) -> Result<Option<AppendReader>, OutOfMemory> {
        match self {
            AppendReader::Before => {
                if is_white(c) {
                    return Ok(Some(AppendReader::Before));
                }
                if c != '[' {
                    return Ok(None);
                }
                Ok(Some(AppendReader::InName(Text::new(alloc))))
            }
            AppendReader::InName(mut name) => {
                if c == ']' {
                    return Ok(Some(AppendReader::Closing(name)));
                }
                name.push(c)?;
                Ok(Some(AppendReader::InName(name)))
            }
            AppendReader::Closing(name) => end_name(alloc, name, c),
            AppendReader::Between(cube) => begin_file(alloc, cube, c),
            AppendReader::InFile { cube, file, left } => go_on_in_file(cube, file, left, c),
            AppendReader::Behind { cube, file } => {
                if !is_white(c) {
                    return Ok(None);
                }
                Ok(Some(AppendReader::Behind { cube, file }))
            }
        }
    }

    fn finish(self, _alloc: Global) -> Result<Option<AppendArgument>, OutOfMemory> {
        match self {
            AppendReader::InFile {
                cube,
                file,
                left: _,
            } => Ok(Some(AppendArgument { cube, file })),
            AppendReader::Behind { cube, file } => Ok(Some(AppendArgument { cube, file })),
            AppendReader::Before => Ok(None),
            AppendReader::InName(_) => Ok(None),
            AppendReader::Closing(_) => Ok(None),
            AppendReader::Between(_) => Ok(None),
        }
    }

    ghost closes = { append_closes };
}

/// Reads the argument, or tells the byte at which the text stops.
pub fn read_append(alloc: Global, text: &str) -> Result<AppendArgument, ReadFault>
    ensures { Answers (λ argument. argument) IsAppend (Unit {0}) text.now result }
{
    read(alloc, AppendReader::Before, text)
}
