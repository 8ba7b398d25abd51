//! What the words of a command line ask for.
ghost use Rattle.std.specs.Prelude.{◌≡◌, IfOk, OnErr, map, option_map, string_bytes};
ghost use Rattle.command_words.specs.Commands.{command_of};
ghost use Rattle.olap_server.specs.Asked.{IsAsked, MayLackMemory, MayWant, asked};

use crate::cell_command::{CellCommand, read_cell};
use crate::words::Words;
use command_words::{CommandFault, RunOptions, read_run};
use olap_meaning::OutOfMemory;
use std::alloc::Global;

/// What a command line asks for.
#[derive(Drop)]
pub(crate) enum Command<'a> {
    /// One aggregate of a file.
    Cell(CellCommand<'a>),
    /// A session over the cache that the schema of a file opens.
    Run(RunOptions<'a>),
}

/// The command of the words; None where they are no command line.
fn read_command<'a>(alloc: Global, words: &'a [String]) -> Result<Option<Command<'a>>, OutOfMemory>
    ensures command { IfOk result
        (λ command. option_map asked command ≡ command_of (map string_bytes words.now)) }
    ensures err { OnErr result (MayWant (map string_bytes words.now)) }
{
    match words {
        [first, rest @ ..] if first.as_str() == "cell" => match read_cell(alloc, rest)? {
            Some(command) => Ok(Some(Command::Cell(command))),
            None => Ok(None),
        },
        [first, rest @ ..] if first.as_str() == "run" => match read_run(alloc, rest) {
            Ok(options) => Ok(Some(Command::Run(options))),
            Err(CommandFault::Usage) => Ok(None),
            Err(CommandFault::OutOfMemory) => Err(OutOfMemory),
        },
        _ => Ok(None),
    }
}

/// What words ask for, as the system gave them; None where they are no command line.
pub(crate) fn read_words(alloc: Global, words: &Words) -> Result<Option<Command<'_>>, OutOfMemory>
    ensures asked { IfOk result (λ command. IsAsked words.now (option_map asked command)) }
    ensures err { OnErr result (MayLackMemory words.now) }
{
    match words {
        Words::Read(words) => read_command(alloc, words.as_slice()),
        Words::NotText => Ok(None),
        Words::OutOfMemory => Err(OutOfMemory),
    }
}
