//! What `clap` makes of the words of a command that knows some options.
ghost use Rattle.std.specs.Prelude.{◌≡◌, ◌⊎◌, IfErr, IfOk, None, [], map, string_bytes, false};
ghost use Rattle.std.specs.List.{list_any};
ghost use Rattle.clap.specs.Words.{app_of, found_of, with_rule};
ghost use Rattle.command_words.specs.Options.{command_line};
ghost use Rattle.command_words.specs.OddWords.{is_odd};
ghost use Rattle.command_words.specs.Shapes.{HasOptions, known_option, option_rule, options_app};
ghost use Rattle.command_words.specs.declared.fault.CommandFault.TheVariants.{Usage, OutOfMemory};

use crate::fault::CommandFault;
use crate::odd_words::has_odd_word;
use clap::error::ErrorKind;
use clap::{Arg, ArgAction, ArgMatches, Command};
use std::alloc::{AllocError, Global};

/// An option that a command knows.
#[derive(Clone, Copy)]
pub(crate) struct KnownOption<'a> {
    pub name: &'a str,
    pub is_required: bool,
}

// The command with one more option.
fn with_option<'a>(
    alloc: Global,
    command: Command<'a>,
    option: KnownOption<'a>,
) -> Result<Command<'a>, AllocError>
    ensures { IfOk result (λ more. app_of more
        ≡ with_rule (app_of command.entry) (option_rule (known_option option.entry))) }
{
    let arg = Arg::new(alloc, option.name)
        .long(option.name)
        .required(option.is_required)
        .action(ArgAction::Set);
    command.arg(arg)
}

// A command of this name with no option.
fn bare_command<'a>(alloc: Global, name: &'a str) -> Command<'a>
    ensures { app_of result ≡ options_app name.entry.now [] }
{
    Command::new(alloc, name)
        .no_binary_name(true)
        .disable_help_flag(true)
}

// The command that knows these options.
fn options_command<'a>(
    alloc: Global,
    name: &'a str,
    known: &[KnownOption<'a>],
) -> Result<Command<'a>, AllocError>
    ensures { IfOk result
        (λ command. app_of command ≡ options_app name.entry.now (map known_option known.now)) }
{
    let mut command = bare_command(alloc, name);
    for option in known {
        command = with_option(alloc, command, *option)?;
    }
    Ok(command)
}

// What `clap` makes of words that are not odd.
fn read_plain<'a>(
    alloc: Global,
    name: &'a str,
    known: &[KnownOption<'a>],
    words: &'a [String],
) -> Result<ArgMatches<'a>, CommandFault>
    requires { list_any is_odd (map string_bytes words.now) ≡ false }
    ensures ok { IfOk result (λ matches. HasOptions
        (command_line (map known_option known.now) (map string_bytes words.now))
        (found_of matches)) }
    ensures err { IfErr result (λ fault. (fault ≡ OutOfMemory) ⊎ ((fault ≡ Usage)
        × (command_line (map known_option known.now) (map string_bytes words.now) ≡ None))) }
{
    let Ok(command) = options_command(alloc, name, known) else {
        return Err(CommandFault::OutOfMemory);
    };
    match command.try_get_matches_from(words) {
        Ok(matches) => Ok(matches),
        Err(fault) => {
            if fault.kind() == ErrorKind::OutOfMemory {
                return Err(CommandFault::OutOfMemory);
            }
            Err(CommandFault::Usage)
        }
    }
}

/// The options of a command of this name, which knows these options, from the words after it.
pub(crate) fn read_options<'a>(
    alloc: Global,
    name: &'a str,
    known: &[KnownOption<'a>],
    words: &'a [String],
) -> Result<ArgMatches<'a>, CommandFault>
    ensures ok { IfOk result (λ matches. HasOptions
        (command_line (map known_option known.now) (map string_bytes words.now))
        (found_of matches)) }
    ensures err { IfErr result (λ fault. (fault ≡ OutOfMemory) ⊎ ((fault ≡ Usage)
        × (command_line (map known_option known.now) (map string_bytes words.now) ≡ None))) }
    ensures lack { IfErr result (λ fault. fault ≡ OutOfMemory
        → list_any is_odd (map string_bytes words.now) ≡ false) }
{
    if has_odd_word(words) {
        return Err(CommandFault::Usage);
    }
    read_plain(alloc, name, known, words)
}
