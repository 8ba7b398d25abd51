//! The options of `run`.
ghost use Rattle.std.specs.Prelude.{◌≡◌, ◌⊎◌, IfErr, IfOk, None, Some, false, map, option_map, string_bytes};
ghost use Rattle.std.specs.List.{list_any};
ghost use Rattle.clap.specs.Words.{found_of};
ghost use Rattle.command_words.specs.Commands.{run_command, run_of};
ghost use Rattle.command_words.specs.OddWords.{is_odd};
ghost use Rattle.command_words.specs.Options.{Given};
ghost use Rattle.command_words.specs.Shapes.{HasOptions, run_read};
ghost use Rattle.command_words.specs.declared.fault.CommandFault.TheVariants.{Usage, OutOfMemory};

use crate::fault::CommandFault;
use crate::number::number_or;
use crate::options::{KnownOption, read_options};
use clap::ArgMatches;
use std::alloc::Global;

/// The greatest budget that a command line may give.
pub const MOST_BUDGET: u64 = 10_000_000;

/// The budget where a command line gives none.
pub const USUAL_BUDGET: u64 = 1_000_000;

/// The options of `run`.
#[derive(Debug, Clone, Copy)]
pub struct RunOptions<'a> {
    /// The name of the schema's file.
    pub schema: &'a str,
    /// The most groups that the kept loads have after an answer.
    pub budget: u64,
}

// The options of `run` among those that were found.
fn run_options<'a>(matches: &ArgMatches<'a>) -> Option<RunOptions<'a>>
    ensures { (given : Given) → HasOptions (Some given) (found_of matches.now)
        → option_map run_read result ≡ run_of given }
{
    let schema = matches.get_str("schema")?;
    let budget = number_or(MOST_BUDGET, USUAL_BUDGET, matches.get_str("budget"))?;
    Some(RunOptions { schema, budget })
}

/// The options of `run`, from the words after it: `--schema FILE [ --budget N ]`, in any order.
///
/// FILE and N are words of their own, which are not empty and do not begin with a hyphen, or stand after `--schema=` and
/// `--budget=`, where FILE is only not empty. N is 1 to 20 ASCII digits, and at most `MOST_BUDGET`; where it is not given,
/// the budget is `USUAL_BUDGET`. All else is a usage fault, a call for help and a word too many among it. A word that can be
/// no option and no value is refused before any memory is taken.
pub fn read_run<'a>(alloc: Global, words: &'a [String]) -> Result<RunOptions<'a>, CommandFault>
    ensures ok { IfOk result
        (λ options. run_command (map string_bytes words.now) ≡ Some (run_read options)) }
    ensures err { IfErr result (λ fault. (fault ≡ OutOfMemory)
        ⊎ ((fault ≡ Usage) × (run_command (map string_bytes words.now) ≡ None))) }
    ensures lack { IfErr result (λ fault. fault ≡ OutOfMemory
        → list_any is_odd (map string_bytes words.now) ≡ false) }
{
    let known = [
        KnownOption {
            name: "schema",
            is_required: true,
        },
        KnownOption {
            name: "budget",
            is_required: false,
        },
    ];
    let matches = read_options(alloc, "run", &known, words)?;
    match run_options(&matches) {
        Some(options) => Ok(options),
        None => Err(CommandFault::Usage),
    }
}
