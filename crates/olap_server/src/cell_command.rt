//! The words of the command `cell`.
ghost use Rattle.std.specs.Prelude.{◌≡◌, Some, None, IfOk, OnErr, IsSome, is_some, map, string_bytes};
ghost use Rattle.command_words.specs.Commands.{cell_command, pairs_of};

use olap_meaning::{Aggregator, List, OutOfMemory, Text};
use std::alloc::Global;
use std::marker::Model;

/// The command `cell`: a query of one file.
#[derive(Drop)]
pub(crate) struct CellCommand<'a> {
    file: &'a str,
    column: &'a str,
    aggregator: Aggregator,
    pairs: List<(Text, Text)>,
}

impl<'a> Model for CellCommand<'a> {
    ghost use Rattle.command_words.specs.Commands.{CellCommand as Command};

    ghost Value = { Command };

    ghost view = { λ c. record { file = c.file.now; query = record { column = c.column.now; aggregator = c.aggregator; pairs = c.pairs } } };
}

impl<'a> CellCommand<'a> {
    pub(crate) fn file(&self) -> &str
        ensures { result.now ≡ self.now.file }
    {
        self.file
    }

    pub(crate) fn column(&self) -> &str
        ensures { result.now ≡ self.now.query.column }
    {
        self.column
    }

    pub(crate) fn aggregator(&self) -> Aggregator
        ensures { result ≡ self.now.query.aggregator }
    {
        self.aggregator
    }

    pub(crate) fn pairs(&self) -> &[(Text, Text)]
        ensures { result.now ≡ self.now.query.pairs }
    {
        self.pairs.as_slice()
    }
}

// Whether words stand two by two.
fn are_pairs(words: &[String]) -> bool
    ensures { result ≡ is_some (pairs_of (map string_bytes words.now)) }
{
    words.len() % 2 == 0
}

// Words two by two.
fn read_pairs(alloc: Global, words: &[String]) -> Result<List<(Text, Text)>, OutOfMemory>
    requires { IsSome (pairs_of (map string_bytes words.now)) }
    ensures { IfOk result (λ pairs. pairs_of (map string_bytes words.now) ≡ Some pairs) }
{
    let mut pairs = List::new(alloc);
    for i in 0..words.len() / 2 {
        let column = Text::from_str(alloc, words[2 * i].as_str())?;
        let value = Text::from_str(alloc, words[2 * i + 1].as_str())?;
        pairs.push((column, value))?;
    }
    Ok(pairs)
}

/// The command of the words after `cell`, read by their places; None where they are no such command.
pub(crate) fn read_cell<'a>(
    alloc: Global,
    words: &'a [String],
) -> Result<Option<CellCommand<'a>>, OutOfMemory>
    ensures command { IfOk result (λ command. command ≡ cell_command (map string_bytes words.now)) }
    ensures err { OnErr result (IsSome (cell_command (map string_bytes words.now))) }
{
    if words.len() < 3 {
        return Ok(None);
    }
    let Some(aggregator) = Aggregator::named(words[2].as_str()) else {
        return Ok(None);
    };
    let rest = &words[3..];
    if !are_pairs(rest) {
        return Ok(None);
    }
    let pairs = read_pairs(alloc, rest)?;
    Ok(Some(CellCommand {
        file: words[0].as_str(),
        column: words[1].as_str(),
        aggregator,
        pairs,
    }))
}
