//! The argument that is a position: 1 to 19 digits.
ghost use Rattle.command_arguments.specs.Position.{IsPosition, rest_of, fits};
ghost use Rattle.text_forms.specs.Forms.{Answers};

use crate::characters::{digit_of, is_white};
use olap_meaning::OutOfMemory;
use std::alloc::Global;
use text_forms::{Form, ReadFault, read};

/// A reader in the middle of a position.
#[derive(Clone, Copy)]
pub(crate) enum PositionReader {
    /// Before the first digit.
    Before,
    /// After the digits of this number, where this many more may come.
    Digits { number: u64, left: u8 },
    /// In the white after the digits of this number.
    Behind { number: u64 },
}

impl Form for PositionReader {
    type Value = u64;

    ghost use Rattle.std.specs.Prelude.{ℕ};
    ghost use Rattle.command_arguments.specs.Closings.{position_closes};

    ghost Meaning = { ℕ };

    ghost meaning = { λ number. number };

    ghost rest = { rest_of };

    ghost stands = { fits };

    ghost places = { λ at. Unit {0} };

    ghost lacks = { ⊥ };

    fn step(
        self,
        _alloc: Global,
        _at: usize,
        c: char,
    ) -> Result<Option<PositionReader>, OutOfMemory> {
        match self {
            PositionReader::Before => match digit_of(c) {
                Some(digit) => Ok(Some(PositionReader::Digits {
                    number: digit,
                    left: 18,
                })),
                None if is_white(c) => Ok(Some(PositionReader::Before)),
                None => Ok(None),
            },
            PositionReader::Digits { number, left } => match digit_of(c) {
                Some(digit) if left > 0 => Ok(Some(PositionReader::Digits {
                    number: number * 10 + digit,
                    left: left - 1,
                })),
                Some(_) => Ok(None),
                None if is_white(c) => Ok(Some(PositionReader::Behind { number })),
                None => Ok(None),
            },
            PositionReader::Behind { number } => {
                if is_white(c) {
                    Ok(Some(PositionReader::Behind { number }))
                } else {
                    Ok(None)
                }
            }
        }
    }

    fn finish(self, _alloc: Global) -> Result<Option<u64>, OutOfMemory> {
        match self {
            PositionReader::Before => Ok(None),
            PositionReader::Digits { number, left: _ } => Ok(Some(number)),
            PositionReader::Behind { number } => Ok(Some(number)),
        }
    }

    ghost closes = { position_closes };
}

/// Reads a position, or tells the byte at which the text stops.
pub fn read_position(alloc: Global, text: &str) -> Result<u64, ReadFault>
    ensures { Answers (λ number. number) IsPosition ⊥ text.now result }
{
    read(alloc, PositionReader::Before, text)
}
