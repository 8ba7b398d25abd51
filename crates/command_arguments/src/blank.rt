//! The argument that is nothing but white.
ghost use Rattle.command_arguments.specs.Blank.{IsBlank, rest_of};
ghost use Rattle.text_forms.specs.Forms.{Answers};

use crate::characters::is_white;
use olap_meaning::OutOfMemory;
use std::alloc::Global;
use text_forms::{Form, ReadFault, read};

/// A reader in the middle of white.
#[derive(Clone, Copy)]
pub(crate) struct BlankReader;

impl Form for BlankReader {
    type Value = ();

    ghost use Rattle.command_arguments.specs.Closings.{blank_closes};

    ghost Meaning = { Unit {0} };

    ghost meaning = { λ v. v };

    ghost rest = { rest_of };

    ghost stands = { λ _. Unit {0} };

    ghost places = { λ at. Unit {0} };

    ghost lacks = { ⊥ };

    fn step(self, _alloc: Global, _at: usize, c: char) -> Result<Option<BlankReader>, OutOfMemory> {
        if is_white(c) {
            Ok(Some(BlankReader))
        } else {
            Ok(None)
        }
    }

    fn finish(self, _alloc: Global) -> Result<Option<()>, OutOfMemory> {
        Ok(Some(()))
    }

    ghost closes = { blank_closes };
}

/// Reads an argument that is nothing but white, or tells the byte at which it stops.
pub fn read_blank(alloc: Global, text: &str) -> Result<(), ReadFault>
    ensures { Answers (λ v. v) IsBlank ⊥ text.now result }
{
    read(alloc, BlankReader, text)
}
