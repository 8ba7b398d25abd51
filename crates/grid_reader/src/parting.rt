//! Texts that are parted at a byte.
ghost use Rattle.std.specs.Prelude.{◌≡◌, IfOk, map};
ghost use Rattle.grid_reader.specs.Lines.{parted};

use std::alloc::{AllocError, Global};

/// The parts of a text between the places of a byte.
pub(crate) fn parted(alloc: Global, text: &[u8], byte: u8) -> Result<Vec<&[u8]>, AllocError>
    ensures { IfOk result (λ parts. map (λ x. x.now) parts.items ≡ parted byte text.now) }
{
    text.split(move |b| *b == byte).collect(alloc)
}
