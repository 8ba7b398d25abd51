//! Reads a flush, a token at a time.
ghost use Rattle.std.specs.Prelude.{◌≡◌};
ghost use Rattle.region_reader.specs.FlushTexts.{ReadsFlush};

use crate::in_paths::{begin_name, end_name};
use crate::in_regions::{begin_cube, begin_region, end_region, open};
use crate::place::Place;
use crate::words::begins_region;
use olap_meaning::OutOfMemory;
use query_meaning::{RegionText, Token};
use std::alloc::Global;
use text_forms::{Grammar, ReadFault, read_tokens};

impl Grammar for Place {
    type Tree = RegionText;

    ghost use Rattle.query_meaning.specs.declared.region_text.RegionText.{RegionText};
    ghost use Rattle.region_reader.specs.Places.{rest_of};
    ghost use Rattle.region_reader.specs.Closings.{place_closes};

    ghost Meaning = { RegionText };

    ghost meaning = { λ flush. flush };

    ghost rest = { rest_of };

    ghost stands = { λ _. Unit {0} };

    ghost places = { λ _. Unit {0} };

    fn take(self, alloc: Global, _at: usize, token: Token) -> Result<Option<Place>, OutOfMemory> {
        match self {
            Place::ACube => Ok(begin_cube(alloc, token)),
            Place::ARegion(cube, around, left) => Ok(begin_region(cube, around, left, token)),
            Place::Opening(cube, around, opens) => open(alloc, cube, around, opens, token),
            Place::AName(cube, around, of, path) => begin_name(cube, around, of, path, token),
            Place::AfterName(cube, around, of, path) => {
                Ok(end_name(alloc, cube, around, of, path, token))
            }
            Place::AfterRegion(cube, around, region) => end_region(cube, around, region, token),
        }
    }

    fn wants_word(&self, front: &str) -> bool {
        match self {
            Place::ARegion(_, _, left) => begins_region(front, *left),
            Place::ACube => false,
            Place::Opening(_, _, _) => false,
            Place::AName(_, _, _, _) => false,
            Place::AfterName(_, _, _, _) => false,
            Place::AfterRegion(_, _, _) => false,
        }
    }

    fn wants_name(&self) -> bool {
        match self {
            Place::ACube => true,
            Place::AName(_, _, _, _) => true,
            Place::ARegion(_, _, _) => false,
            Place::Opening(_, _, _) => false,
            Place::AfterName(_, _, _, _) => false,
            Place::AfterRegion(_, _, _) => false,
        }
    }

    fn finish(self, _alloc: Global) -> Result<Option<RegionText>, OutOfMemory> {
        match self {
            Place::AfterRegion(cube, mut around, region) => match around.pop() {
                None => Ok(Some(RegionText { cube, region })),
                Some(_) => Ok(None),
            },
            Place::ACube => Ok(None),
            Place::ARegion(_, _, _) => Ok(None),
            Place::Opening(_, _, _) => Ok(None),
            Place::AName(_, _, _, _) => Ok(None),
            Place::AfterName(_, _, _, _) => Ok(None),
        }
    }

    ghost closes = { place_closes };
}

/// Why a text is no flush.
#[derive(Clone, Copy, Debug, PartialEq, Eq)]
pub enum RegionTextFault {
    /// No flush is written so. The text up to this byte is the longest with which a flush begins.
    SyntaxAt { byte: usize },
    OutOfMemory,
}

/// Reads a flush, or tells the byte of its first fault.
pub fn read_region(alloc: Global, text: &str) -> Result<RegionText, RegionTextFault>
    ensures { ReadsFlush text.now result }
{
    match read_tokens(alloc, Place::ACube, text) {
        Ok(flush) => Ok(flush),
        Err(ReadFault::StopsAt { byte }) => Err(RegionTextFault::SyntaxAt { byte }),
        Err(ReadFault::OutOfMemory) => Err(RegionTextFault::OutOfMemory),
    }
}
