//! Tokens before, in and after a region.
ghost use Rattle.std.specs.Prelude.{◌≡◌, ℕ, IfOk};
ghost use Rattle.query_meaning.specs.Tokens.{At};
ghost use Rattle.text_forms.specs.Grammars.{Took};
ghost use Rattle.region_reader.specs.Places.{rest_of};
ghost use Rattle.region_reader.specs.declared.place.Place.TheVariants.{ACube, ARegion, Opening, AfterRegion};

use crate::place::{Frame, Opens, PathOf, Place};
use olap_meaning::{List, OutOfMemory, Text};
use query_meaning::{Joins, Keyword, RegionTree, RegionTrees, Token};
use std::alloc::Global;
use text_forms::{Stack, is_sign, is_word, name_of};

// The name of the cube.
pub(crate) fn begin_cube(alloc: Global, token: Token) -> Option<Place>
    ensures { (at : ℕ) → Took rest_of (rest_of ACube) (At at token) result }
{
    let Some(cube) = name_of(token) else {
        return None;
    };
    Some(Place::ARegion(cube, Stack::new(alloc), 15))
}

// A token before a region.
pub(crate) fn begin_region(
    cube: Text,
    around: Stack<Frame>,
    left: u8,
    token: Token,
) -> Option<Place>
    ensures { (at : ℕ) → Took rest_of (rest_of (ARegion cube around left)) (At at token) result }
{
    if is_word(&token, Keyword::Member) {
        return Some(Place::Opening(cube, around, Opens::Member));
    }
    if is_word(&token, Keyword::Range) {
        return Some(Place::Opening(cube, around, Opens::Range));
    }
    if is_word(&token, Keyword::Measures) {
        return Some(Place::AfterRegion(cube, around, RegionTree::measures()));
    }
    if left == 0 {
        return None;
    }
    if is_word(&token, Keyword::Crossjoin) {
        return Some(Place::Opening(cube, around, Opens::Parts(Joins::Crossjoin, left - 1)));
    }
    if is_word(&token, Keyword::Union) {
        return Some(Place::Opening(cube, around, Opens::Parts(Joins::Union, left - 1)));
    }
    None
}

// A token after a keyword.
pub(crate) fn open(
    alloc: Global,
    cube: Text,
    mut around: Stack<Frame>,
    opens: Opens,
    token: Token,
) -> Result<Option<Place>, OutOfMemory>
    ensures { IfOk result
        (λ next. (at : ℕ) → Took rest_of (rest_of (Opening cube around opens)) (At at token) next) }
{
    if !is_sign(&token, '(') {
        return Ok(None);
    }
    match opens {
        Opens::Member => Ok(Some(Place::AName(cube, around, PathOf::Member, List::new(alloc)))),
        Opens::Range => Ok(Some(Place::AName(cube, around, PathOf::First, List::new(alloc)))),
        Opens::Parts(joins, left) => {
            let front = RegionTrees::new(alloc);
            around.push(Frame { joins, left, front })?;
            Ok(Some(Place::ARegion(cube, around, left)))
        }
    }
}

// A token after a region.
pub(crate) fn end_region(
    cube: Text,
    mut around: Stack<Frame>,
    region: RegionTree,
    token: Token,
) -> Result<Option<Place>, OutOfMemory>
    ensures { IfOk result (λ next. (at : ℕ) →
        Took rest_of (rest_of (AfterRegion cube around region)) (At at token) next) }
{
    let Some(frame) = around.pop() else {
        return Ok(None);
    };
    let Frame {
        joins,
        left,
        mut front,
    } = frame;
    if is_sign(&token, ')') {
        front.push(region)?;
        return Ok(Some(Place::AfterRegion(cube, around, RegionTree::parts(joins, front))));
    }
    if !is_sign(&token, ',') {
        return Ok(None);
    }
    front.push(region)?;
    around.push(Frame { joins, left, front })?;
    Ok(Some(Place::ARegion(cube, around, left)))
}
