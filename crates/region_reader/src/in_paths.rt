//! Tokens in a path.
ghost use Rattle.std.specs.Prelude.{◌≡◌, ℕ, IfOk};
ghost use Rattle.query_meaning.specs.Tokens.{At};
ghost use Rattle.text_forms.specs.Grammars.{Took};
ghost use Rattle.region_reader.specs.Places.{rest_of};
ghost use Rattle.region_reader.specs.declared.place.Place.TheVariants.{AName, AfterName};

use crate::place::{Frame, PathOf, Place};
use olap_meaning::{List, OutOfMemory, Text};
use query_meaning::{RegionTree, Token};
use std::alloc::Global;
use text_forms::{Stack, is_sign, name_of};

// A token before a name of a path.
pub(crate) fn begin_name(
    cube: Text,
    around: Stack<Frame>,
    of: PathOf,
    mut path: List<Text>,
    token: Token,
) -> Result<Option<Place>, OutOfMemory>
    ensures { IfOk result
        (λ next. (at : ℕ) → Took rest_of (rest_of (AName cube around of path)) (At at token) next) }
{
    let Some(name) = name_of(token) else {
        return Ok(None);
    };
    path.push(name)?;
    Ok(Some(Place::AfterName(cube, around, of, path)))
}

// A token after a name of a path.
pub(crate) fn end_name(
    alloc: Global,
    cube: Text,
    around: Stack<Frame>,
    of: PathOf,
    path: List<Text>,
    token: Token,
) -> Option<Place>
    ensures { (at : ℕ) →
        Took rest_of (rest_of (AfterName cube around of path)) (At at token) result }
{
    if is_sign(&token, '.') {
        return Some(Place::AName(cube, around, of, path));
    }
    match of {
        PathOf::Member => {
            if is_sign(&token, ')') {
                return Some(Place::AfterRegion(cube, around, RegionTree::member(path)));
            }
            None
        }
        PathOf::First => {
            if is_sign(&token, ',') {
                return Some(Place::AName(cube, around, PathOf::Last(path), List::new(alloc)));
            }
            None
        }
        PathOf::Last(first) => {
            if is_sign(&token, ')') {
                return Some(Place::AfterRegion(cube, around, RegionTree::range(first, path)));
            }
            None
        }
    }
}
