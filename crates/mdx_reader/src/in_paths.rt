//! Tokens in a path.
ghost use Rattle.std.specs.Prelude.{◌≡◌, ℕ, IfOk, IfSome};
ghost use Rattle.query_meaning.specs.Tokens.{At};
ghost use Rattle.text_forms.specs.Grammars.{Took};
ghost use Rattle.query_meaning.specs.declared.token.Token.TheVariants.{Word, Sign};
ghost use Rattle.query_meaning.specs.Keywords.{keyword_text};
ghost use Rattle.mdx_reader.specs.Words.{suffix_key};
ghost use Rattle.mdx_reader.specs.Places.{rest_of, stands, sliced};
ghost use Rattle.mdx_reader.specs.declared.place.PathOf.TheVariants.{InTuple, InSlicer};
ghost use Rattle.mdx_reader.specs.declared.place.Place.TheVariants.{AfterName, AfterDot};

use crate::in_sets::end_set;
use crate::kept::Kept;
use crate::place::{Base, Frame, Head, PathOf, Place};
use olap_meaning::{List, OutOfMemory, Text};
use query_meaning::{Keyword, Picks, Query, SetText, Token};
use std::alloc::Global;
use text_forms::{Stack, is_sign, is_word, name_of};

// A token after a name of a path in a tuple, which is no dot.
fn end_in_tuple(
    head: Head,
    around: Stack<Frame>,
    from: u32,
    mut front: List<List<Text>>,
    path: List<Text>,
    token: &Token,
) -> Result<Option<Place>, OutOfMemory>
    requires { ¬ token.now ≡ Sign 46 }
    ensures kept { IfOk result (λ next. IfSome next stands) }
    ensures takes { IfOk result (λ next. (at : ℕ)
        → Took rest_of
        (rest_of (AfterName (InTuple head around from front) path))
        (At at token.now) next) }
{
    if is_sign(token, ',') {
        front.push(path)?;
        return Ok(Some(Place::APath(PathOf::InTuple(head, around, from, front))));
    }
    if is_sign(token, ')') {
        front.push(path)?;
        return Ok(Some(Place::AfterSet(head, around, SetText::tuple(from, front))));
    }
    Ok(None)
}

// A token after a name of a path in the slicer's tuple, which is no dot.
fn end_in_slicer(
    alloc: Global,
    base: Base,
    mut front: List<List<Text>>,
    path: List<Text>,
    token: &Token,
) -> Result<Option<Place>, OutOfMemory>
    requires { ¬ token.now ≡ Sign 46 }
    ensures kept { IfOk result (λ next. IfSome next stands) }
    ensures takes { IfOk result (λ next. (at : ℕ)
        → Took rest_of (rest_of (AfterName (InSlicer base front) path)) (At at token.now) next) }
{
    if is_sign(token, ',') {
        front.push(path)?;
        return Ok(Some(Place::APath(PathOf::InSlicer(base, front))));
    }
    if is_sign(token, ')') {
        front.push(path)?;
        let query = Kept::new(alloc, query_by(base, front))?;
        return Ok(Some(Place::Done(query)));
    }
    Ok(None)
}

// A token after a name of a path.
pub(crate) fn end_name(
    alloc: Global,
    of: PathOf,
    path: List<Text>,
    token: &Token,
) -> Result<Option<Place>, OutOfMemory>
    ensures kept { IfOk result (λ next. IfSome next stands) }
    ensures takes { IfOk result (λ next. (at : ℕ)
        → Took rest_of (rest_of (AfterName of path)) (At at token.now) next) }
{
    if is_sign(token, '.') {
        return Ok(Some(Place::AfterDot(of, path)));
    }
    match of {
        PathOf::Alone(head, around, from) => {
            let set = SetText::picked(from, path, Picks::Itself);
            end_set(alloc, head, around, set, token)
        }
        PathOf::InTuple(head, around, from, front) => {
            end_in_tuple(head, around, from, front, path, token)
        }
        PathOf::Slicer(_) => Ok(None),
        PathOf::InSlicer(base, front) => end_in_slicer(alloc, base, front, path, token),
    }
}

// The query of what stands before a slicer, and of the slicer.
pub(crate) fn query_by(base: Base, slicer: List<List<Text>>) -> Query
    ensures { result ≡ sliced base slicer }
{
    let Base {
        columns,
        rows,
        cube,
    } = base;
    let rows = match rows {
        Some(rows) => Some(rows.into_inner()),
        None => None,
    };
    Query {
        columns: columns.into_inner(),
        rows,
        cube,
        slicer,
    }
}

// MEMBERS or CHILDREN after a dot of a path.
fn end_picked(of: PathOf, path: List<Text>, children: bool) -> Option<Place>
    ensures kept { IfSome result stands }
    ensures takes { (at : ℕ) →
        Took rest_of (rest_of (AfterDot of path))
        (At at (Word (keyword_text (suffix_key children)))) result }
{
    match of {
        PathOf::Alone(head, around, from) => {
            if children {
                return Some(Place::AfterSet(
                    head,
                    around,
                    SetText::picked(from, path, Picks::Children),
                ));
            }
            Some(Place::AfterSet(head, around, SetText::picked(from, path, Picks::Members)))
        }
        PathOf::InTuple(_, _, _, _) => None,
        PathOf::Slicer(_) => None,
        PathOf::InSlicer(_, _) => None,
    }
}

// A token after a dot of a path.
pub(crate) fn end_dot(
    of: PathOf,
    mut path: List<Text>,
    token: Token,
) -> Result<Option<Place>, OutOfMemory>
    ensures kept { IfOk result (λ next. IfSome next stands) }
    ensures takes { IfOk result
        (λ next. (at : ℕ) → Took rest_of (rest_of (AfterDot of path)) (At at token) next) }
{
    if is_word(&token, Keyword::Members) {
        return Ok(end_picked(of, path, false));
    }
    if is_word(&token, Keyword::Children) {
        return Ok(end_picked(of, path, true));
    }
    let Some(name) = name_of(token) else {
        return Ok(None);
    };
    path.push(name)?;
    Ok(Some(Place::AfterName(of, path)))
}
