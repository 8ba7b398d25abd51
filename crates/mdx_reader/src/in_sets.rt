//! Tokens before, in and after a set.
ghost use Rattle.std.specs.Prelude.{◌≡◌, ◌<◌, ℕ, ◌∷◌, [], IfOk, IfSome};
ghost use Rattle.query_meaning.specs.Tokens.{At};
ghost use Rattle.text_forms.specs.Grammars.{Took};
ghost use Rattle.mdx_reader.specs.Places.{rest_of, stands};
ghost use Rattle.mdx_reader.specs.declared.place.Place.TheVariants.{ASet, AnItem, Crossing, AfterSet};
ghost use Rattle.mdx_reader.specs.declared.place.Frame.TheVariants.{Braces, First, Second};

use crate::kept::Kept;
use crate::place::{Frame, Head, PathOf, Place};
use olap_meaning::{List, OutOfMemory, Text};
use query_meaning::{AxisText, Keyword, SetText, SetTexts, Token};
use std::alloc::Global;
use text_forms::{Stack, is_sign, is_word, name_of};

// A path of one name.
pub(crate) fn one_name(alloc: Global, name: Text) -> Result<List<Text>, OutOfMemory>
    ensures { IfOk result (λ path. path ≡ name ∷ []) }
{
    let mut path = List::new(alloc);
    path.push(name)?;
    Ok(path)
}

// A token before a set.
pub(crate) fn begin_set(
    alloc: Global,
    head: Head,
    around: Stack<Frame>,
    left: u8,
    at: u32,
    token: Token,
) -> Result<Option<Place>, OutOfMemory>
    ensures kept { IfOk result (λ next. IfSome next stands) }
    ensures takes { IfOk result
        (λ next. Took rest_of (rest_of (ASet head around left)) (At at token) next) }
{
    if is_sign(&token, '{') {
        return Ok(Some(Place::AnItem(head, around, at, left)));
    }
    if is_sign(&token, '(') {
        return Ok(Some(Place::APath(PathOf::InTuple(head, around, at, List::new(alloc)))));
    }
    if is_word(&token, Keyword::Crossjoin) {
        if left == 0 {
            return Ok(None);
        }
        return Ok(Some(Place::Crossing(head, around, at, left)));
    }
    let Some(name) = name_of(token) else {
        return Ok(None);
    };
    let path = one_name(alloc, name)?;
    Ok(Some(Place::AfterName(PathOf::Alone(head, around, at), path)))
}

// A token after "{".
pub(crate) fn begin_item(
    alloc: Global,
    head: Head,
    mut around: Stack<Frame>,
    from: u32,
    left: u8,
    at: u32,
    token: Token,
) -> Result<Option<Place>, OutOfMemory>
    ensures kept { IfOk result (λ next. IfSome next stands) }
    ensures takes { IfOk result
        (λ next. Took rest_of (rest_of (AnItem head around from left)) (At at token) next) }
{
    if is_sign(&token, '}') {
        return Ok(Some(Place::AfterSet(head, around, SetText::braces(from, SetTexts::new(alloc)))));
    }
    if left == 0 {
        return Ok(None);
    }
    around.push(Frame::Braces(from, left - 1, SetTexts::new(alloc)))?;
    begin_set(alloc, head, around, left - 1, at, token)
}

// A token after Crossjoin.
pub(crate) fn begin_cross(
    head: Head,
    mut around: Stack<Frame>,
    from: u32,
    left: u8,
    token: Token,
) -> Result<Option<Place>, OutOfMemory>
    requires { 0 < left }
    ensures kept { IfOk result (λ next. IfSome next stands) }
    ensures takes { IfOk result (λ next. (at : ℕ) →
        Took rest_of (rest_of (Crossing head around from left)) (At at token) next) }
{
    if is_sign(&token, '(') {
        around.push(Frame::First(from, left - 1))?;
        return Ok(Some(Place::ASet(head, around, left - 1)));
    }
    Ok(None)
}

// A token after the set of an axis.
fn end_whole(
    alloc: Global,
    head: Head,
    set: SetText,
    token: &Token,
) -> Result<Option<Place>, OutOfMemory>
    ensures kept { IfOk result (λ next. IfSome next stands) }
    ensures takes { IfOk result
        (λ next. (at : ℕ) → Took rest_of (rest_of (AfterSet head [] set)) (At at token.now) next) }
{
    if is_word(token, Keyword::On) {
        let Head { which, non_empty } = head;
        let axis = Kept::new(alloc, AxisText { non_empty, set })?;
        return Ok(Some(Place::On(which, axis)));
    }
    Ok(None)
}

// A token after an item in braces.
fn end_item(
    head: Head,
    mut around: Stack<Frame>,
    opening: (u32, u8),
    mut front: SetTexts,
    set: SetText,
    token: &Token,
) -> Result<Option<Place>, OutOfMemory>
    ensures kept { IfOk result (λ next. IfSome next stands) }
    ensures takes { IfOk result (λ next. (at : ℕ)
        → Took rest_of
        (rest_of (AfterSet head (Braces opening.0 opening.1 front ∷ around) set))
        (At at token.now) next) }
{
    let (from, left) = opening;
    if is_sign(token, '}') {
        front.push(set)?;
        return Ok(Some(Place::AfterSet(head, around, SetText::braces(from, front))));
    }
    if is_sign(token, ',') {
        front.push(set)?;
        around.push(Frame::Braces(from, left, front))?;
        return Ok(Some(Place::ASet(head, around, left)));
    }
    Ok(None)
}

// A token after the first part of a Crossjoin.
fn end_first(
    head: Head,
    mut around: Stack<Frame>,
    opening: (u32, u8),
    set: SetText,
    token: &Token,
) -> Result<Option<Place>, OutOfMemory>
    ensures kept { IfOk result (λ next. IfSome next stands) }
    ensures takes { IfOk result (λ next. (at : ℕ)
        → Took rest_of
        (rest_of (AfterSet head (First opening.0 opening.1 ∷ around) set))
        (At at token.now) next) }
{
    let (from, left) = opening;
    if is_sign(token, ',') {
        around.push(Frame::Second(from, set))?;
        return Ok(Some(Place::ASet(head, around, left)));
    }
    Ok(None)
}

// A token after the second part of a Crossjoin.
fn end_second(
    alloc: Global,
    head: Head,
    around: Stack<Frame>,
    from: u32,
    first: SetText,
    set: SetText,
    token: &Token,
) -> Result<Option<Place>, OutOfMemory>
    ensures kept { IfOk result (λ next. IfSome next stands) }
    ensures takes { IfOk result (λ next. (at : ℕ)
        → Took rest_of
        (rest_of (AfterSet head (Second from first ∷ around) set))
        (At at token.now) next) }
{
    if is_sign(token, ')') {
        let cross = SetText::cross(alloc, from, first, set)?;
        return Ok(Some(Place::AfterSet(head, around, cross)));
    }
    Ok(None)
}

// A token after a set.
pub(crate) fn end_set(
    alloc: Global,
    head: Head,
    mut around: Stack<Frame>,
    set: SetText,
    token: &Token,
) -> Result<Option<Place>, OutOfMemory>
    ensures kept { IfOk result (λ next. IfSome next stands) }
    ensures takes { IfOk result (λ next. (at : ℕ)
        → Took rest_of (rest_of (AfterSet head around set)) (At at token.now) next) }
{
    match around.pop() {
        None => end_whole(alloc, head, set, token),
        Some(Frame::Braces(from, left, front)) => {
            end_item(head, around, (from, left), front, set, token)
        }
        Some(Frame::First(from, left)) => end_first(head, around, (from, left), set, token),
        Some(Frame::Second(from, first)) => {
            end_second(alloc, head, around, from, first, set, token)
        }
    }
}
