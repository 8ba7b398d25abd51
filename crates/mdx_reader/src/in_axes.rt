//! Tokens around the axes.
ghost use Rattle.std.specs.Prelude.{◌≡◌, ℕ, IfOk, IfSome};
ghost use Rattle.query_meaning.specs.Tokens.{At};
ghost use Rattle.text_forms.specs.Grammars.{Took};
ghost use Rattle.mdx_reader.specs.Places.{rest_of, stands};
ghost use Rattle.mdx_reader.specs.declared.place.Place.TheVariants.{Start, AnAxis, Non, APath, On, AfterColumns, AfterRows, ACube, AfterCube, ASlicer};

use crate::in_sets::{begin_set, one_name};
use crate::kept::Kept;
use crate::place::{Base, Head, PathOf, Place, Which};
use olap_meaning::{List, OutOfMemory};
use query_meaning::{AxisText, Keyword, Token};
use std::alloc::Global;
use text_forms::{Stack, is_sign, is_word, name_of};

// SELECT.
pub(crate) fn begin(token: Token) -> Option<Place>
    ensures kept { IfSome result stands }
    ensures takes { (at : ℕ) → Took rest_of (rest_of Start) (At at token) result }
{
    if is_word(&token, Keyword::Select) {
        return Some(Place::AnAxis(Which::Columns));
    }
    None
}

// A token before an axis.
pub(crate) fn begin_axis(
    alloc: Global,
    which: Which,
    at: u32,
    token: Token,
) -> Result<Option<Place>, OutOfMemory>
    ensures kept { IfOk result (λ next. IfSome next stands) }
    ensures takes { IfOk result (λ next. Took rest_of (rest_of (AnAxis which)) (At at token) next) }
{
    if is_word(&token, Keyword::Non) {
        return Ok(Some(Place::Non(which)));
    }
    let head = Head {
        which,
        non_empty: false,
    };
    begin_set(alloc, head, Stack::new(alloc), 15, at, token)
}

// EMPTY.
pub(crate) fn begin_empty(alloc: Global, which: Which, token: Token) -> Option<Place>
    ensures kept { IfSome result stands }
    ensures takes { (at : ℕ) → Took rest_of (rest_of (Non which)) (At at token) result }
{
    if is_word(&token, Keyword::Empty) {
        let head = Head {
            which,
            non_empty: true,
        };
        return Some(Place::ASet(head, Stack::new(alloc), 15));
    }
    None
}

// A token after ON.
pub(crate) fn end_axis(which: Which, axis: Kept<AxisText>, token: Token) -> Option<Place>
    ensures kept { IfSome result stands }
    ensures takes { (at : ℕ) → Took rest_of (rest_of (On which axis)) (At at token) result }
{
    match which {
        Which::Columns => {
            if is_word(&token, Keyword::Columns) {
                return Some(Place::AfterColumns(axis));
            }
            if is_word(&token, Keyword::Zero) {
                return Some(Place::AfterColumns(axis));
            }
            None
        }
        Which::Rows(columns) => {
            if is_word(&token, Keyword::Rows) {
                return Some(Place::AfterRows(columns, axis));
            }
            if is_word(&token, Keyword::One) {
                return Some(Place::AfterRows(columns, axis));
            }
            None
        }
    }
}

// A token after the columns.
pub(crate) fn end_columns(columns: Kept<AxisText>, token: Token) -> Option<Place>
    ensures kept { IfSome result stands }
    ensures takes { (at : ℕ) → Took rest_of (rest_of (AfterColumns columns)) (At at token) result }
{
    if is_sign(&token, ',') {
        return Some(Place::AnAxis(Which::Rows(columns)));
    }
    if is_word(&token, Keyword::From) {
        return Some(Place::ACube(columns, None));
    }
    None
}

// A token after the rows.
pub(crate) fn end_rows(columns: Kept<AxisText>, rows: Kept<AxisText>, token: Token) -> Option<Place>
    ensures kept { IfSome result stands }
    ensures takes { (at : ℕ) →
        Took rest_of (rest_of (AfterRows columns rows)) (At at token) result }
{
    if is_word(&token, Keyword::From) {
        return Some(Place::ACube(columns, Some(rows)));
    }
    None
}

// A token after FROM.
pub(crate) fn begin_cube(
    columns: Kept<AxisText>,
    rows: Option<Kept<AxisText>>,
    token: Token,
) -> Option<Place>
    ensures kept { IfSome result stands }
    ensures takes { (at : ℕ) → Took rest_of (rest_of (ACube columns rows)) (At at token) result }
{
    let Some(cube) = name_of(token) else {
        return None;
    };
    Some(Place::AfterCube(Base {
        columns,
        rows,
        cube,
    }))
}

// A token after the cube.
pub(crate) fn end_cube(base: Base, token: Token) -> Option<Place>
    ensures kept { IfSome result stands }
    ensures takes { (at : ℕ) → Took rest_of (rest_of (AfterCube base)) (At at token) result }
{
    if is_word(&token, Keyword::Where) {
        return Some(Place::ASlicer(base));
    }
    None
}

// A token after WHERE.
pub(crate) fn begin_slicer(
    alloc: Global,
    base: Base,
    token: Token,
) -> Result<Option<Place>, OutOfMemory>
    ensures kept { IfOk result (λ next. IfSome next stands) }
    ensures takes { IfOk result
        (λ next. (at : ℕ) → Took rest_of (rest_of (ASlicer base)) (At at token) next) }
{
    if is_sign(&token, '(') {
        return Ok(Some(Place::APath(PathOf::InSlicer(base, List::new(alloc)))));
    }
    let Some(name) = name_of(token) else {
        return Ok(None);
    };
    let path = one_name(alloc, name)?;
    Ok(Some(Place::AfterName(PathOf::Slicer(base), path)))
}

// A token before a path.
pub(crate) fn begin_path(
    alloc: Global,
    of: PathOf,
    token: Token,
) -> Result<Option<Place>, OutOfMemory>
    ensures kept { IfOk result (λ next. IfSome next stands) }
    ensures takes { IfOk result
        (λ next. (at : ℕ) → Took rest_of (rest_of (APath of)) (At at token) next) }
{
    let Some(name) = name_of(token) else {
        return Ok(None);
    };
    let path = one_name(alloc, name)?;
    Ok(Some(Place::AfterName(of, path)))
}
