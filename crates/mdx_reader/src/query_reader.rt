//! Reads a query, a token at a time.
ghost use Rattle.std.specs.Prelude.{◌≡◌, ◌<◌, ◌^◌, ◌∷◌, [], IfOk, IfSome, length, option_map};
ghost use Rattle.text_forms.specs.Forms.{Finishes};
ghost use Rattle.query_meaning.specs.Tokens.{At};
ghost use Rattle.text_forms.specs.Grammars.{Took};
ghost use Rattle.mdx_reader.specs.Places.{IsAroundAxes, IsOutsideSets, rest_of, stands};
ghost use Rattle.mdx_reader.specs.declared.place.Place.TheVariants.{AfterName};
ghost use Rattle.mdx_reader.specs.QueryTexts.{ReadsQuery};

use crate::in_axes::{
    begin, begin_axis, begin_cube, begin_empty, begin_path, begin_slicer, end_axis, end_columns,
    end_cube, end_rows,
};
use crate::in_paths::{end_dot, end_name, query_by};
use crate::in_sets::{begin_cross, begin_item, begin_set, end_set};
use crate::place::{PathOf, Place, Which};
use olap_meaning::{List, OutOfMemory, Text};
use query_meaning::{Keyword, Query, Token};
use std::alloc::Global;
use text_forms::{Grammar, ReadFault, begins_either, begins_keyword, read_tokens};

// A slicer of one path.
fn one_path(alloc: Global, path: List<Text>) -> Result<List<List<Text>>, OutOfMemory>
    ensures { IfOk result (λ paths. paths ≡ path ∷ []) }
{
    let mut paths = List::new(alloc);
    paths.push(path)?;
    Ok(paths)
}

// The query that ends with this path of its slicer.
fn finish_path(alloc: Global, of: PathOf, path: List<Text>) -> Result<Option<Query>, OutOfMemory>
    ensures { IfOk result
        (λ found. Finishes (rest_of (AfterName of path)) (option_map (λ query. query) found)) }
{
    match of {
        PathOf::Slicer(base) => {
            let slicer = one_path(alloc, path)?;
            Ok(Some(query_by(base, slicer)))
        }
        PathOf::Alone(_, _, _) => Ok(None),
        PathOf::InTuple(_, _, _, _) => Ok(None),
        PathOf::InSlicer(_, _) => Ok(None),
    }
}

// Takes a token in a path or around the axes. Each of these functions has few places, since a call takes time for all.
fn take_outside_sets(
    alloc: Global,
    place: Place,
    at: u32,
    token: Token,
) -> Result<Option<Place>, OutOfMemory>
    requires { IsOutsideSets place }
    ensures kept { IfOk result (λ next. IfSome next stands) }
    ensures takes { IfOk result (λ next. Took rest_of (rest_of place) (At at token) next) }
{
    match place {
        Place::APath(of) => begin_path(alloc, of, token),
        Place::AfterName(of, path) => end_name(alloc, of, path, &token),
        Place::AfterDot(of, path) => end_dot(of, path, token),
        other => take_around_axes(alloc, other, at, token),
    }
}

// Takes a token around the axes.
fn take_around_axes(
    alloc: Global,
    place: Place,
    at: u32,
    token: Token,
) -> Result<Option<Place>, OutOfMemory>
    requires { IsAroundAxes place }
    ensures kept { IfOk result (λ next. IfSome next stands) }
    ensures takes { IfOk result (λ next. Took rest_of (rest_of place) (At at token) next) }
{
    match place {
        Place::Start => Ok(begin(token)),
        Place::AnAxis(which) => begin_axis(alloc, which, at, token),
        Place::Non(which) => Ok(begin_empty(alloc, which, token)),
        Place::On(which, axis) => Ok(end_axis(which, axis, token)),
        Place::AfterColumns(columns) => Ok(end_columns(columns, token)),
        Place::AfterRows(columns, rows) => Ok(end_rows(columns, rows, token)),
        Place::ACube(columns, rows) => Ok(begin_cube(columns, rows, token)),
        Place::AfterCube(base) => Ok(end_cube(base, token)),
        Place::ASlicer(base) => begin_slicer(alloc, base, token),
        // After a whole query, since it stands in no set and no path.
        other => {
            drop(other);
            Ok(None)
        }
    }
}

impl Grammar for Place {
    type Tree = Query;

    ghost use Rattle.std.specs.Prelude.{◌<◌, ◌^◌};
    ghost use Rattle.query_meaning.specs.declared.query.Query.{Query};
    ghost use Rattle.mdx_reader.specs.Places.{rest_of, stands};
    ghost use Rattle.mdx_reader.specs.Closings.{place_closes};

    ghost Meaning = { Query };

    ghost meaning = { λ query. query };

    ghost rest = { rest_of };

    ghost stands = { stands };

    ghost places = { λ at. at < 2 ^ 32 };

    fn take(self, alloc: Global, at: usize, token: Token) -> Result<Option<Place>, OutOfMemory> {
        let at = at as u32;
        match self {
            Place::ASet(head, around, left) => begin_set(alloc, head, around, left, at, token),
            Place::AnItem(head, around, from, left) => {
                begin_item(alloc, head, around, from, left, at, token)
            }
            Place::Crossing(head, around, from, left) => {
                begin_cross(head, around, from, left, token)
            }
            Place::AfterSet(head, around, set) => end_set(alloc, head, around, set, &token),
            other => take_outside_sets(alloc, other, at, token),
        }
    }

    fn wants_word(&self, front: &str) -> bool {
        match self {
            Place::Start => begins_keyword(front, Keyword::Select),
            Place::AnAxis(_) => begins_either(front, Keyword::Non, Keyword::Crossjoin),
            Place::Non(_) => begins_keyword(front, Keyword::Empty),
            Place::ASet(_, _, left) => {
                if *left == 0 {
                    return false;
                }
                begins_keyword(front, Keyword::Crossjoin)
            }
            Place::AnItem(_, _, _, left) => {
                if *left < 2 {
                    return false;
                }
                begins_keyword(front, Keyword::Crossjoin)
            }
            Place::Crossing(_, _, _, _) => false,
            Place::APath(_) => false,
            Place::AfterName(of, _) => match of {
                PathOf::Alone(_, around, _) => {
                    if !around.is_empty() {
                        return false;
                    }
                    begins_keyword(front, Keyword::On)
                }
                PathOf::InTuple(_, _, _, _) => false,
                PathOf::Slicer(_) => false,
                PathOf::InSlicer(_, _) => false,
            },
            Place::AfterDot(of, _) => match of {
                PathOf::Alone(_, _, _) => begins_either(front, Keyword::Members, Keyword::Children),
                PathOf::InTuple(_, _, _, _) => false,
                PathOf::Slicer(_) => false,
                PathOf::InSlicer(_, _) => false,
            },
            Place::AfterSet(_, around, _) => {
                if !around.is_empty() {
                    return false;
                }
                begins_keyword(front, Keyword::On)
            }
            Place::On(which, _) => match which {
                Which::Columns => begins_either(front, Keyword::Columns, Keyword::Zero),
                Which::Rows(_) => begins_either(front, Keyword::Rows, Keyword::One),
            },
            Place::AfterColumns(_) => begins_keyword(front, Keyword::From),
            Place::AfterRows(_, _) => begins_keyword(front, Keyword::From),
            Place::ACube(_, _) => false,
            Place::AfterCube(_) => begins_keyword(front, Keyword::Where),
            Place::ASlicer(_) => false,
            Place::Done(_) => false,
        }
    }

    fn wants_name(&self) -> bool {
        match self {
            Place::Start => false,
            Place::AnAxis(_) => true,
            Place::Non(_) => false,
            Place::ASet(_, _, _) => true,
            Place::AnItem(_, _, _, left) => {
                if *left == 0 {
                    return false;
                }
                true
            }
            Place::Crossing(_, _, _, _) => false,
            Place::APath(_) => true,
            Place::AfterName(_, _) => false,
            Place::AfterDot(_, _) => true,
            Place::AfterSet(_, _, _) => false,
            Place::On(_, _) => false,
            Place::AfterColumns(_) => false,
            Place::AfterRows(_, _) => false,
            Place::ACube(_, _) => true,
            Place::AfterCube(_) => false,
            Place::ASlicer(_) => true,
            Place::Done(_) => false,
        }
    }

    fn finish(self, alloc: Global) -> Result<Option<Query>, OutOfMemory> {
        match self {
            Place::AfterName(of, path) => finish_path(alloc, of, path),
            Place::AfterCube(base) => Ok(Some(query_by(base, List::new(alloc)))),
            Place::Done(query) => Ok(Some(query.into_inner())),
            other => {
                drop(other);
                Ok(None)
            }
        }
    }

    ghost closes = { place_closes };
}

/// Why a text is no query.
#[derive(Clone, Copy, Debug, PartialEq, Eq)]
pub enum QueryFault {
    /// No query is written so. The text up to this byte is the longest with which a query begins.
    SyntaxAt { byte: u32 },
    OutOfMemory,
}

/// Reads a query (MDX, "SELECT Statement"), or tells the byte of its first fault. Each set of the query has the byte at
/// which it begins.
pub fn read_query(alloc: Global, text: &str) -> Result<Query, QueryFault>
    requires { length text.now < 2 ^ 32 }
    ensures { ReadsQuery text.now result }
{
    match read_tokens(alloc, Place::Start, text) {
        Ok(query) => Ok(query),
        Err(ReadFault::StopsAt { byte }) => Err(QueryFault::SyntaxAt { byte: byte as u32 }),
        Err(ReadFault::OutOfMemory) => Err(QueryFault::OutOfMemory),
    }
}
