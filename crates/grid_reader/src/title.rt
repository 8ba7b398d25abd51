//! Titles read back.
ghost use Rattle.std.specs.Prelude.{◌≡◌, ◌++◌, ◌≢◌, List, ℕ, Bool, Decides, IfOk, IfSome, IsSomeAnd, MatchOption};
ghost use Rattle.query_meaning.specs.Titles.{IsTitle, IsTitleName, TitleName, mark, marked_name};
ghost use Rattle.grid_reader.specs.NameBytes.{NoBracket};
ghost use Rattle.grid_reader.specs.Reading.{IsTitleAt, ReadsAs};

use crate::name::after_name;
use olap_meaning::{OutOfMemory, Text};
use std::alloc::Global;
use std::str::from_utf8;

// What stands after the mark with which a text begins.
fn after_mark(text: &[u8]) -> Option<&[u8]>
    ensures { MatchOption result ((begins : Bool) (rest : List ℕ) → text.now ≢ mark begins ++ rest)
        (λ rest. (begins : Bool) × (text.now ≡ mark begins ++ rest.now)) }
{
    match text {
        [b'.', rest @ ..] => Some(rest),
        [b',', b' ', rest @ ..] => Some(rest),
        _ => None,
    }
}

// What stands after the mark and the name text with which a text begins.
fn after_marked_name(alloc: Global, text: &[u8]) -> Result<Option<&[u8]>, OutOfMemory>
    ensures only { IfOk result (λ found. IfSome found (λ behind. (one : TitleName)
        × IsTitleName one × (text.now ≡ marked_name one ++ behind.now))) }
    ensures wherever { IfOk result (λ found. (one : TitleName) (rest : List ℕ)
        → IsTitleName one → NoBracket rest → text.now ≡ marked_name one ++ rest
        → IsSomeAnd found (λ behind. behind.now ≡ rest)) }
{
    match after_mark(text) {
        Some(rest) => after_name(alloc, rest),
        None => Ok(None),
    }
}

// Whether a text has the form of a title.
fn is_title(alloc: Global, field: &[u8]) -> Result<bool, OutOfMemory>
    ensures { IfOk result (λ yes. Decides yes (IsTitle field.now)) }
{
    if field.is_empty() {
        return Ok(true);
    }
    let Some(mut rest) = after_name(alloc, field)? else {
        return Ok(false);
    };
    while !rest.is_empty() {
        let Some(behind) = after_marked_name(alloc, rest)? else {
            return Ok(false);
        };
        rest = behind;
    }
    Ok(true)
}

/// The title that a field is, None where it does not have the form of one.
pub(crate) fn read_title(alloc: Global, field: &[u8]) -> Result<Option<Text>, OutOfMemory>
    ensures { IfOk result (ReadsAs IsTitleAt field.now) }
{
    if !is_title(alloc, field)? {
        return Ok(None);
    }
    // It does not fail here, since each title is UTF-8.
    let Ok(text) = from_utf8(field) else {
        return Ok(None);
    };
    Ok(Some(Text::from_str(alloc, text)?))
}
