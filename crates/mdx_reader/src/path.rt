//! Paths at a place of a text.
ghost use Rattle.std.specs.Prelude.{◌≡◌, [], drop, IfOk, MatchBool, MatchOption};
ghost use Rattle.std.specs.Str.{IsCharBoundary};
ghost use Rattle.mdx_reader.specs.PathTexts.{ReadsPath};
ghost use Rattle.mdx_reader.specs.PathSteps.{IsByteAt, BeginsOtherwise, IsWhiteAt, BeginsNoWhite, IsCharAt, IsBehindWhite, IsBehindDot, BeginsNoDot, ReadsName, IsNextAt, BeginsNoNext};

use olap_meaning::{List, OutOfMemory, Text};
use std::alloc::Global;

/// Why no path is read at a place.
#[derive(Clone, Copy, Debug, PartialEq, Eq)]
pub enum PathFault {
    /// No path begins there. The text from there up to this byte is the longest with which a path begins.
    Stop { byte: usize },
    OutOfMemory,
}

impl From<OutOfMemory> for PathFault {
    ghost use Rattle.mdx_reader.specs.declared.path.PathFault.TheVariants as fault;

    ghost from_gives = { λ _ e. e ≡ fault.OutOfMemory };

    fn from(_e: OutOfMemory) -> PathFault {
        PathFault::OutOfMemory
    }
}

// A name and the byte after it, or the byte at which no name goes on.
#[derive(Drop)]
enum Found {
    Name(Text, usize),
    Stops(usize),
}

// Whether this byte stands at a place.
fn has(text: &str, at: usize, byte: u8) -> bool
    ensures { MatchBool result
        (IsByteAt text.now at byte)
        (BeginsOtherwise byte (drop at text.now)) }
{
    text.as_bytes().get(at) == Some(&byte)
}

// Whether a space or a tab stands at a place.
fn has_white(text: &str, at: usize) -> bool
    ensures { MatchBool result (IsWhiteAt text.now at) (BeginsNoWhite (drop at text.now)) }
{
    has(text, at, b' ') || has(text, at, b'\t')
}

// The character at a place.
fn char_at(text: &str, at: usize) -> Option<char>
    requires { IsCharBoundary text.now at }
    ensures { MatchOption result (drop at text.now ≡ []) (IsCharAt text.now at) }
{
    text[at..].chars().next()
}

// The byte after the white at a place.
fn behind_white(text: &str, from: usize) -> usize
    requires { IsCharBoundary text.now from }
    ensures { IsBehindWhite text.now from result }
{
    let mut at = from;
    while has_white(text, at) {
        at += 1;
    }
    at
}

// The byte after a dot at a place, and after the white around it.
fn behind_dot(text: &str, from: usize) -> Option<usize>
    requires { IsCharBoundary text.now from }
    ensures { MatchOption result
        (BeginsNoDot (drop from text.now))
        (IsBehindDot text.now from) }
{
    let dot = behind_white(text, from);
    if !has(text, dot, b'.') {
        return None;
    }
    Some(behind_white(text, dot + 1))
}

// Reads a name in brackets. A `]` that another follows does not end it.
fn read_name(alloc: Global, text: &str, from: usize) -> Result<Found, OutOfMemory>
    requires { IsCharBoundary text.now from }
    ensures { IfOk result (ReadsName text.now from) }
{
    if !has(text, from, b'[') {
        return Ok(Found::Stops(from));
    }
    let mut name = Text::new(alloc);
    let mut at = from + 1;
    while let Some(c) = char_at(text, at) {
        at += c.len_utf8();
        if c == ']' {
            if !has(text, at, b']') {
                return Ok(if name.is_empty() {
                    Found::Stops(at)
                } else {
                    Found::Name(name, at)
                });
            }
            at += 1;
        }
        name.push(c)?;
    }
    Ok(Found::Stops(at))
}

// Reads a dot and a name. None where they do not follow.
fn read_next(alloc: Global, text: &str, from: usize) -> Result<Option<(Text, usize)>, OutOfMemory>
    requires { IsCharBoundary text.now from }
    ensures { IfOk result
        (λ found. MatchOption found
        (BeginsNoNext (drop from text.now))
        (λ next. IsNextAt text.now from next.0 next.1)) }
{
    let Some(next) = behind_dot(text, from) else {
        return Ok(None);
    };
    match read_name(alloc, text, next)? {
        Found::Name(name, place) => Ok(Some((name, place))),
        Found::Stops(_) => Ok(None),
    }
}

/// Reads the longest path that begins at the byte `from`, and gives the byte after it. No white after the path is
/// taken, and no name ends where another `]` follows.
///
/// ```text
/// path = name { "." name }
/// name = "[" one or more characters, "]" written as "]]" "]"
/// ```
pub fn read_path(alloc: Global, text: &str, from: usize) -> Result<(List<Text>, usize), PathFault>
    requires { IsCharBoundary text.now from }
    ensures { ReadsPath text.now from result }
{
    let (first, mut place) = match read_name(alloc, text, from)? {
        Found::Name(name, place) => (name, place),
        Found::Stops(byte) => return Err(PathFault::Stop { byte }),
    };
    let mut path = List::new(alloc);
    path.push(first)?;
    while let Some((name, end)) = read_next(alloc, text, place)? {
        path.push(name)?;
        place = end;
    }
    Ok((path, place))
}
