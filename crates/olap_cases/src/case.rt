//! A case: what stands around a run, and what is to come of it.
//!
//! A case is an object. It has a `name`, and may have `words` and `files` of its own, in place of its group's; `more` files,
//! beside these; an `input`, a content; `cuts`, each the most bytes that a read gives, 0 for no limit: the case is carried
//! out once for each; the `room` of the output in bytes; and the numbers, from 0, of a `fetch`, a `read` and a `write` that
//! fails. It wants a `status`, 0 where none is named; what is `written`, a content; and where a history is there, how many
//! `entries` it has and how many `rows` the versions of its Starts have, 0 where they are not named. Words are a text that is
//! parted at white space, or a list of texts, one for each word.
//!
//! In place of an input and of what is written, a case may have a `script`: a list of lines, each with its reply, two contents.
use crate::content::{add_content, bytes_of};
use crate::fields::{items, number_at, text};
use crate::outcome::Outcome;
use anyhow::{Result, bail};
use olap_server::Words;
use serde_json::Value;
use std::alloc::Global;
use std::rt::Files;

/// The files of a depot, by name.
pub(crate) type Stored = Vec<(String, Vec<u8>)>;

/// An object that says a case, and what its group says: the words of a case that names none, and the files.
#[derive(Clone, Copy)]
pub(crate) struct Case<'a> {
    pub object: &'a Value,
    pub words: Option<&'a Value>,
    pub files: &'a Stored,
}

/// Adds the files of an object of contents.
pub(crate) fn add_files(
    rt: &(impl Files + AllocGlobal),
    files: &mut Stored,
    object: &Value,
) -> Result<()> {
    let Value::Object(contents) = object else {
        bail!("files by name are wanted");
    };
    for (name, content) in contents {
        let bytes = bytes_of(rt, content)?;
        files.push((name.clone()?, bytes))?;
    }
    Ok(())
}

// Adds the words of a text, parted at white space.
fn add_parted(alloc: Global, words: &mut Vec<String>, line: &str) -> Result<()> {
    for word in line.split_whitespace() {
        words.push(String::from_str(alloc, word)?)?;
    }
    Ok(())
}

// Adds the words of a list of texts, of which each may be empty or hold white.
fn add_listed(alloc: Global, words: &mut Vec<String>, list: &[Value]) -> Result<()> {
    for word in list {
        words.push(String::from_str(alloc, text(word)?)?)?;
    }
    Ok(())
}

fn add_words(alloc: Global, words: &mut Vec<String>, said: &Value) -> Result<()> {
    match said {
        Value::Array(list) => add_listed(alloc, words, list.as_slice()),
        line => add_parted(alloc, words, text(line)?),
    }
}

/// The words of a case, or those of its group where it names none.
pub(crate) fn words_of(alloc: Global, case: &Case<'_>) -> Result<Words> {
    let Some(said) = case.object.get("words").or(case.words) else {
        bail!("words are wanted");
    };
    let mut words = Vec::new(alloc);
    add_words(alloc, &mut words, said)?;
    Ok(Words::Read(words))
}

// Adds what stands in each turn of a script at a place.
fn add_turns(
    rt: &(impl Files + AllocGlobal),
    bytes: &mut Vec<u8>,
    script: &Value,
    place: usize,
) -> Result<()> {
    for turn in items(script)? {
        let Some(content) = items(turn)?.get(place) else {
            bail!("a line and its reply are wanted");
        };
        add_content(rt, bytes, content)?;
    }
    Ok(())
}

// Adds the bytes of a field, where there is one, or else what stands in each turn of the script.
fn add_field(
    rt: &(impl Files + AllocGlobal),
    bytes: &mut Vec<u8>,
    object: &Value,
    name: &str,
    place: usize,
) -> Result<()> {
    if let Some(content) = object.get(name) {
        return add_content(rt, bytes, content);
    }
    match object.get("script") {
        Some(script) => add_turns(rt, bytes, script, place),
        None => Ok(()),
    }
}

/// The bytes of a case's input.
pub(crate) fn input_of(rt: &(impl Files + AllocGlobal), object: &Value) -> Result<Vec<u8>> {
    let mut bytes = Vec::new(rt.alloc());
    add_field(rt, &mut bytes, object, "input", 0)?;
    Ok(bytes)
}

/// The bytes that are to be written.
pub(crate) fn written_of(rt: &(impl Files + AllocGlobal), object: &Value) -> Result<Vec<u8>> {
    let mut bytes = Vec::new(rt.alloc());
    add_field(rt, &mut bytes, object, "written", 1)?;
    Ok(bytes)
}

/// What is to come of a case.
pub(crate) fn wanted_of(object: &Value) -> Result<Outcome> {
    let rows = number_at(object, "rows")?.unwrap_or(0);
    Ok(Outcome {
        status: number_at(object, "status")?.unwrap_or(0),
        history: number_at(object, "entries")?.map(|entries| (entries, rows)),
    })
}
