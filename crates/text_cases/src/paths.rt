//! Paths at a byte of a text: the byte, a space, and the text. What is said is the byte after the path and its names, each
//! after a bar; or the byte at which the text stops.
use anyhow::{Result, bail};
use mdx_reader::{PathFault, read_path};
use olap_meaning::{List, Text};
use std::alloc::{AllocError, Global};

// Adds the byte after a path, and its names.
fn add_path(
    alloc: Global,
    said: &mut String,
    path: &List<Text>,
    end: usize,
) -> Result<(), AllocError> {
    said.push_str(format!(in alloc; "{end}")?.as_str())?;
    for name in path.as_slice() {
        said.push_str("|")?;
        said.push_str(name.as_str())?;
    }
    Ok(())
}

// Adds what is read at a byte of a text.
fn add_read(alloc: Global, said: &mut String, text: &str, from: usize) -> Result<()> {
    if !text.is_char_boundary(from) {
        bail!("a character stands over this byte");
    }
    match read_path(alloc, text, from) {
        Ok((path, end)) => add_path(alloc, said, &path, end)?,
        Err(PathFault::Stop { byte }) => {
            said.push_str(format!(in alloc; "stops at {byte}")?.as_str())?;
        }
        Err(PathFault::OutOfMemory) => bail!("no memory"),
    }
    Ok(())
}

/// Adds what is said of a path.
pub(crate) fn add_said(alloc: Global, said: &mut String, asked: &str) -> Result<()> {
    let Some((from, text)) = asked.split_once(' ') else {
        bail!("a byte and a text are wanted");
    };
    let Ok(from) = from.parse::<usize>() else {
        bail!("a byte is wanted");
    };
    add_read(alloc, said, text, from)
}
