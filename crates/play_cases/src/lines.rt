//! Lines of tables, and the words in them.
use olap_meaning::OutOfMemory;
use std::alloc::{AllocError, AllocFailed, Global};

/// Why a line can not be carried out.
#[derive(Clone, Copy, Debug, PartialEq, Eq)]
pub(crate) enum Wrong {
    /// What is wrong with its words.
    Words(&'static str),
    OutOfMemory,
}

impl From<AllocError> for Wrong {
    fn from(_fault: AllocError) -> Wrong {
        Wrong::OutOfMemory
    }
}

impl From<OutOfMemory> for Wrong {
    fn from(_fault: OutOfMemory) -> Wrong {
        Wrong::OutOfMemory
    }
}

impl<T: Drop> From<AllocFailed<T>> for Wrong {
    fn from(_fault: AllocFailed<T>) -> Wrong {
        Wrong::OutOfMemory
    }
}

impl Wrong {
    /// What is told of it.
    pub(crate) fn text(self) -> &'static str {
        match self {
            Wrong::Words(text) => text,
            Wrong::OutOfMemory => "no memory",
        }
    }
}

/// What a line asks, and what is to be said of it.
pub(crate) fn parts(line: &str) -> (&str, &str) {
    match line.split_once(" => ") {
        Some(parts) => parts,
        None => (line, ""),
    }
}

/// Whether a line is a remark, or has nothing on it.
pub(crate) fn is_remark(line: &str) -> bool {
    line.is_empty() || line.starts_with('#')
}

/// The words of a text, parted at white space.
pub(crate) fn words(alloc: Global, text: &str) -> Result<Vec<&str>, AllocError> {
    text.split_whitespace().collect(alloc)
}

/// A number of 32 bits.
pub(crate) fn number(word: &str) -> Result<u32, Wrong> {
    match word.parse::<u32>() {
        Ok(number) => Ok(number),
        Err(_) => Err(Wrong::Words("no number")),
    }
}

/// A number of 16 bits.
pub(crate) fn place(word: &str) -> Result<u16, Wrong> {
    match word.parse::<u16>() {
        Ok(number) => Ok(number),
        Err(_) => Err(Wrong::Words("no place")),
    }
}
