//! What calls on a cache answer.
ghost use Rattle.std.specs.Prelude.{◌<◌};
ghost use Rattle.olap_meaning.specs.Texts.{CanBeShown};

use crate::cell_sources::CellSources;
use olap_meaning::{CellValue, Header, List, Version};
use std::sync::Arc;

/// What a cell is worth, and in which version of its cube. Each value that is answered can be shown.
#[derive(Clone, Copy, Debug, PartialEq, Eq)]
pub struct Answered {
    pub value: CellValue,
    pub version: Version,
    pub ghost shown: { CanBeShown value },
}

/// The answer to some cells, in their order: the position of its entry, what each cell is worth, and which loads it was
/// taken from, which the entry shares. Positions count from 1.
#[derive(Drop)]
pub struct Answer {
    pub position: u64,
    pub cells: List<Answered>,
    pub sources: Arc<CellSources>,
    pub ghost first: { 0 < position },
}

/// A batch was appended: the position of its entry, and the version that it made.
#[derive(Clone, Copy, Debug, PartialEq, Eq)]
pub struct Appended {
    pub position: u64,
    pub version: Version,
}

/// An aggregate table was built: the position of its entry, the version of its cube that it was built over, and how many
/// groups it has.
#[derive(Clone, Copy, Debug, PartialEq, Eq)]
pub struct AggBuilt {
    pub position: u64,
    pub version: Version,
    pub groups: u64,
}

/// A load that is kept: its number, its version, what it holds, and how many flushes since its Start touch it.
#[derive(Drop)]
pub struct CacheLine {
    pub load: u64,
    pub version: Version,
    pub header: Header,
    pub flushes: u64,
}

/// What is kept: the position of the look's entry, and a line for each kept load, by rising number.
#[derive(Drop)]
pub struct CacheView {
    pub position: u64,
    pub lines: List<CacheLine>,
}

/// A cache does not have this many entries yet: how many were asked for, and how many it had when it was looked at.
#[derive(Clone, Copy, Debug, PartialEq, Eq)]
pub struct NotYet {
    pub asked: u64,
    pub front: u64,
}
