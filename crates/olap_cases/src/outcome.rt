//! What a run comes to: its status, what was written, and what its history tells.
use history_core::{Entry, History};
use olap_meaning::{CubeId, Version};
use olap_server::Ended;

/// How a run ended. Where a cache was opened, its history has this many entries, and the versions of its Starts have so
/// many rows.
#[derive(Clone, Copy, PartialEq, Eq)]
pub(crate) struct Outcome {
    pub status: u64,
    pub history: Option<(u64, u64)>,
}

// The rows that an entry adds to a version of a cube.
fn rows_added(entry: &Entry, cube: CubeId, version: Version) -> u64 {
    match entry {
        Entry::Append {
            who: _,
            cube: own,
            version: made,
            batch,
        } if *own == cube && *made <= version => batch.len(),
        _ => 0,
    }
}

// The rows of a version of a cube.
fn rows_of(history: &History, cube: CubeId, version: Version) -> u64 {
    let mut rows: u64 = 0;
    for before in 0..history.len() {
        if let Some(entry) = history.entry(before + 1) {
            rows = rows.saturating_add(rows_added(entry, cube, version));
        }
    }
    rows
}

/// How many rows the versions of a history's Starts have: what these cost where no aggregate table is read.
fn rows_started(history: &History) -> u64 {
    let mut rows: u64 = 0;
    for before in 0..history.len() {
        if let Some(
            Entry::Start {
                who: _,
                header,
                version,
                reason: _,
            },
        ) = history.entry(before + 1)
        {
            rows = rows.saturating_add(rows_of(history, header.cube, *version));
        }
    }
    rows
}

/// What a run came to.
pub(crate) fn outcome_of(ended: &Ended) -> Outcome {
    Outcome {
        status: u64::from(ended.status.number()),
        history: ended
            .history
            .as_ref()
            .map(|history| (history.len(), rows_started(history))),
    }
}
