//! Threads may share histories, their entries and the cells of answers: this is proved only where the bounds hold.
use crate::cell_sources::CellSources;
use crate::entry::Entry;
use crate::history::History;

fn is_shared<T: Send + Sync>() {}

fn threads_share() {
    is_shared::<CellSources>();
    is_shared::<Entry>();
    is_shared::<History>();
}
