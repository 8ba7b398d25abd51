//! The history that the manager of the cache keeps: its events in order, each a legal step after those before it; and
//! what calls on a cache answer.
#![tactic(auto)]

mod answers;
mod cell_sources;
mod cells;
mod entry;
mod history;
mod kinds;
mod load_lists;
mod numbers;
mod register;
mod shared;

pub use answers::{AggBuilt, Answer, Answered, Appended, CacheLine, CacheView, NotYet};
pub use cell_sources::CellSources;
pub use cells::is_cell;
pub use entry::Entry;
pub use history::History;
pub use olap_meaning::CellSource;
