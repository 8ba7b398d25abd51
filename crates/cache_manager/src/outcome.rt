//! What a look comes to.
use crate::jobs::LoadJob;
use history_core::Answer;
use olap_meaning::List;

/// What a look comes to. It has no `Drop`, since it may hold jobs.
pub enum Look {
    /// Each cell has a source.
    Ready(Answer),
    /// Some cell has neither a source nor a load in flight that it awaits. Each job is to be run, and then delivered or
    /// abandoned.
    Load(List<LoadJob>),
    /// Each cell without a source awaits a load in flight. These are the loads, rising. When they have ended, look
    /// again: the look has one of these three answers.
    Wait(List<u64>),
}
