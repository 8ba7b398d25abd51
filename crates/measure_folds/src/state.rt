//! What a tally keeps of the numbers that it was handed, by its aggregator.
ghost use Rattle.std.specs.Prelude.{◌≡◌, ◌≢◌, ◌<◌, ◌≤◌, ◌+◌, ◌⊎◌, ◌++◌, ◌∷◌, [], length, None, OnOk, OnErr, IsOk};
ghost use Rattle.olap_meaning.specs.Texts.{CanBeShown};
ghost use Rattle.olap_meaning.specs.Values.{aggregate_known, known};
ghost use Rattle.measure_folds.specs.StateOf.{aggregator_of, numbers_of};

use crate::counts::Count;
use crate::distinct::Distinct;
use crate::extremes::Extreme;
use crate::sums::Sums;
use olap_meaning::{Aggregator, CellValue, OutOfMemory, ROW_LIMIT};
use std::alloc::Global;

/// What is kept of the numbers.
#[derive(Drop)]
pub(crate) enum State {
    Sum(Sums),
    Count(Count),
    Extreme(Extreme),
    Avg(Sums),
    DistinctCount(Distinct),
}

/// The state of no number. It takes no memory.
pub(crate) fn new_state(alloc: Global, aggregator: Aggregator) -> State
    ensures aggregator { aggregator_of result ≡ aggregator }
    ensures numbers { numbers_of result ≡ [] }
{
    match aggregator {
        Aggregator::Sum => State::Sum(Sums::new()),
        Aggregator::Count => State::Count(Count::new()),
        Aggregator::Min => State::Extreme(Extreme::new(false)),
        Aggregator::Max => State::Extreme(Extreme::new(true)),
        Aggregator::Avg => State::Avg(Sums::new()),
        Aggregator::DistinctCount => State::DistinctCount(Distinct::new(alloc)),
    }
}

/// Adds a number. Memory is taken only for a distinct count.
pub(crate) fn add_number(state: &mut State, number: i64) -> Result<(), OutOfMemory>
    requires { length (numbers_of state.old) < ROW_LIMIT }
    ensures aggregator { aggregator_of state.new ≡ aggregator_of state.old }
    ensures ok { OnOk result (numbers_of state.new ≡ numbers_of state.old ++ number ∷ []) }
    ensures err { OnErr result (numbers_of state.new ≡ numbers_of state.old) }
    ensures no_memory { aggregator_of state.old ≢ Aggregator.DistinctCount → IsOk result }
{
    match state {
        State::Sum(sums) => sums.add(number),
        State::Count(count) => count.add(number),
        State::Extreme(extreme) => extreme.add(number),
        State::Avg(sums) => sums.add(number),
        State::DistinctCount(distinct) => return distinct.add(number),
    }
    Ok(())
}

/// Adds a row's value: its number, where it is not NULL.
pub(crate) fn add_value(state: &mut State, value: Option<i64>) -> Result<(), OutOfMemory>
    requires { length (numbers_of state.old) < ROW_LIMIT }
    ensures aggregator { aggregator_of state.new ≡ aggregator_of state.old }
    ensures ok { OnOk result (numbers_of state.new ≡ numbers_of state.old ++ known (value ∷ [])) }
    ensures err { OnErr result (numbers_of state.new ≡ numbers_of state.old) }
    ensures no_memory { (aggregator_of state.old ≢ Aggregator.DistinctCount) ⊎ (value ≡ None)
        → IsOk result }
{
    match value {
        Some(number) => add_number(state, number),
        None => Ok(()),
    }
}

/// Adds the numbers of another state.
pub(crate) fn merge_state(state: &mut State, other: &State)
    requires one_aggregator { aggregator_of state.old ≡ aggregator_of other.now }
    requires no_distinct_count { aggregator_of state.old ≢ Aggregator.DistinctCount }
    requires room { length (numbers_of state.old) + length (numbers_of other.now) ≤ ROW_LIMIT }
    ensures aggregator { aggregator_of state.new ≡ aggregator_of state.old }
    ensures numbers { numbers_of state.new ≡ numbers_of state.old ++ numbers_of other.now }
{
    match (state, other) {
        (State::Sum(sums), State::Sum(more)) => sums.merge(more),
        (State::Count(count), State::Count(more)) => count.merge(more),
        (State::Extreme(extreme), State::Extreme(more)) => extreme.merge(more),
        (State::Avg(sums), State::Avg(more)) => sums.merge(more),
        _ => unreachable!(),
    }
}

/// What the numbers are worth.
pub(crate) fn worth(state: &State) -> CellValue
    requires { length (numbers_of state.now) ≤ ROW_LIMIT }
    ensures value { result ≡ aggregate_known (aggregator_of state.now) (numbers_of state.now) }
    ensures shown { CanBeShown result }
{
    match state {
        State::Sum(sums) => sums.sum(),
        State::Count(count) => count.count(),
        State::Extreme(extreme) => extreme.value(),
        State::Avg(sums) => sums.average(),
        State::DistinctCount(distinct) => distinct.count(),
    }
}
