//! Groups: the rows that have the same values on the header's columns.
ghost use Rattle.std.specs.Prelude.{◌≡◌, ◌≢◌, ◌==◌, ◌+◌, ◌++◌, ◌≤◌, ◌<◌, ◌∷◌, [], false, ◌⊎◌, All, IfOk, IfSome, IsOk, None, OnErr, OnOk, Some, bytes_eq, length, position, slice_index_or, slice_set};
ghost use Rattle.std.specs.List.{list_all, list_any, zip};
ghost use Rattle.segment_body.specs.Groups.{Group, IsAdded, IsMerged, group, values_of, with_number, with_numbers};

use crate::hints::Hints;
use crate::key::Key;
use fact_versions::Steps;
use indexmap::IndexMap;
use measure_folds::Tally;
use olap_meaning::{Aggregator, OutOfMemory, ROW_LIMIT, ValueId};
use std::alloc::Global;
use std::marker::Model;
use std::sync::ledger::Ledger;
use traces::Trace;

/// Rows that were added at once, for contracts alone: the place of their group, and their numbers.
#[derive(Drop)]
pub(crate) struct Block {
    pub(crate) place: usize,
    pub(crate) numbers: Trace<Option<i64>>,
}

/// Groups in the order in which they came: the tally of the rows that have some values, one value for each column. A group
/// is found by a hint, or else by the hash of its values.
#[derive(Drop)]
pub(crate) struct GroupTable {
    tallies: IndexMap<Key, Tally>,
    hints: Hints,
}

impl Model for GroupTable {
    ghost use Rattle.std.specs.Prelude.{List};
    ghost use Rattle.segment_body.specs.Groups.{Group, groups_by};

    ghost Value = { List Group };

    ghost view = { λ g. groups_by (λ key. key) g.tallies.entries };
}

impl GroupTable {
    /// No group. It takes no memory.
    pub(crate) fn new(alloc: Global) -> GroupTable
        ensures { result ≡ [] }
    {
        GroupTable {
            tallies: IndexMap::new(alloc),
            hints: Hints::new(alloc),
        }
    }

    /// How many groups there are.
    pub(crate) fn len(&self) -> usize
        ensures { result ≡ length self.now }
    {
        self.tallies.len()
    }

    // The place of the group that has some values, where a hint tells of it.
    fn hinted(&self, values: &[ValueId]) -> Option<usize>
        ensures { IfSome result
            (λ place. position (λ group. bytes_eq values.now group.values) self.now ≡ Some place) }
    {
        let place = self.hints.place(values)?;
        // No two keys are equal.
        let _groups = self.tallies.len();
        let (key, _) = self.tallies.get_index(place)?;
        if are_equal(key.as_slice(), values) {
            Some(place)
        } else {
            None
        }
    }

    // The place of the group that has some values, by their hash.
    fn sought(&self, values: &[ValueId]) -> Option<usize>
        ensures { result ≡ position (λ group. bytes_eq values.now group.values) self.now }
    {
        self.tallies.get_index_of(values)
    }

    /// The place of the group that has some values.
    pub(crate) fn place_of(&self, values: &[ValueId]) -> Option<usize>
        ensures { result ≡ position (λ group. bytes_eq values.now group.values) self.now }
    {
        match self.hinted(values) {
            Some(place) => Some(place),
            None => self.sought(values),
        }
    }

    // Has a hint tell of the group of some values, which is the last. Where there is no memory, there is no hint.
    fn note(&mut self, alloc: Global, values: &[ValueId], place: usize)
        ensures { self.new ≡ self.old }
    {
        if self.hints.has_room(place) {
            self.hints.note(values, place);
            return;
        }
        match self.hints.doubled(alloc, &self.tallies, values.len()) {
            Ok(hints) => self.hints = hints,
            Err(OutOfMemory) => self.hints = Hints::new(alloc),
        }
    }

    /// The values of the group at a place, and its tally.
    pub(crate) fn at(&self, place: usize) -> (&[ValueId], &Tally)
        requires { place < length self.now }
        ensures { group result.0.now result.1.now
            ≡ slice_index_or self.now place (group result.0.now result.1.now) }
    {
        match self.tallies.get_index(place) {
            Some((values, tally)) => (values.as_slice(), tally),
            None => unreachable!(),
        }
    }

    /// The values of the group at a place, and its tally, for a step.
    pub(crate) fn hand_out<L: Ledger>(
        &self,
        place: usize,
        steps: &mut Steps<L>,
    ) -> (&[ValueId], &Tally)
        requires { place < length self.now }
        ensures group { group result.0.now result.1.now
            ≡ slice_index_or self.now place (group result.0.now result.1.now) }
        ensures cost { steps.new ≡ steps.old + 1 }
    {
        steps.add(1);
        self.at(place)
    }

    // Puts a group of values that none has at the end. It answers its place.
    fn push_group(
        &mut self,
        alloc: Global,
        values: &[ValueId],
        tally: Tally,
    ) -> Result<usize, OutOfMemory>
        requires { list_any (bytes_eq values.now) (values_of self.old) ≡ false }
        ensures place { IfOk result (λ place. place ≡ length self.old) }
        ensures ok { OnOk result (self.new ≡ self.old ++ group values.now tally ∷ []) }
        ensures err { OnErr result (self.new ≡ self.old) }
    {
        let place = self.tallies.len();
        let key = Key::new(alloc, values)?;
        self.tallies.insert(key, tally)?;
        self.note(alloc, values, place);
        Ok(place)
    }

    // Adds a row, as `add_row` does, where no hint tells of its group.
    fn add_sought(
        &mut self,
        alloc: Global,
        aggregator: Aggregator,
        values: &[ValueId],
        number: Option<i64>,
    ) -> Result<usize, OutOfMemory>
        requires { All (λ group. length group.tally.values < ROW_LIMIT) self.old }
        ensures ok { IfOk result
            (λ place. IsAdded aggregator values.now number self.old self.new place) }
        ensures err { OnErr result (self.new ≡ self.old) }
    {
        match self.sought(values) {
            Some(place) => {
                self.add_at(place, number)?;
                Ok(place)
            }
            None => self.begin(alloc, aggregator, values, number),
        }
    }

    /// Adds a row to the group that has its values, or a new group at the end. It answers the place of the group.
    pub(crate) fn add_row(
        &mut self,
        alloc: Global,
        aggregator: Aggregator,
        values: &[ValueId],
        number: Option<i64>,
    ) -> Result<usize, OutOfMemory>
        requires { All (λ group. length group.tally.values < ROW_LIMIT) self.old }
        ensures ok { IfOk result
            (λ place. IsAdded aggregator values.now number self.old self.new place) }
        ensures err { OnErr result (self.new ≡ self.old) }
    {
        match self.hinted(values) {
            Some(place) => {
                self.add_at(place, number)?;
                Ok(place)
            }
            None => self.add_sought(alloc, aggregator, values, number),
        }
    }

    /// Adds a row to the group at a place. Memory is taken only for a distinct count of a number.
    pub(crate) fn add_at(&mut self, place: usize, number: Option<i64>) -> Result<(), OutOfMemory>
        requires inside { place < length self.old }
        requires room { All (λ group. length group.tally.values < ROW_LIMIT) self.old }
        ensures ok { OnOk result
            ((d : Group)
            → self.new
            ≡ slice_set self.old place (with_number (slice_index_or self.old place d) number)) }
        ensures err { OnErr result (self.new ≡ self.old) }
        ensures no_memory { All
            (λ group. group.tally.aggregator ≢ Aggregator.DistinctCount) self.old ⊎ (number ≡ None)
            → IsOk result }
    {
        let tally = &mut self.tallies[place];
        tally.step(number)?;
        Ok(())
    }

    // A group of one row at the end, which has values that none has. It answers its place.
    fn begin(
        &mut self,
        alloc: Global,
        aggregator: Aggregator,
        values: &[ValueId],
        number: Option<i64>,
    ) -> Result<usize, OutOfMemory>
        requires { list_any (bytes_eq values.now) (values_of self.old) ≡ false }
        ensures place { IfOk result (λ place. place ≡ length self.old) }
        ensures ok { OnOk result
            (self.new
            ≡ self.old
            ++ group values.now (record { aggregator = aggregator; values = number ∷ [] }) ∷ []) }
        ensures err { OnErr result (self.new ≡ self.old) }
    {
        let tally = first_tally(alloc, aggregator, number)?;
        self.push_group(alloc, values, tally)
    }

    /// Merges a tally into that of the group at a place. It takes no memory.
    pub(crate) fn merge_at(&mut self, place: usize, tally: &Tally)
        requires inside { place < length self.old }
        requires adds_up { tally.now.aggregator ≢ Aggregator.DistinctCount }
        requires alike { All
            (λ group. group.tally.aggregator ≡ tally.now.aggregator) self.old }
        requires room { (d : Group)
            → length (slice_index_or self.old place d).tally.values + length tally.now.values
            ≤ ROW_LIMIT }
        ensures { (d : Group) → self.new
            ≡ slice_set self.old place
            (with_numbers (slice_index_or self.old place d) tally.now.values) }
    {
        let group = &mut self.tallies[place];
        group.merge(tally);
    }

    /// Merges a tally into that of the group that has some values, or makes a new group of it at the end. It answers the
    /// place of the group.
    pub(crate) fn add_tally(
        &mut self,
        alloc: Global,
        aggregator: Aggregator,
        values: &[ValueId],
        tally: &Tally,
    ) -> Result<usize, OutOfMemory>
        requires adds_up { aggregator ≢ Aggregator.DistinctCount }
        requires same { tally.now.aggregator ≡ aggregator }
        requires alike { All (λ group. group.tally.aggregator ≡ aggregator) self.old }
        requires few { length tally.now.values ≤ ROW_LIMIT }
        requires room { All
            (λ group. length group.tally.values + length tally.now.values ≤ ROW_LIMIT) self.old }
        ensures ok { IfOk result
            (λ place. IsMerged aggregator values.now tally.now.values self.old self.new place) }
        ensures err { OnErr result (self.new ≡ self.old) }
    {
        match self.place_of(values) {
            Some(place) => {
                let group = &mut self.tallies[place];
                group.merge(tally);
                Ok(place)
            }
            None => {
                let mut first = Tally::new(alloc, aggregator);
                first.merge(tally);
                self.push_group(alloc, values, first)
            }
        }
    }
}

// Whether each of some values is that of the other list at its place, as far as both go.
fn agree(own: &[ValueId], values: &[ValueId]) -> bool
    ensures { result ≡ list_all (λ pair. pair.0 == pair.1) (zip own.now values.now) }
{
    own.iter().zip(values).all(|pair| *pair.0 == *pair.1)
}

// Whether two lists of values are equal. They are short, and to look at each value is faster than what finds equal memory.
fn are_equal(own: &[ValueId], values: &[ValueId]) -> bool
    ensures { result ≡ bytes_eq own.now values.now }
{
    own.len() == values.len() && agree(own, values)
}

/// The tally of one row.
fn first_tally(
    alloc: Global,
    aggregator: Aggregator,
    number: Option<i64>,
) -> Result<Tally, OutOfMemory>
    ensures { IfOk result
        (λ tally. tally ≡ record { aggregator = aggregator; values = number ∷ [] }) }
{
    let mut tally = Tally::new(alloc, aggregator);
    tally.step(number)?;
    Ok(tally)
}
