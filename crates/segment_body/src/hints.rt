//! Where groups may stand.
use crate::key::Key;
use indexmap::IndexMap;
use measure_folds::Tally;
use olap_meaning::{OutOfMemory, ValueId};
use std::alloc::Global;

/// The least number of slots.
const FEWEST: usize = 16;

/// Places of groups by a number of their values. What is told is to be looked at before it is believed: groups may share a
/// slot, and each slot tells of one. The values are weighed, so that where they leave few gaps no two groups share one.
#[derive(Drop)]
pub(crate) struct Hints {
    weights: Vec<u64>,
    slots: Vec<u32>,
}

impl Hints {
    /// No hint. It takes no memory.
    pub(crate) fn new(alloc: Global) -> Hints {
        Hints {
            weights: Vec::new(alloc),
            slots: Vec::new(alloc),
        }
    }

    /// Whether one more group than this many has two slots for each.
    pub(crate) fn has_room(&self, groups: usize) -> bool {
        groups < self.slots.len() / 2
    }

    // The slot of some values, which may be none.
    fn slot(&self, values: &[ValueId]) -> usize {
        let mut sum: u64 = 0;
        for (weight, value) in self.weights.iter().zip(values) {
            sum = sum.wrapping_add(weight.wrapping_mul(u64::from(value.0)));
        }
        (sum & (self.slots.len() as u64).wrapping_sub(1)) as usize
    }

    /// The place where the group of some values may stand.
    pub(crate) fn place(&self, values: &[ValueId]) -> Option<usize> {
        let slot = *self.slots.get(self.slot(values))?;
        (slot as usize).checked_sub(1)
    }

    /// Tells of the group of some values.
    pub(crate) fn note(&mut self, values: &[ValueId], place: usize) {
        let Ok(place) = u32::try_from(place) else {
            return;
        };
        let at = self.slot(values);
        if let Some(slot) = self.slots.get_mut(at) {
            *slot = place.wrapping_add(1);
        }
    }

    /// Twice as many slots, for the groups of this many columns.
    pub(crate) fn doubled(
        &self,
        alloc: Global,
        groups: &IndexMap<Key, Tally>,
        columns: usize,
    ) -> Result<Hints, OutOfMemory> {
        let count = self.slots.len().saturating_mul(2).max(FEWEST);
        let slots = Vec::from_elem(alloc, 0, count)?;
        let weights = weights_of(alloc, groups, columns)?;
        let mut hints = Hints { weights, slots };
        for i in 0..groups.len() {
            if let Some((key, _)) = groups.get_index(i) {
                hints.note(key.as_slice(), i);
            }
        }
        Ok(hints)
    }
}

// What a value counts on each of this many columns: the first one's count one each, and those of a later one more than all
// values of the columns before it together.
fn weights_of(
    alloc: Global,
    groups: &IndexMap<Key, Tally>,
    columns: usize,
) -> Result<Vec<u64>, OutOfMemory> {
    let mut weights = Vec::with_capacity(alloc, columns)?;
    let mut weight: u64 = 1;
    for column in 0..columns {
        weights.push(weight)?;
        weight = weight.wrapping_mul(width(groups, column));
    }
    Ok(weights)
}

// An odd number that is above each value of a column.
fn width(groups: &IndexMap<Key, Tally>, column: usize) -> u64 {
    let mut greatest: u64 = 0;
    for i in 0..groups.len() {
        greatest = greatest.max(value_at(groups, i, column));
    }
    greatest.wrapping_add(1) | 1
}

fn value_at(groups: &IndexMap<Key, Tally>, place: usize, column: usize) -> u64 {
    match groups.get_index(place) {
        Some((key, _)) => match key.as_slice().get(column) {
            Some(value) => u64::from(value.0),
            None => 0,
        },
        None => 0,
    }
}
