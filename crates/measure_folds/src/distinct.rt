//! Counts of different numbers.
ghost use Rattle.std.specs.Prelude.{◌≡◌, ◌++◌, ◌∷◌, [], IfOk, OnOk, OnErr, false, option_map, unwrap_or};
ghost use Rattle.std.specs.List.{list_any};
ghost use Rattle.std.specs.Ordering.{int_eq};
ghost use Rattle.indexmap.specs.IndexSet.{insert_key};
ghost use Rattle.olap_meaning.specs.Texts.{CanBeShown};
ghost use Rattle.olap_meaning.specs.Values.{aggregate_known, different};

use indexmap::IndexSet;
use olap_meaning::{Aggregator, CellValue, OutOfMemory};
use std::alloc::Global;
use std::marker::Model;
use traces::Trace;

/// Numbers, each once. They stand in a box of their own, so that a tally of another aggregator is no greater for them.
#[derive(Drop)]
pub(crate) struct Distinct {
    alloc: Global,
    numbers: Option<Box<IndexSet<i64>>>,
    of: Trace<i64>,
}

impl Model for Distinct {
    ghost use Rattle.std.specs.Prelude.{List, ℤ, ◌≡◌, [], option_map, unwrap_or};
    ghost use Rattle.olap_meaning.specs.Values.{different};

    ghost Value = { List ℤ };

    ghost view = { λ a. a.of.items };

    ghost invariant = { λ a. unwrap_or (option_map (λ set. set.value.keys) a.numbers) [] ≡ different a.of.items };
}

impl Distinct {
    /// No number. It takes no memory.
    pub(crate) fn new(alloc: Global) -> Distinct
        ensures { result ≡ [] }
    {
        Distinct {
            alloc,
            numbers: None,
            of: Trace::new(),
        }
    }

    /// Adds a number. Memory is taken only for one that is new.
    pub(crate) fn add(&mut self, number: i64) -> Result<(), OutOfMemory>
        ensures ok { OnOk result (self.new ≡ self.old ++ number ∷ []) }
        ensures err { OnErr result (self.new ≡ self.old) }
        ensures absent { OnErr result (list_any (int_eq number) (different self.old) ≡ false) }
    {
        put(self.alloc, &mut self.numbers, number)?;
        self.of = self.of.and(&number);
        Ok(())
    }

    /// How many different numbers there are.
    pub(crate) fn count(&self) -> CellValue
        ensures value { result ≡ aggregate_known Aggregator.DistinctCount self.now }
        ensures shown { CanBeShown result }
    {
        match &self.numbers {
            Some(numbers) => CellValue::Whole(numbers.len() as i128),
            None => CellValue::Whole(0),
        }
    }
}

// Puts a number into a set, or into a new one. Memory is taken only for one that is new.
fn put(
    alloc: Global,
    numbers: &mut Option<Box<IndexSet<i64>>>,
    number: i64,
) -> Result<(), OutOfMemory>
    ensures ok { OnOk result
        (unwrap_or (option_map (λ set. set.value.keys) numbers.new) []
        ≡ insert_key int_eq (unwrap_or (option_map (λ set. set.value.keys) numbers.old) []) number) }
    ensures err { OnErr result
        (unwrap_or (option_map (λ set. set.value.keys) numbers.new) []
        ≡ unwrap_or (option_map (λ set. set.value.keys) numbers.old) []) }
    ensures absent { OnErr result
        (list_any (int_eq number) (unwrap_or (option_map (λ set. set.value.keys) numbers.old) [])
        ≡ false) }
{
    match numbers {
        Some(numbers) => {
            numbers.insert(number)?;
            Ok(())
        }
        None => {
            *numbers = Some(set_of(alloc, number)?);
            Ok(())
        }
    }
}

// The set of one number.
fn set_of(alloc: Global, number: i64) -> Result<Box<IndexSet<i64>>, OutOfMemory>
    ensures { IfOk result (λ set. set.value.keys ≡ number ∷ []) }
{
    let mut numbers = IndexSet::new(alloc);
    numbers.insert(number)?;
    Ok(Box::new(alloc, numbers)?)
}
