//! The search among the loads of some numbers.
ghost use Rattle.std.specs.Prelude.{◌≡◌, ◌++◌, IfOk, List, filter, option_copied, option_map, reverse};
ghost use Rattle.olap_meaning.specs.declared.regions.Region.{Region};
ghost use Rattle.cache_flush.specs.Loads.{kept_in};
ghost use Rattle.segment_index.specs.Search as words;

use crate::loads::Loads;
use cache_flush::{Kept, Shut};
use olap_meaning::{Cell, OutOfMemory};
use std::alloc::Global;

// Whether a load of this number or of a greater one was found.
fn reaches(best: Option<&Kept>, number: u64) -> bool
    ensures { (regions : List Region)
        → result ≡ words.reaches (option_map (kept_in regions) (option_copied best.entry)) number }
{
    match best {
        Some(found) => found.load >= number,
        None => false,
    }
}

// A load, where it serves a cell.
fn serving<'a>(shut: &Shut, cell: &Cell, next: Option<&'a Kept>) -> Option<&'a Kept>
    ensures { option_map (kept_in shut.now.regions) (option_copied result)
        ≡ words.serving cell.now (option_map (kept_in shut.now.regions) (option_copied next.entry)) }
{
    match next {
        Some(kept) if kept.serves(shut, cell) => Some(kept),
        _ => None,
    }
}

// The later of two loads, where the next serves the cell. It has to be the later one to be asked that.
fn later_serving<'a>(
    loads: &'a Loads,
    cell: &Cell,
    best: Option<&'a Kept>,
    number: u64,
) -> Option<&'a Kept>
    ensures { option_map (kept_in loads.entry.now.flushed) (option_copied result)
        ≡ words.later_serving cell.now
        (option_map (kept_in loads.entry.now.flushed) (option_copied best.entry))
        (words.load_of loads.entry.now.loads number) }
{
    if reaches(best, number) {
        return best;
    }
    match serving(loads.shut_list(), cell, loads.get(number)) {
        Some(kept) => Some(kept),
        None => best,
    }
}

// The latest that serves a cell, of a load and the loads with some numbers. They are asked from the last number on, which most
// often is the latest.
fn latest_of<'a>(
    loads: &'a Loads,
    cell: &Cell,
    first: Option<&'a Kept>,
    numbers: &[u64],
) -> Option<&'a Kept>
    ensures { option_map (kept_in loads.now.flushed) (option_copied result)
        ≡ words.latest_serving loads.now.loads cell.now
        (option_map (kept_in loads.now.flushed) (option_copied first.entry)) (reverse numbers.now) }
{
    let mut best = first;
    for place in (0..numbers.len()).rev() {
        best = later_serving(loads, cell, best, numbers[place]);
    }
    best
}

/// The latest that serves a cell, of a load and the loads with some numbers, which come in two parts. It takes no memory.
pub(crate) fn latest_serving<'a>(
    loads: &'a Loads,
    cell: &Cell,
    first: Option<&'a Kept>,
    front: &[u64],
    back: &[u64],
) -> Option<&'a Kept>
    ensures { option_map (kept_in loads.now.flushed) (option_copied result)
        ≡ words.latest_serving loads.now.loads cell.now
        (option_map (kept_in loads.now.flushed) (option_copied first.entry))
        (reverse (front.now ++ back.now)) }
{
    let latest = latest_of(loads, cell, first, back);
    latest_of(loads, cell, latest, front)
}

// Whether there is a load, and it is a candidate for a cell.
fn is_candidate(shut: &Shut, kept: Option<&Kept>, cell: &Cell) -> bool
    ensures { result
        ≡ words.is_candidate cell.now
        (option_map (kept_in shut.now.regions) (option_copied kept.entry)) }
{
    match kept {
        Some(found) => found.is_candidate(shut, cell),
        None => false,
    }
}

/// Those of some numbers whose loads are candidates for a cell.
pub(crate) fn candidates(
    alloc: Global,
    loads: &Loads,
    numbers: &[u64],
    cell: &Cell,
) -> Result<Vec<u64>, OutOfMemory>
    ensures { IfOk result (λ found. found.items
        ≡ filter (words.has_candidate loads.now.loads cell.now) numbers.now) }
{
    let mut found = Vec::new(alloc);
    for number in numbers {
        let taken = is_candidate(loads.shut_list(), loads.get(*number), cell);
        if taken {
            found.push(*number)?;
        }
    }
    Ok(found)
}
