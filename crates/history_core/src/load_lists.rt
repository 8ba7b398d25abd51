//! Lists of loads.
ghost use Rattle.std.specs.Prelude.{◌≡◌, ◌++◌, List, Some, IfOk, ℕ, slice_get};

use crate::numbers::Numbers;
use crate::register::{Register, digested};
use olap_meaning::{List, OutOfMemory};
use std::alloc::Global;

// A digest of a list of loads.
fn digest_of(loads: &[u64]) -> u64 {
    let mut digest = 1 + loads.len() as u64;
    for load in loads {
        digest = digested(digest, *load);
    }
    digest
}

/// The number of a list of loads, which is given one where it has none. It takes memory only then. The loads of the last
/// cell are tried first, and then no digest is made.
pub(crate) fn list_number(
    alloc: Global,
    lists: &mut Register<List<u64>>,
    last: Option<Numbers>,
    loads: &[u64],
) -> Result<u32, OutOfMemory>
    ensures number { IfOk result (λ number. slice_get lists.new number ≡ Some loads.now) }
    ensures kept { (more : List (List ℕ)) × (lists.new ≡ lists.old ++ more) }
{
    if let Some(last) = last
        && let Some(list) = lists.get(last.loads)
        && list.as_slice() == loads
    {
        return Ok(last.loads);
    }
    let digest = digest_of(loads);
    if let Some(number) = lists.find(digest, |list| list.as_slice() == loads) {
        return Ok(number);
    }
    let list = List::from_vec(Vec::from_slice(alloc, loads)?);
    lists.add(alloc, digest, list)
}
