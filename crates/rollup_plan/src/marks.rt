//! The values of a column, each with a mark: whether a load that was picked has it.
ghost use Rattle.std.specs.Prelude.{◌≡◌, ◌<◌, ◌||◌, ℕ, IfOk, IsTrue, OnOk, filter, length};
ghost use Rattle.olap_meaning.specs.Covering.{among};
ghost use Rattle.olap_meaning.specs.Legal.{rise};
ghost use Rattle.rollup_plan.specs.Picks as picks;
ghost use Rattle.rollup_plan.specs.Picks.{is_marked};

use olap_meaning::{OutOfMemory, ValueId};
use std::alloc::Global;

// Whether a value has a mark that is not set.
fn is_free(marks: &[bool], value: ValueId) -> bool
    ensures { result ≡ picks.is_free marks.now value }
{
    let place = value.0 as usize;
    place < marks.len() && !marks[place]
}

/// Marks some values, and hands over those that were not marked before.
pub(crate) fn mark(
    alloc: Global,
    marks: &mut [bool],
    values: &[ValueId],
) -> Result<Vec<ValueId>, OutOfMemory>
    requires { IsTrue (rise values.now) }
    ensures own { IfOk result
        (λ own. own.items ≡ filter (picks.is_free marks.old) values.now) }
    ensures marks { OnOk result ((value : ℕ) → value < length marks.old
        → is_marked marks.new value ≡ (is_marked marks.old value || among values.now value)) }
{
    let mut own = Vec::new(alloc);
    for value in values {
        if is_free(marks, *value) {
            marks[value.0 as usize] = true;
            own.push(*value)?;
        }
    }
    Ok(own)
}
