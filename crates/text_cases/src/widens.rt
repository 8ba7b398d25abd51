//! Wideners: the program's, one that allows any value, one that allows the wanted values alone, and one that adds the value
//! after the last of them.
ghost use Rattle.std.specs.Prelude.{◌≡◌, IfOk, IsTrue};
ghost use Rattle.std.specs.List.{list_all};
ghost use Rattle.olap_meaning.specs.Covering as covering;
ghost use Rattle.segment_header.specs.Widening.{Serves, are_below, are_wanted, is_within};
ghost use Rattle.segment_header.specs.Headers as headers;

use anyhow::{Result as Anyhow, bail};
use olap_meaning::{Allowed, List, OutOfMemory, ValueId};
use segment_header::{allows, is_set, widened_plainly};
use std::alloc::Global;

/// What a load may allow.
#[derive(Clone, Copy)]
pub(crate) enum Allows {
    Plainly,
    Any,
    Wanted,
    Next,
}

fn allow_all(allowed: &Allowed, wanted: &[ValueId]) -> bool
    requires { IsTrue (headers.is_set allowed.now) }
    ensures { result ≡ list_all (covering.allows allowed.now) wanted.now }
{
    wanted.iter().all(|value| allows(allowed, *value))
}

fn all_below(values: &[ValueId], count: u32) -> bool
    ensures { result ≡ are_below count values.now }
{
    values.iter().all(|value| value.0 < count)
}

fn within(allowed: &Allowed, count: u32) -> bool
    ensures { result ≡ is_within count allowed.now }
{
    match allowed {
        Allowed::Any => true,
        Allowed::Set(values) => all_below(values.as_slice(), count),
    }
}

// Allowed values where they serve what is wanted, else any value.
fn checked(allowed: Allowed, wanted: &[ValueId], count: u32) -> Allowed
    requires { IsTrue (are_wanted wanted.now count) }
    ensures { Serves wanted.now count result }
{
    if is_set(&allowed) && allow_all(&allowed, wanted) && within(&allowed, count) {
        return allowed;
    }
    Allowed::Any
}

// The wanted set, and the value after the last, where one is given.
fn set_of(
    alloc: Global,
    wanted: &[ValueId],
    next: Option<ValueId>,
) -> Result<Allowed, OutOfMemory> {
    let mut values = Vec::from_slice(alloc, wanted)?;
    if let Some(next) = next {
        values.push(next)?;
    }
    Ok(Allowed::Set(List::from_vec(values)))
}

// The value after the last, where the column has it.
fn next_of(wanted: &[ValueId], count: u32) -> Option<ValueId> {
    let next = wanted.last()?.0.saturating_add(1);
    if next < count {
        Some(ValueId(next))
    } else {
        None
    }
}

/// What a load allows in a column.
pub(crate) fn allowed(
    alloc: Global,
    how: Allows,
    wanted: &[ValueId],
    count: u32,
) -> Result<Allowed, OutOfMemory>
    requires { IsTrue (are_wanted wanted.now count) }
    ensures { IfOk result (Serves wanted.now count) }
{
    let next = match how {
        Allows::Plainly => return widened_plainly(alloc, wanted, count),
        Allows::Any => return Ok(checked(Allowed::Any, wanted, count)),
        Allows::Wanted => None,
        Allows::Next => next_of(wanted, count),
    };
    let set = set_of(alloc, wanted, next)?;
    Ok(checked(set, wanted, count))
}

/// The way of this name.
pub(crate) fn allows_of(name: &str) -> Anyhow<Allows> {
    match name {
        "plainly" => Ok(Allows::Plainly),
        "any" => Ok(Allows::Any),
        "wanted" => Ok(Allows::Wanted),
        "next" => Ok(Allows::Next),
        _ => bail!("no widener has this name"),
    }
}
