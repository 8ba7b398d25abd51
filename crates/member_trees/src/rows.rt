//! The rows of a tree of members, in hierarchical order, from the members by first appearance.
ghost use Rattle.std.specs.Prelude.{◌≡◌, ◌<◌, ◌≤◌, ◌++◌, [], All, length, map, flat_map, replicate, slice_index_or, IfOk, OnOk};
ghost use Rattle.std.specs.List.{range_with_len};
ghost use Rattle.member_trees.specs.Nodes.{nodes_below};
ghost use Rattle.member_trees.specs.Numbered.{AreNumbered, children_of, placed_child, placed_children, listed_nodes};

use crate::level::Level;
use crate::node::Node;
use olap_meaning::schema::RECORD_LIMIT;
use olap_meaning::{List, OutOfMemory, ValueId};
use std::alloc::Global;
use traces::Trace;

/// A member, by its parent's place in the level above, its number in its level by first appearance, and its value.
#[derive(Clone, Copy)]
pub(crate) struct Placed {
    parent: u32,
    number: u32,
    value: u32,
}

/// This many empty lists.
fn empty_lists(alloc: Global, count: usize) -> Result<Vec<List<(u32, u32)>>, OutOfMemory>
    ensures { IfOk result (λ lists. lists.items ≡ replicate count []) }
{
    let mut lists = Vec::new(alloc);
    for _ in 0..count {
        lists.push(List::new(alloc))?;
    }
    Ok(lists)
}

/// The children of each parent, by their numbers and values.
fn children(
    alloc: Global,
    members: &[(u32, u32)],
    parents: usize,
) -> Result<Vec<List<(u32, u32)>>, OutOfMemory>
    requires few { length members.now ≤ RECORD_LIMIT }
    requires known { All (λ member. member.0 < parents) members.now }
    ensures { IfOk result
        (λ lists. lists.items ≡ map (children_of members.now) (range_with_len 0 parents)) }
{
    let mut lists = empty_lists(alloc, parents)?;
    for (number, member) in members.iter().enumerate() {
        lists[member.0 as usize].push((number as u32, member.1))?;
    }
    Ok(lists)
}

/// The children of each parent at a depth: none below the last level.
fn children_at(
    alloc: Global,
    levels: &[Level],
    depth: usize,
    parents: usize,
) -> Result<Vec<List<(u32, u32)>>, OutOfMemory>
    requires few { length (slice_index_or levels.now depth []) ≤ RECORD_LIMIT }
    requires known { All (λ member. member.0 < parents) (slice_index_or levels.now depth []) }
    ensures { IfOk result (λ lists. lists.items
        ≡ map (children_of (slice_index_or levels.now depth [])) (range_with_len 0 parents)) }
{
    if depth < levels.len() {
        children(alloc, levels[depth].members(), parents)
    } else {
        children(alloc, &[], parents)
    }
}

/// Adds the children of the parent at a place.
fn place_children(
    placed: &mut Vec<Placed>,
    place: u32,
    children: &[(u32, u32)],
) -> Result<(), OutOfMemory>
    ensures { OnOk result
        (placed.new.items ≡ placed.old.items ++ map (placed_child place) children.now) }
{
    for (number, value) in children {
        placed.push(Placed {
            parent: place,
            number: *number,
            value: *value,
        })?;
    }
    Ok(())
}

/// The members one level below some, which are in hierarchical order.
fn place_all(
    alloc: Global,
    order: &[u32],
    children: &[List<(u32, u32)>],
) -> Result<Vec<Placed>, OutOfMemory>
    requires few { length order.now ≤ RECORD_LIMIT }
    requires known { All (λ number. number < length children.now) order.now }
    ensures { IfOk result (λ placed. placed.items ≡ placed_children children.now order.now) }
{
    let mut placed = Vec::new(alloc);
    for (place, number) in order.iter().enumerate() {
        place_children(
            &mut placed,
            place as u32,
            children[*number as usize].as_slice(),
        )?;
    }
    Ok(placed)
}

/// The numbers of members.
fn numbers(alloc: Global, placed: &[Placed]) -> Result<Vec<u32>, OutOfMemory>
    ensures { IfOk result (λ order. order.items ≡ map (λ one. one.number) placed.now) }
{
    let numbers = placed.iter().map(|one| one.number).collect(alloc)?;
    Ok(numbers)
}

/// The nodes of members, whose own children are known.
fn row(
    alloc: Global,
    placed: &[Placed],
    children: &[List<(u32, u32)>],
) -> Result<List<Node>, OutOfMemory>
    requires known { All (λ one. one.number < length children.now) placed.now }
    requires few { length (flat_map (λ one. slice_index_or children.now one.number []) placed.now)
        ≤ RECORD_LIMIT }
    ensures { IfOk result (λ row. row ≡ listed_nodes children.now placed.now) }
{
    let mut row = Vec::with_capacity(alloc, placed.len())?;
    let mut first = 0;
    for one in placed {
        row.push(Node {
            parent: one.parent,
            value: ValueId(one.value),
            first,
        })?;
        first += children[one.number as usize].len() as u32;
    }
    Ok(List::from_vec(row))
}

/// The rows of a tree, level by level.
pub(crate) fn rows(
    alloc: Global,
    levels: &[Level],
    leaves: &Trace<List<ValueId>>,
) -> Result<List<List<Node>>, OutOfMemory>
    requires { AreNumbered leaves.now.items levels.now }
    ensures { IfOk result (λ rows. rows
        ≡ map (nodes_below leaves.now.items) (range_with_len 0 (length levels.now))) }
{
    let mut rows = List::new(alloc);
    let mut order = vec![in alloc; 0u32]?;
    let mut lists = children_at(alloc, levels, 0, 1)?;
    for depth in 0..levels.len() {
        let placed = place_all(alloc, order.as_slice(), lists.as_slice())?;
        lists = children_at(alloc, levels, depth + 1, levels[depth].members().len())?;
        rows.push(row(alloc, placed.as_slice(), lists.as_slice())?)?;
        order = numbers(alloc, placed.as_slice())?;
    }
    Ok(rows)
}
