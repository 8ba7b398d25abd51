//! What is asked of a tree of members. Nothing but the lists takes memory.
ghost use Rattle.std.specs.Prelude.{◌≡◌, ◌≢◌, ◌≤◌, ◌<◌, ◌++◌, ◌∷◌, ◌-◌, ◌*◌, ℕ, suc, List, [], length, take, map, All, IfOk, OnOk, IfSome, IfNone, slice_index, slice_index_or};
ghost use Rattle.olap_meaning.specs.Catalog.{at_depth, below, under};
ghost use Rattle.member_trees.specs.Nodes.{nodes_below, first_below};
ghost use Rattle.member_trees.specs.Spans.{IsSpan, values};
ghost use Rattle.olap_meaning.specs.declared.schema.TheConstants.{LEVEL_LIMIT, RECORD_LIMIT};

use crate::node::Node;
use crate::tree::MemberTree;
use olap_meaning::{List, OutOfMemory, ValueId};
use std::alloc::Global;

/// The places of the paths one level below a path, among those of their depth.
#[derive(Clone, Copy)]
struct Span {
    start: u32,
    end: u32,
}

impl MemberTree {
    /// How many paths are one level below a path.
    pub fn child_count(&self, path: &[ValueId]) -> u32
        ensures { result ≡ length (below self.now.leaves path.now) }
    {
        match self.span_below(path) {
            Some(span) => span.end - span.start,
            None => 0,
        }
    }

    /// The members one level below a path, in their order. It takes no memory.
    pub fn nodes_below(&self, path: &[ValueId]) -> &[Node]
        ensures { map (λ node. path.now ++ node.value ∷ []) result.now
            ≡ below self.now.leaves path.now }
    {
        match self.span_below(path) {
            Some(span) => &self.row(path.len())[span.start as usize..span.end as usize],
            None => &[],
        }
    }

    /// The paths one level below a path, by first appearance.
    pub fn children(
        &self,
        alloc: Global,
        path: &[ValueId],
    ) -> Result<List<List<ValueId>>, OutOfMemory>
        ensures { IfOk result (λ paths. paths ≡ below self.now.leaves path.now) }
    {
        paths_of(alloc, path, self.nodes_below(path))
    }

    /// How many paths a depth has.
    pub fn count_at(&self, depth: u32) -> u32
        requires { depth ≤ self.now.levels }
        ensures { result ≡ length (at_depth self.now.leaves depth) }
    {
        if depth == 0 {
            1
        } else {
            self.row(depth as usize - 1).len() as u32
        }
    }

    /// The paths of a depth, in hierarchical order.
    pub fn paths_at(&self, alloc: Global, depth: u32) -> Result<List<List<ValueId>>, OutOfMemory>
        requires { depth ≤ self.now.levels }
        ensures { IfOk result (λ paths. paths ≡ at_depth self.now.leaves depth) }
    {
        let mut paths = List::new(alloc);
        paths.push(List::new(alloc))?;
        for above in 0..depth as usize {
            paths = below_each(alloc, &paths, self.row(above))?;
        }
        Ok(paths)
    }

    /// How many paths there are below the top.
    pub fn count_under(&self) -> u64
        ensures count { result ≡ length (under self.now.leaves self.now.levels []) }
        ensures few { result ≤ LEVEL_LIMIT * RECORD_LIMIT }
    {
        let mut count = 0;
        for depth in 0..self.levels as usize {
            count += self.row(depth).len() as u64;
        }
        count
    }

    /// All paths below the top, in hierarchical order: each before those below it.
    pub fn paths_under(&self, alloc: Global) -> Result<List<List<ValueId>>, OutOfMemory>
        ensures { IfOk result (λ paths. paths ≡ under self.now.leaves self.now.levels []) }
    {
        let mut paths = List::new(alloc);
        if self.levels > 0 {
            self.add_under(alloc, &mut paths, &[], self.top())?;
        }
        Ok(paths)
    }

    /// The nodes one level below a depth.
    fn row(&self, depth: usize) -> &[Node]
        requires { depth < self.now.levels }
        ensures nodes { result.now ≡ nodes_below self.now.leaves depth }
        ensures count { length result.now ≡ length (at_depth self.now.leaves (suc depth)) }
        ensures few { length result.now ≤ RECORD_LIMIT }
    {
        self.rows.as_slice()[depth].as_slice()
    }

    /// The paths of the first level.
    fn top(&self) -> Span
        requires { 0 < self.now.levels }
        ensures { IsSpan self.now.leaves 0 [] result.start result.end }
    {
        Span {
            start: 0,
            end: self.row(0).len() as u32,
        }
    }

    /// The place at which the paths below one of a depth begin; past the last, where they end.
    fn first_of(&self, depth: usize, place: u32) -> u32
        requires below_top { 0 < depth }
        requires above_leaves { depth < self.now.levels }
        requires within { place ≤ length (at_depth self.now.leaves depth) }
        ensures begins { result ≡ first_below self.now.leaves depth place }
        ensures few { place ≤ RECORD_LIMIT }
    {
        let row = self.row(depth - 1);
        if (place as usize) < row.len() {
            row[place as usize].first
        } else {
            self.row(depth).len() as u32
        }
    }

    /// The paths below the one at a place of a depth.
    fn span_at(&self, depth: usize, place: u32) -> Span
        requires below_top { 0 < depth }
        requires above_leaves { depth < self.now.levels }
        requires within { place < length (at_depth self.now.leaves depth) }
        ensures { let path = slice_index_or (at_depth self.now.leaves depth) place [] in
            IsSpan self.now.leaves depth path result.start result.end }
    {
        Span {
            start: self.first_of(depth, place),
            end: self.first_of(depth, place + 1),
        }
    }

    /// The step from a path's front of a depth to that of one value more; None where nothing
    /// begins with it.
    fn step(&self, path: &[ValueId], depth: usize, span: Span) -> Option<Span>
        requires goes_on { depth < length path.now }
        requires above_leaves { length path.now < self.now.levels }
        requires at { IsSpan self.now.leaves depth (take depth path.now) span.start span.end }
        ensures found { let front = take (suc depth) path.now in
            IfSome result (λ next. IsSpan self.now.leaves (suc depth) front next.start next.end) }
        ensures none { IfNone result (below self.now.leaves path.now ≡ []) }
    {
        match place_of(self.row(depth), span, path[depth]) {
            Some(place) => Some(self.span_at(depth + 1, place)),
            None => None,
        }
    }

    /// The paths one level below a path; None where there are none.
    fn span_below(&self, path: &[ValueId]) -> Option<Span>
        ensures above_leaves { IfSome result (λ _. length path.now < self.now.levels) }
        ensures found { let depth = length path.now in
            IfSome result (λ span. IsSpan self.now.leaves depth path.now span.start span.end) }
        ensures none { IfNone result (below self.now.leaves path.now ≡ []) }
    {
        if path.len() >= self.levels as usize {
            return None;
        }
        let mut span = self.top();
        for depth in 0..path.len() {
            match self.step(path, depth, span) {
                Some(next) => span = next,
                None => return None,
            }
        }
        Some(span)
    }

    /// Adds the paths below a path, each before those below it.
    fn add_under(
        &self,
        alloc: Global,
        paths: &mut List<List<ValueId>>,
        path: &[ValueId],
        span: Span,
    ) -> Result<(), OutOfMemory>
        requires above_leaves { length path.now < self.now.levels }
        requires at { IsSpan self.now.leaves (length path.now) path.now span.start span.end }
        ensures { let levels = self.now.levels - length path.now in
            OnOk result (paths.new ≡ paths.old ++ under self.now.leaves levels path.now) }
    {
        let row = self.row(path.len());
        let depth = path.len() + 1;
        for place in span.start..span.end {
            let next = extended(alloc, path, row[place as usize].value)?;
            if depth < self.levels as usize {
                paths.push(copied(alloc, next.as_slice())?)?;
                self.add_under(alloc, paths, next.as_slice(), self.span_at(depth, place))?;
            } else {
                paths.push(next)?;
            }
        }
        Ok(())
    }
}

/// The first place of a span at which a row has a value.
fn place_of(row: &[Node], span: Span, value: ValueId) -> Option<u32>
    requires ordered { span.start ≤ span.end }
    requires within { span.end ≤ length row.now }
    ensures from_start { IfSome result (λ place. span.start ≤ place) }
    ensures below_end { IfSome result (λ place. place < span.end) }
    ensures found { IfSome result (λ place. slice_index (values row.now) place ≡ value) }
    ensures none { let Misses = λ (k : ℕ). slice_index (values row.now) k ≢ value in
        IfNone result ((k : ℕ) → span.start ≤ k → k < span.end → Misses k) }
{
    for place in span.start..span.end {
        if row[place as usize].value == value {
            return Some(place);
        }
    }
    None
}

/// A path's copy.
fn copied(alloc: Global, path: &[ValueId]) -> Result<List<ValueId>, OutOfMemory>
    ensures { IfOk result (λ copy. copy ≡ path.now) }
{
    Ok(List::from_vec(Vec::from_slice(alloc, path)?))
}

/// A path and one value more.
fn extended(alloc: Global, path: &[ValueId], value: ValueId) -> Result<List<ValueId>, OutOfMemory>
    ensures { IfOk result (λ next. next ≡ path.now ++ value ∷ []) }
{
    let mut items = Vec::with_capacity(alloc, path.len() + 1)?;
    items.extend_from_slice(path)?;
    items.push(value)?;
    Ok(List::from_vec(items))
}

/// A path with the value of each of some nodes.
fn paths_of(
    alloc: Global,
    path: &[ValueId],
    nodes: &[Node],
) -> Result<List<List<ValueId>>, OutOfMemory>
    ensures { IfOk result (λ paths. paths ≡ map (λ node. path.now ++ node.value ∷ []) nodes.now) }
{
    let mut paths = List::new(alloc);
    for node in nodes {
        paths.push(extended(alloc, path, node.value)?)?;
    }
    Ok(paths)
}

/// The paths of a row, from those of the depth above.
fn below_each(
    alloc: Global,
    above: &List<List<ValueId>>,
    row: &[Node],
) -> Result<List<List<ValueId>>, OutOfMemory>
    requires { All (λ node. node.parent < length above.now) row.now }
    ensures { let parent = λ (node : Node). slice_index_or above.now node.parent [] in
        IfOk result (λ paths. paths ≡ map (λ node. parent node ++ node.value ∷ []) row.now) }
{
    let mut paths = List::new(alloc);
    for node in row {
        let path = above.as_slice()[node.parent as usize].as_slice();
        paths.push(extended(alloc, path, node.value)?)?;
    }
    Ok(paths)
}
