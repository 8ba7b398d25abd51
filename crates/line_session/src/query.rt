//! What is replied to a query.
ghost use Rattle.std.specs.Prelude.{◌≡◌, ◌+◌, ◌*◌, ◌⊎◌, ℕ, [], Ok, IsSomeAnd, IsTrue, length, Option};
ghost use Rattle.std.specs.List.{list_all};
ghost use Rattle.cell_request.specs.Faults.{refusal_of};
ghost use Rattle.olap_meaning.specs.Legal.{is_cell};
ghost use Rattle.query_meaning.specs.AxisCells.{cells_of};
ghost use Rattle.query_meaning.specs.Grids.{row_tuples};
ghost use Rattle.query_meaning.specs.OwnAxes.{AreAxesOf};
ghost use Rattle.query_meaning.specs.Replies.{no_memory_reply, refusal_reply};
ghost use Rattle.query_meaning.specs.Resolution.{axes_meant};
ghost use Rattle.line_session.specs.Replies.{AnswersMeaning, AreCosts};
ghost use Rattle.line_session.specs.Tools.{tools_of};

use crate::desk::Desk;
use crate::reply::Reply;
use crate::tools::Tools;
use cell_request::{ResolveFault, cells, resolve};
use fact_versions::Steps;
use olap_catalog::Catalog;
use olap_meaning::{Cell, OutOfMemory, named_line};
use query_meaning::{Axes, Query};
use result_layout::grid;
use segment_header::{AllowsValues, Widener};
use shown_values::{Formatter, GivesTexts};
use std::alloc::Global;
use std::sync::ledger::Ledger;

// The reply to a query that means no axes.
fn reply_to_fault(alloc: Global, fault: &ResolveFault) -> Reply
    ensures { (result ≡ no_memory_reply)
        ⊎ IsSomeAnd (refusal_of fault.now) (λ refused. result ≡ refusal_reply refused) }
{
    match fault {
        ResolveFault::UnknownCube { name } => {
            Reply::made(named_line(alloc, "ERR 5 CUBE", name.as_str()))
        }
        ResolveFault::UnknownMember { name } => {
            Reply::made(named_line(alloc, "ERR 6 MEMBER", name.as_str()))
        }
        ResolveFault::AxisTwice { hierarchy } => {
            Reply::made(named_line(alloc, "ERR 7 AXIS TWICE", hierarchy.as_str()))
        }
        ResolveFault::MixedSet { at } => Reply::numbers("ERR 8 MIXED", &[u64::from(*at)]),
        ResolveFault::TooManyCells { count, limit } => {
            Reply::numbers("ERR 9 CELLS", &[*count, u64::from(*limit)])
        }
        ResolveFault::OutOfMemory => Reply::no_memory(),
    }
}

// The reply to the axes of a query, whose cells are asked of a desk.
fn reply_to_cells<P: Desk, L: Ledger>(
    alloc: Global,
    desk: &mut P,
    catalog: &Catalog,
    tools: &Tools,
    axes: &Axes,
    cells: &[Cell],
    steps: &mut Steps<L>,
) -> Reply
    requires catalog { catalog.now ≡ (P.seen desk.old).cache.setting.catalog }
    requires own { AreAxesOf catalog.now axes.now }
    requires cells { cells.now ≡ cells_of catalog.now axes.now }
    requires count { length cells.now
        ≡ length (row_tuples axes.now) * length axes.now.columns.tuples }
    requires known { IsTrue (list_all (is_cell catalog.now) cells.now) }
    ensures reply { (position : Option ℕ) × (read : ℕ) × (steps.new ≡ steps.old + read)
        × AreCosts (record { before = P.seen desk.old; after = P.seen desk.new; asked = [] })
        position read
        × AnswersMeaning (tools_of (⟦<Formatter as GivesTexts>⟧.answers tools.now.formatter)
        (⟦<Widener as AllowsValues>⟧.answers tools.now.widener))
        (record { before = P.seen desk.old; after = P.seen desk.new; asked = [] })
        (Ok axes.now) position result }
{
    match desk.ask(alloc, cells, &tools.widener, steps) {
        Ok(answer) => Reply::made(grid(alloc, catalog, axes, &answer, &tools.formatter)),
        Err(OutOfMemory) => Reply::no_memory(),
    }
}

// The reply to the axes of a query.
fn reply_to_axes<P: Desk, L: Ledger>(
    alloc: Global,
    desk: &mut P,
    catalog: &Catalog,
    tools: &Tools,
    axes: &Axes,
    steps: &mut Steps<L>,
) -> Reply
    requires catalog { catalog.now ≡ (P.seen desk.old).cache.setting.catalog }
    requires own { AreAxesOf catalog.now axes.now }
    ensures reply { (position : Option ℕ) × (read : ℕ) × (steps.new ≡ steps.old + read)
        × AreCosts (record { before = P.seen desk.old; after = P.seen desk.new; asked = [] })
        position read
        × AnswersMeaning (tools_of (⟦<Formatter as GivesTexts>⟧.answers tools.now.formatter)
        (⟦<Widener as AllowsValues>⟧.answers tools.now.widener))
        (record { before = P.seen desk.old; after = P.seen desk.new; asked = [] })
        (Ok axes.now) position result }
{
    match cells(alloc, catalog, axes) {
        Ok(cells) => reply_to_cells(alloc, desk, catalog, tools, axes, cells.as_slice(), steps),
        Err(OutOfMemory) => Reply::no_memory(),
    }
}

/// The reply to a query: its cells are asked of a desk in one call, and laid out as a grid.
pub(crate) fn reply_to_query<P: Desk, L: Ledger>(
    alloc: Global,
    desk: &mut P,
    catalog: &Catalog,
    tools: &Tools,
    query: &Query,
    steps: &mut Steps<L>,
) -> Reply
    requires catalog { catalog.now ≡ (P.seen desk.old).cache.setting.catalog }
    ensures reply { (position : Option ℕ) × (read : ℕ) × (steps.new ≡ steps.old + read)
        × AreCosts (record { before = P.seen desk.old; after = P.seen desk.new; asked = [] })
        position read
        × AnswersMeaning (tools_of (⟦<Formatter as GivesTexts>⟧.answers tools.now.formatter)
        (⟦<Widener as AllowsValues>⟧.answers tools.now.widener))
        (record { before = P.seen desk.old; after = P.seen desk.new; asked = [] })
        (axes_meant catalog.now query.now) position result }
{
    match resolve(alloc, catalog, query) {
        Ok(axes) => reply_to_axes(alloc, desk, catalog, tools, &axes, steps),
        Err(fault) => reply_to_fault(alloc, &fault),
    }
}
