//! The command `run`: a cache is opened, and a session served over it.
ghost use Rattle.std.specs.Prelude.{◌≡◌, ◌≢◌, ◌≤◌, ◌+◌, [], ℕ, IfSome, MatchResult, None};
ghost use Rattle.history_core.specs.Seats.{NoneFlies, entries_of};
ghost use Rattle.olap_meaning.specs.Legal.{Legal};
ghost use Rattle.olap_server.specs.Run.{BeginsWith, EndsRun, IsLast, SayTells, ServesDesk, around_of, desk_over};
ghost use Rattle.olap_server.specs.Said.{budget_line, no_memory};
ghost use Rattle.line_session.specs.Desks.{GoesOn};
ghost use Rattle.line_session.specs.Tools.{tools_of};

use crate::reply::Reply;
use crate::status::Status;
use cache_manager::Manager;
use cache_opening::OpenFault;
use fact_versions::Steps;
use fault_texts::{aggregate_line, batch_line, rows_line, schema_line, table_line};
use history_core::History;
use line_session::{BYTE_LIMIT, SessionEnd, Tools, serve};
use manager_desk::ManagerDesk;
use olap_catalog::Catalog;
use olap_meaning::{OutOfMemory, Text, named_line};
use outside::{Depot, Link};
use segment_header::{AllowsValues, Widener};
use shown_values::{Formatter, GivesTexts};
use std::alloc::Global;
use std::sync::Arc;
use std::sync::ledger::Ledger;

/// How a command ended, and the history of its cache, where one was opened.
#[derive(Drop)]
pub struct Ended {
    pub status: Status,
    pub history: Option<History>,
}

/// What is to be said of a cache that was not opened.
pub(crate) fn reply_to_opening(alloc: Global, fault: &OpenFault) -> Reply
    ensures { SayTells fault.now result }
{
    match fault {
        OpenFault::NoFile { name } => Reply::made(
            Status::NoFile,
            named_line(alloc, "NO FILE", name.as_str()),
        ),
        OpenFault::Schema { fault } => refused(schema_line(alloc, fault)),
        OpenFault::Table { file, fault } => refused(table_line(alloc, file.as_str(), fault)),
        OpenFault::Batch { file, fault } => refused(batch_line(alloc, file.as_str(), fault)),
        OpenFault::TooManyRows { file, total, limit } => {
            refused(rows_line(alloc, file.as_str(), *total, *limit))
        }
        OpenFault::Aggregate { file, fault } => {
            refused(aggregate_line(alloc, file.as_str(), fault))
        }
        OpenFault::Source => Reply::fixed(Status::Source, "SOURCE\n"),
        OpenFault::OutOfMemory => Reply::no_memory(),
    }
}

// What is to be said of a file that has a fault.
fn refused(line: Result<Text, OutOfMemory>) -> Reply
    ensures { MatchResult line
        (λ t. result ≡ record { status = Status.Schema; text = t })
        (λ _. result ≡ no_memory) }
{
    Reply::made(Status::Schema, line)
}

// What is said where more bytes came than a session takes.
fn reply_to_budget() -> Reply
    ensures { result ≡ record { status = Status.Budget; text = budget_line } }
{
    Reply::fixed(Status::Budget, "INPUT 1099511627776\n")
}

// What is said at the end of a session, and the status.
fn last_word<K: Link>(link: &mut K, end: SessionEnd) -> Status
    requires begun { end ≢ SessionEnd.Memory }
    ensures { IsLast end (K.talk link.old) (K.talk link.new) result }
{
    match end {
        SessionEnd::Quit | SessionEnd::EndOfInput | SessionEnd::LongLine => Status::Done,
        SessionEnd::Budget => reply_to_budget().say(link),
        SessionEnd::ReceiveFault => Reply::fixed(Status::Source, "SOURCE\n").say(link),
        SessionEnd::SendFault => Status::Sink,
        SessionEnd::Memory => unreachable!(),
    }
}

// Serves a session over a desk with this catalog, and says the last.
fn serve_with<D: Depot, K: Link, L: Ledger>(
    alloc: Global,
    desk: &mut ManagerDesk,
    catalog: &Catalog,
    depot: &mut D,
    link: &mut K,
    tools: &Tools,
    steps: &mut Steps<L>,
) -> Status
    requires catalog { catalog.now ≡ desk.old.setting.catalog }
    ensures served { (read : ℕ) × (steps.new ≡ steps.old + read)
        × ServesDesk (tools_of (⟦<Formatter as GivesTexts>⟧.answers tools.now.formatter)
        (⟦<Widener as AllowsValues>⟧.answers tools.now.widener))
        (D.files depot.old) desk.old desk.new
        (around_of D.answers K.talk K.left depot.old link.old)
        (around_of D.answers K.talk K.left depot.new link.new) result read }
    ensures grown { GoesOn (desk_over desk.old) (desk_over desk.new) }
{
    match serve(alloc, desk, link, depot, catalog, tools, BYTE_LIMIT, steps) {
        SessionEnd::Memory => Reply::no_memory().say(link),
        end => last_word(link, end),
    }
}

// Serves a session over a desk, and says the last.
fn serve_desk<D: Depot, K: Link, L: Ledger>(
    alloc: Global,
    desk: &mut ManagerDesk,
    depot: &mut D,
    link: &mut K,
    tools: &Tools,
    steps: &mut Steps<L>,
) -> Status
    ensures served { (read : ℕ) × (steps.new ≡ steps.old + read)
        × ServesDesk (tools_of (⟦<Formatter as GivesTexts>⟧.answers tools.now.formatter)
        (⟦<Widener as AllowsValues>⟧.answers tools.now.widener))
        (D.files depot.old) desk.old desk.new
        (around_of D.answers K.talk K.left depot.old link.old)
        (around_of D.answers K.talk K.left depot.new link.new) result read }
    ensures grown { GoesOn (desk_over desk.old) (desk_over desk.new) }
{
    match Arc::try_clone(desk.catalog()) {
        Ok(catalog) => serve_with(alloc, desk, &catalog, depot, link, tools, steps),
        Err(_) => Reply::no_memory().say(link),
    }
}

/// Serves a session over a cache that was opened.
pub(crate) fn serve_opened<D: Depot, K: Link, L: Ledger>(
    alloc: Global,
    opened: Manager,
    depot: &mut D,
    link: &mut K,
    tools: &Tools,
    steps: &mut Steps<L>,
) -> Ended
    requires unused { entries_of opened.entries 1 ≡ [] }
    requires idle { NoneFlies opened.entries }
    ensures served { IfSome result.history (λ history. (read : ℕ) × (steps.new ≡ steps.old + read)
        × EndsRun (tools_of (⟦<Formatter as GivesTexts>⟧.answers tools.now.formatter)
        (⟦<Widener as AllowsValues>⟧.answers tools.now.widener))
        (D.files depot.old) opened history
        (around_of D.answers K.talk K.left depot.old link.old)
        (around_of D.answers K.talk K.left depot.new link.new) result.status read) }
    ensures begins { IfSome result.history (BeginsWith opened) }
    ensures there { result.history ≢ None }
    ensures legal { IfSome result.history (λ history. Legal history.setting history.entries) }
    ensures at_least { steps.old ≤ steps.new }
{
    let mut desk = ManagerDesk::new(opened);
    let status = serve_desk(alloc, &mut desk, depot, link, tools, steps);
    let manager = desk.into_manager();
    manager.steps_are_legal();
    Ended {
        status,
        history: Some(manager.into_history()),
    }
}
