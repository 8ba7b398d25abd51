//! The top call: from the words of a command line to the bytes that are written.
ghost use Rattle.std.specs.Prelude.{◌≡◌, ◌≢◌, ◌⊎◌, ◌≤◌, ◌+◌, ℕ, IfOk, IfSome, List, None};
ghost use Rattle.outside.specs.Fetched.{Fetched};
ghost use Rattle.history_core.specs.Cache.{CacheOf};
ghost use Rattle.cache_opening.specs.Opening.{AddsFewSteps, IsOpened, rows_checked};
ghost use Rattle.csv_records.specs.Files.{file_records};
ghost use Rattle.fault_texts.specs.FaultTexts.{fact_line};
ghost use Rattle.olap_meaning.specs.Texts.{line, plain_text};
ghost use Rattle.olap_meaning.specs.FileQuery.{answer_of};
ghost use Rattle.olap_meaning.specs.Legal.{Legal};
ghost use Rattle.olap_server.specs.Faults.{refusal_text};
ghost use Rattle.olap_server.specs.Said.{IsSaid, Said, memory_line, no_memory};
ghost use Rattle.olap_server.specs.Run.{AddsFew, AnswerTells, BeginsWith, CellTells, EndsRun, IsCutOff, IsLastLine, IsTold, OpeningTells, RunsSession, around_of, with_answers};
ghost use Rattle.line_session.specs.Tools.{tools_of};

use crate::cell::cell_of_csv;
use crate::cell_command::CellCommand;
use crate::command::{Command, read_words};
use crate::fault::CellFault;
use crate::reply::Reply;
use crate::sessions::{Ended, reply_to_opening, serve_opened};
use crate::status::Status;
use crate::words::Words;
use cache_opening::open_cache;
use command_words::RunOptions;
use fact_versions::Steps;
use fault_texts::fact_line;
use line_session::Tools;
use olap_meaning::{CellValue, OutOfMemory, Text, named_line, plain_text};
use outside::{Depot, DepotRefusal, Link};
use segment_header::{AllowsValues, Widener};
use shown_values::{Formatter, GivesTexts};
use std::alloc::Global;
use std::sync::ledger::Ledger;
use std::thread::Threads;

/// Carries out a command line: its words are those after the program's name. Where it opens a cache, it serves a session
/// over it on a link with these tools, and gives the cache's history.
///
/// It takes one link, and no input and output apart, since what is promised of the order of what is received and what is
/// sent is said of one object. Threads of the runtime read the parts of a large file for `cell`, and end before the call
/// does.
pub fn run<D: Depot, K: Link, L: Ledger>(
    rt: &(impl Threads + Sync),
    alloc: Global,
    words: &Words,
    depot: &mut D,
    link: &mut K,
    tools: &Tools,
    steps: &mut Steps<L>,
) -> Ended
    // Where a cache was opened, a session was served over it, and the history is the opening's entries and then what the
    // session added. The steps that are added are what the run costs.
    ensures session { IfSome result.history (λ history. (session : RunsSession
        (tools_of (⟦<Formatter as GivesTexts>⟧.answers tools.now.formatter)
        (⟦<Widener as AllowsValues>⟧.answers tools.now.widener))
        words.now (D.files depot.old)
        (around_of D.answers K.talk K.left depot.old link.old)
        (around_of D.answers K.talk K.left depot.new link.new)
        history result.status) × (steps.new ≡ steps.old + session.cost)) }
    ensures legal { IfSome result.history (λ history. Legal history.setting history.entries) }

    // Where none was, the status has its cause, and just its text was sent.
    ensures told { result.history ≡ None → result.status ≢ Status.Sink
        → IsTold words.now (D.files depot.old)
        (around_of D.answers K.talk K.left depot.old link.old)
        (around_of D.answers K.talk K.left depot.new link.new) result.status }

    // Only the link's own failure cuts a text off.
    ensures cut_off { result.history ≡ None → result.status ≡ Status.Sink
        → IsCutOff words.now (D.files depot.old)
        (around_of D.answers K.talk K.left depot.old link.old)
        (around_of D.answers K.talk K.left depot.new link.new) }

    // Then no step was added, except for the rows over which an aggregate table's file is checked.
    ensures few { result.history ≡ None
        → AddsFew words.now (D.files depot.old) (D.answers depot.old) (D.answers depot.new)
        steps.old steps.new }
    ensures at_least { steps.old ≤ steps.new }
{
    match read_words(alloc, words) {
        Ok(Some(Command::Run(options))) => run_session(alloc, &options, depot, link, tools, steps),
        Ok(Some(Command::Cell(command))) => {
            let reply = reply_to_command(rt, alloc, &command, depot);
            without_cache(link, &reply)
        }
        Ok(None) => without_cache(link, &Reply::fixed(Status::Usage, "USAGE\n")),
        Err(OutOfMemory) => without_cache(link, &Reply::no_memory()),
    }
}

/// Says that there was no memory to begin.
pub fn refuse_for_memory<K: Link>(link: &mut K) -> Status
    ensures { IsLastLine Status.Memory memory_line (K.talk link.old) (K.talk link.new) result }
{
    Reply::no_memory().say(link)
}

// Says how a command ended that opened no cache.
fn without_cache<K: Link>(link: &mut K, reply: &Reply) -> Ended
    ensures last { IsLastLine reply.now.status reply.now.text (K.talk link.old) (K.talk link.new)
        result.status }
    ensures none { result.history ≡ None }
    ensures unread { K.left link.new ≡ K.left link.old }
{
    Ended {
        status: reply.say(link),
        history: None,
    }
}

// The command `run`, by its options.
fn run_session<D: Depot, K: Link, L: Ledger>(
    alloc: Global,
    options: &RunOptions<'_>,
    depot: &mut D,
    link: &mut K,
    tools: &Tools,
    steps: &mut Steps<L>,
) -> Ended
    ensures session { IfSome result.history (λ history. (opened : CacheOf)
        × (answers : List Fetched)
        × (read : ℕ)
        × (is : IsOpened (D.files depot.old) (D.answers depot.old) answers
        options.now.schema.now options.now.budget opened)
        × BeginsWith opened history
        × EndsRun (tools_of (⟦<Formatter as GivesTexts>⟧.answers tools.now.formatter)
        (⟦<Widener as AllowsValues>⟧.answers tools.now.widener))
        (D.files depot.old) opened history
        (with_answers (around_of D.answers K.talk K.left depot.old link.old) answers)
        (around_of D.answers K.talk K.left depot.new link.new) result.status read
        × (steps.new ≡ steps.old
        + (rows_checked is.opening.catalog is.opening.batches + read))) }
    ensures legal { IfSome result.history (λ history. Legal history.setting history.entries) }
    ensures told { result.history ≡ None → (said : Said)
        × OpeningTells options.now.schema.now (D.files depot.old) (D.answers depot.old) (D.answers depot.new)
        said.status said.text
        × IsLastLine said.status said.text (K.talk link.old) (K.talk link.new) result.status }
    ensures unread { result.history ≡ None → K.left link.new ≡ K.left link.old }
    ensures few { result.history ≡ None
        → AddsFewSteps (D.files depot.old) (D.answers depot.old) (D.answers depot.new)
        options.now.schema.now steps.old steps.new }
    ensures at_least { steps.old ≤ steps.new }
{
    match open_cache(alloc, depot, options.schema, options.budget, steps) {
        Ok(manager) => serve_opened(alloc, manager, depot, link, tools, steps),
        Err(fault) => {
            let reply = reply_to_opening(alloc, &fault);
            without_cache(link, &reply)
        }
    }
}

// What is to be said to the command `cell`.
fn reply_to_command<D: Depot>(
    rt: &(impl Threads + Sync),
    alloc: Global,
    command: &CellCommand<'_>,
    depot: &mut D,
) -> Reply
    ensures { CellTells command.now (D.files depot.old) (D.answers depot.old)
        (D.answers depot.new) result.status result.text }
{
    match depot.fetch(alloc, command.file()) {
        Ok(bytes) => reply_to_file(rt, alloc, command, bytes.as_slice()),
        Err(DepotRefusal::Missing) => Reply::made(
            Status::NoFile,
            named_line(alloc, "NO FILE", command.file()),
        ),
        Err(DepotRefusal::Failed) => Reply::fixed(Status::Source, "SOURCE\n"),
        Err(DepotRefusal::OutOfMemory) => Reply::no_memory(),
    }
}

// What is to be said of the command's file.
fn reply_to_file(
    rt: &(impl Threads + Sync),
    alloc: Global,
    command: &CellCommand<'_>,
    bytes: &[u8],
) -> Reply
    ensures { AnswerTells
        (answer_of command.now.query
        (file_records bytes.now)) command.now.file result.status result.text
        ⊎ (result ≡ no_memory) }
{
    match cell_of_csv(
        rt,
        alloc,
        bytes,
        command.column(),
        command.aggregator(),
        command.pairs(),
    ) {
        Ok(value) => Reply::made(Status::Done, value_line(alloc, &value)),
        Err(fault) => reply_to_fault(alloc, command.file(), &fault),
    }
}

// What is to be said of a fault.
fn reply_to_fault(alloc: Global, file: &str, fault: &CellFault) -> Reply
    ensures { IsSaid (fault.now ≢ CellFault.OutOfMemory) Status.Schema
        (fact_line file.now (refusal_text fault.now)) result }
{
    match fault {
        CellFault::OutOfMemory => Reply::no_memory(),
        CellFault::NotCsv { .. }
        | CellFault::NoColumn { .. }
        | CellFault::NotNumber { .. }
        | CellFault::TooManyRows { .. } => {
            Reply::made(Status::Schema, refusal_line(alloc, file, fault))
        }
    }
}

fn value_line(alloc: Global, value: &CellValue) -> Result<Text, OutOfMemory>
    ensures { IfOk result (λ t. t ≡ line (plain_text value.now)) }
{
    let text = plain_text(alloc, value)?;
    Ok(Text::from_string(format!(in alloc; "{text}\n")?))
}

fn refusal_line(alloc: Global, file: &str, fault: &CellFault) -> Result<Text, OutOfMemory>
    ensures { IfOk result (λ t. t ≡ fact_line file.now (refusal_text fault.now)) }
{
    let told = fault.text(alloc)?;
    fact_line(alloc, file, told.as_str())
}
