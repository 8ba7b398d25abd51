//! Sessions over a desk. The head of the table names the formatter, the widener, how many rows the cubes may have, and the
//! file of the schema. Over the cache, in which nothing has happened, each line is a session of its own: it asks by how many
//! bytes may be lines, a space, and the bytes that come. What is said is how it ends, how much the loads have read in all by
//! then, and what is sent. With the word `opened` in the place of a number of rows the cache is the one that the file opens.
ghost use Rattle.std.specs.Prelude.{◌≡◌, ◌≤◌, [], IfOk, IfSome, IsTrue};
ghost use Rattle.history_core.specs.Seats.{NoneFlies, entries_of};
ghost use Rattle.olap_meaning.specs.Texts.{CanBeShown};
ghost use Rattle.query_meaning.specs.Shown.{Shows};
ghost use Rattle.segment_header.specs.Widening.{Serves, are_wanted};
ghost use Rattle.line_session.specs.Sessions.{byte_limit};

use crate::escapes::{add_bytes, bytes_of};
use crate::shows::{Manner, manner_of, shown};
use crate::tables::{compared, parted};
use crate::widens::{Allows, allowed, allows_of};
use anyhow::{Result, anyhow, bail};
use cache_manager::Manager;
use cache_opening::open_cache;
use fact_versions::Steps;
use line_session::{SessionEnd, Tools, serve};
use manager_desk::ManagerDesk;
use olap_catalog::Catalog;
use olap_meaning::{Allowed, CellValue, List, OutOfMemory, ROW_LIMIT, Text, ValueId};
use outside::{Calls, FolderDepot, MemoryLink, MemorySink, MemorySource, Pair};
use segment_header::{Widener, Widening};
use shown_values::{Formatter, Showing};
use std::alloc::Global;
use std::marker::Brand;
use std::rt::Files;
use std::sync::Arc;
use std::sync::ledger::{Blank, Ledger};

// The most groups that the kept loads have after an answer.
const BUDGET: u64 = 1_000_000;

fn no_memory(_fault: OutOfMemory) -> anyhow::Error {
    anyhow!("no memory")
}

fn number(word: &str) -> Result<u32> {
    match word.parse::<u32>() {
        Ok(number) => Ok(number),
        Err(_) => bail!("a number is wanted"),
    }
}

// A cache that is opened from a schema's file.
fn opened<L: Ledger>(
    rt: &(impl Files + AllocGlobal),
    schema: &str,
    steps: &mut Steps<L>,
) -> Result<Manager>
    ensures idle { IfOk result (λ manager. NoneFlies manager.entries) }
    ensures unused { IfOk result (λ manager. entries_of manager.entries 1 ≡ []) }
{
    let mut depot = FolderDepot::new(rt);
    match open_cache(rt.alloc(), &mut depot, schema, BUDGET, steps) {
        Ok(manager) => Ok(manager),
        Err(_) => bail!("the cache was not opened"),
    }
}

// The catalog of a schema's file.
fn catalog_of<L: Ledger>(
    rt: &(impl Files + AllocGlobal),
    schema: &str,
    steps: &mut Steps<L>,
) -> Result<Arc<Catalog>> {
    let manager = opened(rt, schema, steps)?;
    Ok(Arc::try_clone(manager.catalog())?)
}

// A desk over a manager in which nothing has happened.
fn desk_with(manager: Manager) -> Result<ManagerDesk>
    requires { manager.entries ≡ [] }
{
    if !manager.is_idle() {
        bail!("a load flies");
    }
    Ok(ManagerDesk::new(manager))
}

// A desk over a cache of a catalog in which nothing has happened.
fn desk_over(alloc: Global, catalog: Arc<Catalog>, row_limit: u32) -> Result<ManagerDesk>
    requires { row_limit ≤ ROW_LIMIT }
{
    match Manager::new(alloc, catalog, row_limit, BUDGET) {
        Ok(manager) => desk_with(manager),
        Err(_) => bail!("no memory"),
    }
}

// A desk over the cache that a schema's file opens; or, where a limit of rows is given, over one of its catalog in which nothing
// has happened.
fn desk_of<L: Ledger>(
    rt: &(impl Files + AllocGlobal),
    schema: &str,
    row_limit: Option<u32>,
    steps: &mut Steps<L>,
) -> Result<ManagerDesk>
    requires { IfSome row_limit (λ limit. limit ≤ ROW_LIMIT) }
{
    match row_limit {
        Some(limit) => {
            let catalog = catalog_of(rt, schema, steps)?;
            desk_over(rt.alloc(), catalog, limit)
        }
        None => Ok(ManagerDesk::new(opened(rt, schema, steps)?)),
    }
}

// The most bytes that may be lines, and that are sent.
const MOST_BYTES: u64 = 5_000;

const ROOM: usize = 5_000;

// A link over which these bytes come.
fn link_over(alloc: Global, bytes: Vec<u8>) -> Result<MemoryLink, OutOfMemory> {
    let source = MemorySource::new(List::from_vec(bytes), Calls::passing(alloc), None, None);
    let sink = MemorySink::new(alloc, Calls::passing(alloc), ROOM)?;
    Ok(Pair::new(source, sink))
}

// The link of a text.
fn link_of(alloc: Global, text: &str) -> Result<MemoryLink> {
    let bytes = bytes_of(alloc, text)?;
    link_over(alloc, bytes).map_err(no_memory)
}

// How a session over a desk ends, where this many bytes may be lines.
fn served<L: Ledger>(
    rt: &(impl Files + AllocGlobal),
    desk: &mut ManagerDesk,
    link: &mut MemoryLink,
    tools: &Tools,
    most: u64,
    steps: &mut Steps<L>,
) -> Result<SessionEnd>
    requires { most ≤ byte_limit }
{
    let mut depot = FolderDepot::new(rt);
    let catalog = Arc::try_clone(desk.catalog())?;
    Ok(serve(
        rt.alloc(),
        desk,
        link,
        &mut depot,
        &catalog,
        tools,
        most,
        steps,
    ))
}

fn name_of(end: &SessionEnd) -> &'static str {
    match end {
        SessionEnd::Quit => "quit",
        SessionEnd::EndOfInput => "end",
        SessionEnd::LongLine => "long line",
        SessionEnd::Budget => "budget",
        SessionEnd::ReceiveFault => "receive fault",
        SessionEnd::SendFault => "send fault",
        SessionEnd::Memory => "no memory",
    }
}

// Adds how a session ended, and what was sent.
fn add_ended(
    alloc: Global,
    said: &mut String,
    end: &SessionEnd,
    read: u128,
    sent: &[u8],
) -> Result<()> {
    let end = name_of(end);
    said.push_str(format!(in alloc; "{end} {read} ")?.as_str())?;
    Ok(add_bytes(alloc, said, sent)?)
}

// Adds what is said of a session over a link.
fn add_served<L: Ledger>(
    rt: &(impl Files + AllocGlobal),
    said: &mut String,
    desk: &mut ManagerDesk,
    link: &mut MemoryLink,
    tools: &Tools,
    most: u32,
    steps: &mut Steps<L>,
) -> Result<()> {
    let most = u64::from(most).min(MOST_BYTES);
    let end = served(rt, desk, link, tools, most, steps)?;
    add_ended(rt.alloc(), said, &end, desk.read(), link.output().taken())
}

// How many bytes may be lines, and the bytes that come.
fn asked_of(asked: &str) -> Result<(u32, &str)> {
    match asked.split_once(' ') {
        Some((most, text)) => Ok((number(most)?, text)),
        None => bail!("a number of bytes and a text are wanted"),
    }
}

// Adds what is said of a session.
fn add_session<L: Ledger>(
    rt: &(impl Files + AllocGlobal),
    said: &mut String,
    desk: &mut ManagerDesk,
    tools: &Tools,
    asked: &str,
    steps: &mut Steps<L>,
) -> Result<()> {
    let (most, text) = asked_of(asked)?;
    let mut link = link_of(rt.alloc(), text)?;
    add_served(rt, said, desk, &mut link, tools, most, steps)
}

// Whether a line comes out as it stands.
fn tell_line<L: Ledger>(
    rt: &(impl Files + AllocGlobal + Print),
    table: &str,
    desk: &mut ManagerDesk,
    tools: &Tools,
    line: &str,
    steps: &mut Steps<L>,
) -> Result<bool> {
    let (asked, wanted) = parted(line)?;
    let mut said = String::new(rt.alloc());
    add_session(rt, &mut said, desk, tools, asked, steps)?;
    compared(rt, table, asked, said.as_str(), wanted)
}

// Whether each line comes out as it stands.
fn tell_lines<L: Ledger>(
    rt: &(impl Files + AllocGlobal + Print),
    table: &str,
    desk: &mut ManagerDesk,
    tools: &Tools,
    lines: &str,
    steps: &mut Steps<L>,
) -> Result<bool> {
    let mut same = true;
    for line in lines.lines() {
        same &= tell_line(rt, table, desk, tools, line, steps)?;
    }
    Ok(same)
}

/// A table of sessions: its name, the schema's file, and its lines. A call that picks ghost members can take no text as
/// `&str`.
#[derive(Drop)]
struct Sessions {
    table: String,
    schema: String,
    lines: String,
}

fn sessions_of(alloc: Global, table: &str, schema: &str, lines: &str) -> Result<Sessions> {
    let table = String::from_str(alloc, table)?;
    let schema = String::from_str(alloc, schema)?;
    Ok(Sessions {
        table,
        schema,
        lines: String::from_str(alloc, lines)?,
    })
}

// The same over a desk of its own.
fn tell_over<L: Ledger>(
    rt: &(impl Files + AllocGlobal + Print),
    sessions: &Sessions,
    row_limit: Option<u32>,
    tools: &Tools,
    blank: Blank,
) -> Result<bool>
    requires rows { IfSome row_limit (λ limit. limit ≤ ROW_LIMIT) }
    requires name { blank.name ≡ L.name }
    requires parts { blank.parts ≡ L.parts }
    requires one { blank.parts ≡ 1 }
{
    let (table, lines) = (sessions.table.as_str(), sessions.lines.as_str());
    let mut steps: Steps<L> = Steps::new(blank);
    let mut desk = desk_of(rt, sessions.schema.as_str(), row_limit, &mut steps)?;
    tell_lines(rt, table, &mut desk, tools, lines, &mut steps)
}

// The same with a counter of steps of its own.
fn tell_counted(
    rt: &(impl Files + AllocGlobal + Print),
    sessions: &Sessions,
    row_limit: Option<u32>,
    tools: &Tools,
) -> Result<bool>
    requires { IfSome row_limit (λ limit. limit ≤ ROW_LIMIT) }
{
    tell_over::<Brand>(rt, sessions, row_limit, tools, Blank::new(1))
}

// The same with tools that are borrowed.
fn tell_with(
    rt: &(impl Files + AllocGlobal + Print),
    table: &str,
    schema: &str,
    row_limit: Option<u32>,
    tools: &Tools,
    lines: &str,
) -> Result<bool>
    requires { IfSome row_limit (λ limit. limit ≤ ROW_LIMIT) }
{
    let sessions = sessions_of(rt.alloc(), table, schema, lines)?;
    tell_counted(rt, &sessions, row_limit, tools)
}

// The same with a formatter and a widener of these kinds. Both closures stand here, since what they promise is lost where a
// function hands them out.
fn tell_by(
    rt: &(impl Files + AllocGlobal + Print),
    table: &str,
    schema: &str,
    row_limit: Option<u32>,
    kinds: (Manner, Allows),
    lines: &str,
) -> Result<bool>
    requires { IfSome row_limit (λ limit. limit ≤ ROW_LIMIT) }
{
    let (alloc, (manner, allows)) = (rt.alloc(), kinds);
    let show: Showing = Box::new(
        alloc,
        move |value: &CellValue| -> std::result::Result<Text, OutOfMemory>
            requires { CanBeShown value.now }
            ensures { IfOk result (Shows value.now) }
        { shown(alloc, manner, value) },
    )?;
    let widen: Widening = Box::new(
        alloc,
        move |wanted: &[ValueId], count: u32| -> std::result::Result<Allowed, OutOfMemory>
            requires { IsTrue (are_wanted wanted.now count) }
            ensures { IfOk result (Serves wanted.now count) }
        { allowed(alloc, allows, wanted, count) },
    )?;
    let tools = Tools {
        formatter: Formatter::new(show),
        widener: Widener::new(widen),
    };
    tell_with(rt, table, schema, row_limit, &tools, lines)
}

// The limit of rows of a word; none for the word `opened`.
fn limit_of(word: &str) -> Result<Option<u32>>
    ensures { IfOk result (λ limit. IfSome limit (λ limit. limit ≤ ROW_LIMIT)) }
{
    match word {
        "opened" => Ok(None),
        _ => Ok(Some(number(word)?.min(ROW_LIMIT))),
    }
}

/// Whether each line of a table comes out as it stands, by the words of its head after its kind.
pub(crate) fn tell(
    rt: &(impl Files + AllocGlobal + Print),
    table: &str,
    setting: &str,
    lines: &str,
) -> Result<bool> {
    let words = setting.split(' ').collect::<Vec<&str>>(rt.alloc())?;
    let [show, allow, rows, schema] = words.as_slice() else {
        bail!("a formatter, a widener, a limit of rows and a schema are wanted");
    };
    let row_limit = limit_of(rows)?;
    let kinds = (manner_of(show)?, allows_of(allow)?);
    tell_by(rt, table, schema, row_limit, kinds, lines)
}
