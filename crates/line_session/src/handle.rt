//! What is replied to a line.
ghost use Rattle.std.specs.Prelude.{◌≡◌, ◌<◌, ◌^◌, ◌+◌, ◌++◌, [], List, Option, ℕ, length};
ghost use Rattle.input_lines.specs.Asked.{asked};
ghost use Rattle.input_lines.specs.Requests.{IsRequest};
ghost use Rattle.outside.specs.Fetched.{Fetched};
ghost use Rattle.outside.specs.Told.{AreTheirs};
ghost use Rattle.line_session.specs.Desks.{GoesOn};
ghost use Rattle.line_session.specs.Replies.{AnswersRequest, Dealing, Handles, IsRead, TellsWhatIsSeen};
ghost use Rattle.line_session.specs.Sessions.{ends_session};
ghost use Rattle.line_session.specs.Tools.{tools_of};

use crate::agg::reply_to_agg;
use crate::append::reply_to_append;
use crate::desk::Desk;
use crate::flush::reply_to_flush;
use crate::query::reply_to_query;
use crate::reply::Reply;
use crate::show::reply_to_show;
use crate::tools::Tools;
use fact_versions::Steps;
use input_lines::{Request, read_request};
use olap_catalog::Catalog;
use olap_meaning::OutOfMemory;
use outside::Depot;
use segment_header::{AllowsValues, Widener};
use shown_values::{Formatter, GivesTexts};
use std::alloc::Global;
use std::sync::ledger::Ledger;

// The reply to a line that asks whether there are this many entries. It takes no memory.
fn reply_to_after<P: Desk>(desk: &mut P, count: u64) -> Reply
    ensures { (position : Option ℕ)
        × TellsWhatIsSeen (record { before = P.seen desk.old; after = P.seen desk.new; asked = [] })
        count position result }
{
    match desk.after(count) {
        Ok(front) => Reply::numbers("SEEN", &[front]),
        Err(not_yet) => Reply::numbers("ERR 14 NOT YET", &[not_yet.asked, not_yet.front]),
    }
}

// The reply to a line that asks for this.
fn reply_to_request<P: Desk, D: Depot, L: Ledger>(
    alloc: Global,
    desk: &mut P,
    depot: &mut D,
    catalog: &Catalog,
    tools: &Tools,
    request: &Request,
    steps: &mut Steps<L>,
) -> Reply
    requires catalog { catalog.now ≡ (P.seen desk.old).cache.setting.catalog }
    requires meant { (line : List ℕ) × IsRequest line (asked request.now) }
    ensures answered { (position : Option ℕ) × (fetched : List Fetched) × (read : ℕ)
        × (steps.new ≡ steps.old + read)
        × (D.answers depot.new ≡ D.answers depot.old ++ fetched)
        × AreTheirs (D.files depot.old) fetched
        × (let around : Dealing = record {
          before = P.seen desk.old;
          after = P.seen desk.new;
          asked = fetched;
        } in AnswersRequest (tools_of (⟦<Formatter as GivesTexts>⟧.answers tools.now.formatter)
        (⟦<Widener as AllowsValues>⟧.answers tools.now.widener))
        around (asked request.now) position result
        × IsRead around (asked request.now) position read) }
    ensures files { D.files depot.new ≡ D.files depot.old }
{
    match request {
        Request::NotText => Reply::fixed("ERR 2 UTF8\n"),
        Request::Blank => Reply::fixed(""),
        Request::NoCommand => Reply::fixed("ERR 3 COMMAND\n"),
        Request::Stops(byte) => Reply::numbers("ERR 4 SYNTAX", &[*byte as u64]),
        Request::Quit => Reply::fixed("BYE\n"),
        Request::After(count) => reply_to_after(desk, *count),
        Request::Append(argument) => reply_to_append(alloc, desk, depot, catalog, argument),
        Request::Ask(query) => reply_to_query(alloc, desk, catalog, tools, query, steps),
        Request::Flush(text) => reply_to_flush(alloc, desk, catalog, text),
        Request::Agg(name) => reply_to_agg(alloc, desk, catalog, name.as_str(), steps),
        Request::Show => reply_to_show(alloc, desk, catalog),
    }
}

// Whether a line that asks for this ends the session.
fn is_end(request: &Request) -> bool
    ensures { (line : List ℕ) → IsRequest line (asked request.now) → result ≡ ends_session line }
{
    matches!(request, Request::Quit)
}

/// The reply to a line of a session, and whether it ends the session.
pub(crate) fn reply_to_line<P: Desk, D: Depot, L: Ledger>(
    alloc: Global,
    desk: &mut P,
    depot: &mut D,
    catalog: &Catalog,
    tools: &Tools,
    line: &[u8],
    steps: &mut Steps<L>,
) -> (Reply, bool)
    requires catalog { catalog.now ≡ (P.seen desk.old).cache.setting.catalog }
    requires line { length line.now < 2 ^ 32 }
    ensures handled { (position : Option ℕ) × (asked : List Fetched) × (read : ℕ)
        × (steps.new ≡ steps.old + read)
        × (D.answers depot.new ≡ D.answers depot.old ++ asked)
        × AreTheirs (D.files depot.old) asked
        × Handles (tools_of (⟦<Formatter as GivesTexts>⟧.answers tools.now.formatter)
        (⟦<Widener as AllowsValues>⟧.answers tools.now.widener))
        (record { before = P.seen desk.old; after = P.seen desk.new; asked = asked })
        (record { line = line.now; position = position; reply = result.0; read = read }) }
    ensures files { D.files depot.new ≡ D.files depot.old }
    ensures ends { result.1 ≡ ends_session line.now }
    ensures grown { GoesOn (P.seen desk.old) (P.seen desk.new) }
{
    match read_request(alloc, line) {
        Ok(request) => {
            let reply = reply_to_request(alloc, desk, depot, catalog, tools, &request, steps);
            (reply, is_end(&request))
        }
        Err(OutOfMemory) => (Reply::no_memory(), false),
    }
}
