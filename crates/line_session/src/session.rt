//! A session: the lines of an input, one after another, each with its reply.
ghost use Rattle.std.specs.Prelude.{◌≡◌, ◌≢◌, ◌<◌, ◌≤◌, ◌+◌, ◌^◌, ◌++◌, ◌∷◌, ◌⊎◌, [], List, ℕ, OnErr, OnOk, length};
ghost use Rattle.query_meaning.specs.Replies.{too_long_reply};
ghost use Rattle.outside.specs.Event.{Event, took};
ghost use Rattle.outside.specs.Fetched.{Fetched};
ghost use Rattle.outside.specs.Talks.{taken};
ghost use Rattle.input_lines.specs.Reader.{IsAtEnd};
ghost use Rattle.line_session.specs.Desks.{GoesOn, IsIdle};
ghost use Rattle.line_session.specs.Conversations.{HasConversed, IsCutOff, fresh, sent};
ghost use Rattle.line_session.specs.Replies.{Handled};
ghost use Rattle.line_session.specs.Sessions.{IsServed, ReadsFew, all_read, byte_limit};
ghost use Rattle.line_session.specs.Turns.{HasPassed, Replies, Turn};
ghost use Rattle.line_session.specs.Tools.{tools_of};

use crate::desk::Desk;
use crate::end::SessionEnd;
use crate::handle::reply_to_line;
use crate::tools::Tools;
use fact_versions::Steps;
use input_lines::{LineReader, Next};
use olap_catalog::Catalog;
use outside::{CutOff, Depot, Failed, Link};
use segment_header::{AllowsValues, Widener};
use shown_values::{Formatter, GivesTexts};
use std::alloc::Global;
use std::sync::ledger::Ledger;

// Sends a text, if it is not empty.
fn send<K: Link>(link: &mut K, text: &str) -> Result<(), CutOff>
    ensures passed { OnOk result (K.talk link.new ≡ K.talk link.old ++ sent text.now) }
    ensures cut { OnErr result ((last : List Event) × (K.talk link.new ≡ K.talk link.old ++ last)
        × IsCutOff text.now last) }
    ensures unread { K.left link.new ≡ K.left link.old }
{
    if text.is_empty() {
        return Ok(());
    }
    link.send(text.as_bytes())
}

// Answers a line, and sends its reply. Tells how the session ends, where it does.
fn answer_line<P: Desk, K: Link, D: Depot, L: Ledger>(
    alloc: Global,
    desk: &mut P,
    link: &mut K,
    depot: &mut D,
    catalog: &Catalog,
    tools: &Tools,
    line: &[u8],
    steps: &mut Steps<L>,
) -> Option<SessionEnd>
    requires catalog { catalog.now ≡ (P.seen desk.old).cache.setting.catalog }
    requires line { length line.now < 2 ^ 32 }
    ensures answered { (events : List Event) × (asked : List Fetched) × (read : ℕ)
        × (steps.new ≡ steps.old + read)
        × HasPassed (K.talk link.old) (K.talk link.new) (D.answers depot.old) (D.answers depot.new)
        (D.files depot.old) events asked
        × Replies (tools_of (⟦<Formatter as GivesTexts>⟧.answers tools.now.formatter)
        (⟦<Widener as AllowsValues>⟧.answers tools.now.widener))
        (record { before = P.seen desk.old; after = P.seen desk.new; asked = asked })
        line.now read events result }
    ensures unread { K.left link.new ≡ K.left link.old }
    ensures grown { GoesOn (P.seen desk.old) (P.seen desk.new) }
    ensures files { D.files depot.new ≡ D.files depot.old }
{
    let (reply, ends) = reply_to_line(alloc, desk, depot, catalog, tools, line, steps);
    match send(link, reply.as_str()) {
        Err(_) => Some(SessionEnd::SendFault),
        Ok(()) if ends => Some(SessionEnd::Quit),
        Ok(()) => None,
    }
}

// Sends the reply to too long a line.
fn refuse_long_line<K: Link>(link: &mut K) -> SessionEnd
    ensures end { (result ≡ SessionEnd.LongLine) ⊎ (result ≡ SessionEnd.SendFault) }
    ensures passed { result ≡ SessionEnd.LongLine
        → K.talk link.new ≡ K.talk link.old ++ took too_long_reply ∷ [] }
    ensures cut { result ≡ SessionEnd.SendFault → (last : List Event)
        × (K.talk link.new ≡ K.talk link.old ++ last) × IsCutOff too_long_reply last }
    ensures unread { K.left link.new ≡ K.left link.old }
{
    match send(link, "ERR 1 LINE 65536\n") {
        Ok(()) => SessionEnd::LongLine,
        Err(_) => SessionEnd::SendFault,
    }
}

// Takes what comes next of the input, and answers it. Tells how the session ends, where it does.
fn take_turn<P: Desk, K: Link, D: Depot, L: Ledger>(
    alloc: Global,
    desk: &mut P,
    reader: &mut LineReader,
    link: &mut K,
    depot: &mut D,
    catalog: &Catalog,
    tools: &Tools,
    steps: &mut Steps<L>,
) -> Option<SessionEnd>
    requires catalog { catalog.now ≡ (P.seen desk.old).cache.setting.catalog }
    ensures turn { (events : List Event) × (asked : List Fetched) × (read : ℕ)
        × (steps.new ≡ steps.old + read)
        × HasPassed (K.talk link.old) (K.talk link.new) (D.answers depot.old) (D.answers depot.new)
        (D.files depot.old) events asked
        × Turn (tools_of (⟦<Formatter as GivesTexts>⟧.answers tools.now.formatter)
        (⟦<Widener as AllowsValues>⟧.answers tools.now.widener)) reader.old reader.new
        (record { before = P.seen desk.old; after = P.seen desk.new; asked = asked })
        read events (K.left link.old) (K.left link.new) result }
    ensures end { IsAtEnd reader.old.ended (K.left link.old)
        → IsAtEnd reader.new.ended (K.left link.new) }
    ensures grown { GoesOn (P.seen desk.old) (P.seen desk.new) }
    ensures files { D.files depot.new ≡ D.files depot.old }
{
    match reader.next(link) {
        Ok(Next::Line) => answer_line(
            alloc,
            desk,
            link,
            depot,
            catalog,
            tools,
            reader.line(),
            steps,
        ),
        Ok(Next::TooLong) => Some(refuse_long_line(link)),
        Ok(Next::End) => Some(SessionEnd::EndOfInput),
        Ok(Next::Spent) => Some(SessionEnd::Budget),
        Err(Failed) => Some(SessionEnd::ReceiveFault),
    }
}

/// Serves a session over a desk: answers the lines that come over a link, one after another, until one ends the session,
/// the end comes, a line is too long, or more than `most` bytes come. Each reply is sent before the next line is waited
/// for. `catalog` is the desk's; the values of grids are shown by the tools' formatter; the files of appends are fetched from
/// the depot.
///
/// It ends for want of memory only before anything is received. The lines are those of the bytes that come, however they
/// come in pieces. As many steps are added at most as the loads cost that the desk's seat has started, and as the versions have
/// rows over which it has built a table, or found no memory for one.
pub fn serve<P: Desk, K: Link, D: Depot, L: Ledger>(
    alloc: Global,
    desk: &mut P,
    link: &mut K,
    depot: &mut D,
    catalog: &Catalog,
    tools: &Tools,
    most: u64,
    steps: &mut Steps<L>,
) -> SessionEnd
    requires catalog { catalog.now ≡ (P.seen desk.old).cache.setting.catalog }
    requires most { most ≤ byte_limit }
    // What has passed is a conversation, of every link and every depot. Where the link tells what is left, the lines that were
    // handled in it are those of that. The steps that are added are what was read for them.
    ensures served { result ≢ SessionEnd.Memory → (asked : List Fetched) × (handled : List Handled)
        × (D.answers depot.new ≡ D.answers depot.old ++ asked)
        × HasConversed (tools_of (⟦<Formatter as GivesTexts>⟧.answers tools.now.formatter)
        (⟦<Widener as AllowsValues>⟧.answers tools.now.widener))
        (K.talk link.old) (K.talk link.new)
        (D.answers depot.old) (D.answers depot.new) (D.files depot.old) (fresh most)
        (P.seen desk.old) (P.seen desk.new) result handled
        × IsServed (tools_of (⟦<Formatter as GivesTexts>⟧.answers tools.now.formatter)
        (⟦<Widener as AllowsValues>⟧.answers tools.now.widener)) most result
        (record { before = P.seen desk.old; after = P.seen desk.new; asked = asked })
        (K.left link.old) (taken (K.talk link.old)) (taken (K.talk link.new)) handled
        × (steps.new ≡ steps.old + all_read handled)
        × ReadsFew (record { before = P.seen desk.old; after = P.seen desk.new; asked = asked })
        handled }

    // Where there was no memory to begin, nothing has passed.
    ensures unserved { result ≡ SessionEnd.Memory
        → (P.seen desk.new ≡ P.seen desk.old) × (link.new ≡ link.old) × (depot.new ≡ depot.old)
        × (steps.new ≡ steps.old) }
    ensures grown { GoesOn (P.seen desk.old) (P.seen desk.new) }
    ensures idle { IsIdle (P.seen desk.new) }
    ensures files { D.files depot.new ≡ D.files depot.old }
    ensures at_least { steps.old ≤ steps.new }
{
    desk.seen_is_legal();
    let Ok(mut reader) = LineReader::new(alloc, most) else {
        return SessionEnd::Memory;
    };
    loop {
        let turn = take_turn(alloc, desk, &mut reader, link, depot, catalog, tools, steps);
        desk.seen_is_legal();
        if let Some(end) = turn {
            return end;
        }
    }
}
