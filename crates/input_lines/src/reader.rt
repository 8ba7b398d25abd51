//! A reader of lines.
ghost use Rattle.std.specs.Prelude.{◌≡◌, ◌≢◌, ◌+◌, ◌==◌, ◌<◌, ◌≤◌, ◌++◌, ◌∷◌, false, true, ℕ, List, [], IfOk, OnErr, IfSome, Ok, length, take, drop, slice_range, min};
ghost use Rattle.outside.specs.Event.{Event, gave_not};
ghost use Rattle.outside.specs.Told.{TakenOff};
ghost use Rattle.query_meaning.specs.Lines.{HasNoLf};
ghost use Rattle.input_lines.specs.Reader.{Finds, HasHeard, HasReceived, HoldsSame, IsAtEnd, IsFound, KeepsRoom, NeedsNoMore, NeedsNothing, SaysNext, Tells, TellsFront, TellsOf, allowed, heard_of, line_length, not_given, received, without_cr};

use crate::next::{Found, Next};
use memchr::memchr;
use olap_meaning::OutOfMemory;
use outside::{Failed, Link};
use std::alloc::Global;
use std::marker::Model;

/// The longest line, in bytes before its LF.
pub const LINE_LIMIT: usize = 65_536;

/// The most bytes that a reader holds.
pub const BUFFER_SIZE: usize = 131_072;

/// Reads an input line by line. It holds the bytes that it has received from its link and not yet given, and the line
/// that it gave last. Of the input at most this many bytes may be lines, and it receives at most one byte after these.
#[derive(Drop)]
pub struct LineReader {
    bytes: Vec<u8>,
    // Where the given line begins and ends.
    line_start: usize,
    line_end: usize,
    // Where the held bytes begin and end.
    start: usize,
    end: usize,
    // Where the byte ends that came after all that may be lines: where the held bytes do until it has come.
    behind: usize,
    // How many bytes more may be lines.
    room: u64,
    ended: bool,
}

impl Model for LineReader {
    ghost use Rattle.std.specs.Prelude.{◌≡◌, ◌<◌, ◌≤◌, length, slice_range};
    ghost use Rattle.input_lines.specs.declared.reader.TheConstants.{BUFFER_SIZE};
    ghost use Rattle.input_lines.specs.Reader.{Reading};

    ghost Value = { Reading };

    ghost view = { λ r. record {
      line = slice_range r.bytes.items r.line_start r.line_end;
      held = slice_range r.bytes.items r.start r.end;
      room = r.room;
      beyond = slice_range r.bytes.items r.end r.behind;
      ended = r.ended;
    } };

    ghost invariant = { λ r. (r.line_start ≤ r.line_end) × (r.line_end ≤ r.bytes.len) × (r.start ≤ r.end)
        × (r.end ≤ r.behind) × (r.behind ≤ r.bytes.len) × (r.bytes.len ≡ BUFFER_SIZE)
        × (r.end < r.behind → r.room ≡ 0) };
}

// This many bytes of no meaning.
fn room(alloc: Global, size: usize) -> Result<Vec<u8>, OutOfMemory>
    ensures { IfOk result (λ v. v.len ≡ size) }
{
    Ok(vec![in alloc; 0; size]?)
}

// Moves the bytes between two places to the front, where few places are left after them. Gives where they stand then.
fn make_room(bytes: &mut Vec<u8>, start: usize, end: usize) -> (usize, usize)
    requires order { start ≤ end }
    requires within { end ≤ bytes.old.len }
    requires few { end ≤ start + LINE_LIMIT }
    ensures len { bytes.new.len ≡ bytes.old.len }
    ensures order { result.0 ≤ result.1 }
    ensures room { result.1 ≤ LINE_LIMIT }
    ensures same { slice_range bytes.new.items result.0 result.1
        ≡ slice_range bytes.old.items start end }
{
    if end <= LINE_LIMIT {
        return (start, end);
    }
    bytes.copy_within(start..end, 0);
    (0, end - start)
}

// How far bytes may be received from a place on, where this many more may be lines: up to one after these.
fn stop_behind(place: usize, size: usize, room: u64) -> usize
    requires { place < size }
    ensures order { place < result }
    ensures within { result ≤ size }
    ensures few { result ≤ place + (room + 1) }
{
    if room < (size - place) as u64 {
        place + room as usize + 1
    } else {
        size
    }
}

// Reads bytes between two places.
fn read_to<K: Link>(
    link: &mut K,
    bytes: &mut [u8],
    place: usize,
    stop: usize,
) -> Result<usize, Failed>
    requires order { place < stop }
    requires within { stop ≤ length bytes.old }
    ensures size { length bytes.new ≡ length bytes.old }
    ensures before { take place bytes.new ≡ take place bytes.old }
    ensures within { IfOk result (λ n. place + n ≤ stop) }
    ensures taken { IfOk result
        (λ n. TakenOff (K.left link.old) (K.left link.new) (take n (drop place bytes.new))) }
    ensures end { IfOk result (λ n. n ≡ 0 → IfSome (K.left link.new) (λ left. left ≡ [])) }
    ensures untaken { OnErr result (K.left link.new ≡ K.left link.old) }
    ensures gave { IfOk result (λ n. K.talk link.new
        ≡ K.talk link.old ++ received (take n (drop place bytes.new))) }
    ensures failed { OnErr result (K.talk link.new ≡ K.talk link.old ++ gave_not ∷ []) }
{
    link.receive(&mut bytes[place..stop])
}

// Reads bytes after those between two places, where this many more may be lines, and gives their number: 0 only at the
// input's end.
fn read_behind<K: Link>(
    link: &mut K,
    bytes: &mut Vec<u8>,
    start: usize,
    end: usize,
    room: u64,
) -> Result<usize, Failed>
    requires order { start ≤ end }
    requires space { end < bytes.old.len }
    ensures len { bytes.new.len ≡ bytes.old.len }
    ensures within { IfOk result (λ n. end + n ≤ bytes.old.len) }
    ensures few { IfOk result (λ n. n ≤ room + 1) }
    ensures taken { IfOk result (λ n. TakenOff (K.left link.old) (K.left link.new)
        (take n (drop end bytes.new.items))) }
    ensures gave { IfOk result (λ n. K.talk link.new
        ≡ K.talk link.old ++ received (take n (drop end bytes.new.items))) }
    ensures end { IfOk result (λ n. n ≡ 0 → IfSome (K.left link.new) (λ left. left ≡ [])) }
    ensures untaken { OnErr result (K.left link.new ≡ K.left link.old) }
    ensures kept { slice_range bytes.new.items start end
        ≡ slice_range bytes.old.items start end }
    ensures failed { OnErr result (K.talk link.new ≡ K.talk link.old ++ gave_not ∷ []) }
{
    let stop = stop_behind(end, bytes.len(), room);
    read_to(link, bytes, end, stop)
}

// How many bytes stand before the first LF, where it is not among this many of the first.
fn before_lf(held: &[u8], looked: usize) -> usize
    requires { looked ≤ line_length held.now }
    ensures { result ≡ line_length held.now }
{
    match memchr(b'\n', &held[looked..]) {
        Some(more) => looked + more,
        None => held.len(),
    }
}

// What these bytes show, where no LF is among this many of the first.
fn look(held: &[u8], looked: usize) -> Found
    requires { looked ≤ line_length held.now }
    ensures { IsFound result held.now }
{
    let before = before_lf(held, looked);
    if before > LINE_LIMIT {
        Found::TooLong
    } else if before < held.len() {
        Found::Lf(before)
    } else {
        Found::Neither
    }
}

// How many of these bytes there are without a CR that is the last of them.
fn trimmed(bytes: &[u8]) -> usize
    ensures within { result ≤ length bytes.now }
    ensures value { take result bytes.now ≡ without_cr bytes.now }
{
    match bytes.last() {
        Some(b'\r') => bytes.len() - 1,
        _ => bytes.len(),
    }
}

impl LineReader {
    /// A reader that holds nothing, of an input of which at most this many bytes may be lines. It takes all the memory that
    /// it will need.
    pub fn new(alloc: Global, most: u64) -> Result<LineReader, OutOfMemory>
        ensures { IfOk result (λ reader. reader ≡ record {
          line = [];
          held = [];
          room = most;
          beyond = [];
          ended = false;
        }) }
    {
        let bytes = room(alloc, BUFFER_SIZE)?;
        Ok(LineReader {
            bytes,
            line_start: 0,
            line_end: 0,
            start: 0,
            end: 0,
            behind: 0,
            room: most,
            ended: false,
        })
    }

    /// The line that was given last, until the next answer that gives none. It is no longer than what a reader holds.
    pub fn line(&self) -> &[u8]
        ensures value { result.now ≡ self.now.line }
        ensures within { length result.now ≤ BUFFER_SIZE }
    {
        &self.bytes[self.line_start..self.line_end]
    }

    // The bytes that are held.
    fn held(&self) -> &[u8]
        ensures value { result.now ≡ self.now.held }
        ensures bound { length self.now.held ≤ BUFFER_SIZE }
    {
        &self.bytes[self.start..self.end]
    }

    // Whether a byte has come after all that may be lines.
    fn is_spent(&self) -> bool
        ensures none { result ≡ false → self.now.beyond ≡ [] }
        ensures some { result ≡ true → (self.now.beyond ≢ []) × (self.now.room ≡ 0) }
    {
        self.end < self.behind
    }

    // Lets the given line go.
    fn forget(&mut self)
        ensures { self.new ≡ record self.old { line = [] } }
    {
        self.line_start = 0;
        self.line_end = 0;
    }

    // Receives more bytes, and gives their number: 0 only at the end.
    fn fill<K: Link>(&mut self, link: &mut K) -> Result<usize, Failed>
        requires few { length self.old.held ≤ LINE_LIMIT }
        requires line { self.old.line ≡ [] }
        requires beyond { self.old.beyond ≡ [] }
        ensures received { IfOk result (λ n. HasReceived (K.left link.old) (K.left link.new)
            (K.talk link.old) (K.talk link.new) n self.old self.new) }
        ensures end { IfOk result (λ n. n ≡ 0 → IfSome (K.left link.new) (λ left. left ≡ [])) }
        ensures untaken { OnErr result (K.left link.new ≡ K.left link.old) }
        ensures kept { OnErr result (self.new ≡ self.old) }
        ensures failed { OnErr result (K.talk link.new ≡ K.talk link.old ++ gave_not ∷ []) }
    {
        (self.line_start, self.line_end) = (0, 0);
        (self.start, self.end) = make_room(&mut self.bytes, self.start, self.end);
        self.behind = self.end;
        let n = read_behind(link, &mut self.bytes, self.start, self.end, self.room)?;
        let lines = (n as u64).min(self.room);
        self.behind = self.end + n;
        self.end += lines as usize;
        self.room -= lines;
        self.ended = n == 0;
        Ok(n)
    }

    // Receives bytes until an LF is held, or too many bytes, or until the end, or until a byte has come after all that
    // may be lines.
    fn find<K: Link>(&mut self, link: &mut K) -> Result<Found, Failed>
        requires { self.old.line ≡ [] }
        ensures found { IfOk result (λ found. Finds found self.new) }
        ensures heard { HasHeard (K.talk link.old) (K.talk link.new) self.old self.new
            (heard_of result) }
        ensures end { IsAtEnd self.old.ended (K.left link.old)
            → IsAtEnd self.new.ended (K.left link.new) }
        ensures same { HoldsSame (K.left link.old) (K.left link.new) self.old self.new }
        ensures unasked { NeedsNothing self.old → link.new ≡ link.old }
        ensures line { self.new.line ≡ [] }
        ensures bound { length self.new.held ≤ BUFFER_SIZE }
    {
        let mut looked = 0;
        loop {
            match look(self.held(), looked) {
                Found::Neither => {}
                found => return Ok(found),
            }
            if self.is_spent() {
                return Ok(Found::Spent);
            }
            if self.ended {
                return Ok(Found::Neither);
            }
            looked = self.held().len();
            if self.fill(link)? == 0 {
                return Ok(Found::Neither);
            }
        }
    }

    // Gives the line of this many bytes, after which an LF stands.
    fn give_line(&mut self, size: usize)
        requires { size < length self.old.held }
        ensures line { self.new.line ≡ without_cr (take size self.old.held) }
        ensures held { self.new.held ≡ drop (size + 1) self.old.held }
        ensures rest { KeepsRoom self.old self.new }
    {
        self.line_start = self.start;
        self.line_end = self.start + trimmed(&self.bytes[self.start..self.start + size]);
        self.start += size + 1;
    }

    // Gives all that is held as a line.
    fn give_all(&mut self)
        ensures line { self.new.line ≡ self.old.held }
        ensures held { self.new.held ≡ [] }
        ensures rest { KeepsRoom self.old self.new }
    {
        self.line_start = self.start;
        self.line_end = self.end;
        self.start = self.end;
    }

    // Gives what was found to stand in front.
    fn give(&mut self, found: Found) -> Next
        requires found { Finds found self.old }
        requires line { self.old.line ≡ [] }
        ensures says { SaysNext (heard_of (Ok found)) self.old self.new (Ok result) }
        ensures told { (rest : List ℕ) → (self.old.ended ≡ true → rest ≡ [])
            → TellsOf (self.old.held ++ (self.old.beyond ++ rest)) (allowed self.old) result
            self.new.line (self.new.held ++ (self.new.beyond ++ rest)) (allowed self.new) }
        ensures kept { result ≢ Next.Line → self.new ≡ self.old }
        ensures short { length self.new.line ≤ LINE_LIMIT }
        ensures no_lf { HasNoLf self.new.line }
        ensures fewer { length self.new.held ≤ length self.old.held }
        ensures ended { self.new.ended ≡ self.old.ended }
    {
        match found {
            Found::Lf(size) => {
                self.give_line(size);
                Next::Line
            }
            Found::TooLong => Next::TooLong,
            Found::Spent => Next::Spent,
            Found::Neither if self.held().is_empty() => Next::End,
            Found::Neither => {
                self.give_all();
                Next::Line
            }
        }
    }

    /// What comes next of the input. `link` is the same one at each call. A line that is held is given with no receive,
    /// nothing is received after the end or after a byte too many, and a failure loses nothing: the next call goes on
    /// where this one was.
    pub fn next<K: Link>(&mut self, link: &mut K) -> Result<Next, Failed>
        // What has passed for the answer: bytes are received only while more is needed, and the answer is what they
        // begin with.
        ensures tells { (events : List Event) × (K.talk link.new ≡ K.talk link.old ++ events)
            × Tells self.old events self.new result }

        // Where the link tells what is left, the answer tells what the bytes that were not given begin with.
        ensures told { IfOk result (λ next. IsAtEnd self.old.ended (K.left link.old) → TellsFront
            (not_given self.old (K.left link.old)) (allowed self.old) next self.new.line
            (not_given self.new (K.left link.new)) (allowed self.new)) }
        ensures end { IsAtEnd self.old.ended (K.left link.old)
            → IsAtEnd self.new.ended (K.left link.new) }

        // All but a line leaves the bytes as they were, and as many may be lines.
        ensures same { result ≢ Ok Next.Line
            → not_given self.new (K.left link.new) ≡ not_given self.old (K.left link.old) }
        ensures same_room { result ≢ Ok Next.Line → allowed self.new ≡ allowed self.old }
        ensures no_line { result ≢ Ok Next.Line → self.new.line ≡ [] }
        ensures short { length self.new.line ≤ LINE_LIMIT }
        ensures no_lf { HasNoLf self.new.line }
        ensures bound { length self.new.held ≤ BUFFER_SIZE }

        // Nothing is asked of the link while it is known what comes next, nor after a byte too many.
        ensures unasked { NeedsNoMore self.old.held → link.new ≡ link.old }
        ensures spent { self.old.beyond ≢ [] → link.new ≡ link.old }
    {
        self.forget();
        let found = self.find(link)?;
        Ok(self.give(found))
    }
}
