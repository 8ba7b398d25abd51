//! Objects in memory, which tell what they hold and fail as they were told to.
ghost use Rattle.std.specs.Prelude.{◌≡◌, ◌+◌, ◌-◌, ◌≤◌, ◌++◌, ◌∷◌, ◌↔◌, ◌⊎◌, [], IsTrue, IsOk, OnOk, IfOk, IfErr, IsErrOf, None, Some, length, min, option_map, option_copied, take};
ghost use Rattle.outside.specs.Event.{took};
ghost use Rattle.outside.specs.Memory.{counted, fails_next, lets_pass, fits, has_room, at_most};
ghost use Rattle.outside.specs.Talks.{cut, taken};
ghost use Rattle.outside.specs.Told.{file_named};

mod source;

use crate::depot::{Depot, DepotRefusal};
use crate::fetches::{Fetches, noted};
use crate::link::Pair;
use crate::sink::{CutOff, Sink};
use crate::talk::{Note, Talk};
use olap_meaning::{List, OutOfMemory, Text};
pub use source::MemorySource;
use std::alloc::Global;
use std::marker::Model;

/// A link in memory.
pub type MemoryLink = Pair<MemorySource, MemorySink>;

/// Which calls of an object in memory are to fail: their numbers, from 0.
#[derive(Drop)]
pub struct Calls {
    next: u64,
    failing: List<u64>,
}

impl Model for Calls {
    ghost use Rattle.outside.specs.Memory.{Planned};

    ghost Value = { Planned };

    ghost view = { λ c. record { next = c.next; failing = c.failing } };
}

impl Calls {
    /// A plan by which just these calls fail.
    pub fn failing(failing: List<u64>) -> Calls
        ensures { result ≡ record { next = 0; failing = failing } }
    {
        Calls { next: 0, failing }
    }

    /// A plan by which no call fails.
    pub fn passing(alloc: Global) -> Calls
        ensures { result ≡ record { next = 0; failing = [] } }
    {
        Calls {
            next: 0,
            failing: List::new(alloc),
        }
    }

    // Whether the call that now comes is to fail. It is counted.
    fn fails(&mut self) -> bool
        ensures answer { result ≡ fails_next self.old }
        ensures counted { self.new ≡ counted self.old }
    {
        let now = self.next;
        self.next = now.saturating_add(1);
        self.failing.as_slice().iter().any(|n| *n == now)
    }
}

/// A sink in memory. It has room for just so many bytes, and takes the memory for them when it is made.
#[derive(Drop)]
pub struct MemorySink {
    // What was taken stands in front.
    bytes: Vec<u8>,
    used: usize,
    calls: Calls,
    talk: Talk,
}

impl Model for MemorySink {
    ghost use Rattle.std.specs.Prelude.{◌≡◌, ◌-◌, ◌≤◌, take};
    ghost use Rattle.outside.specs.Memory.{Filled};
    ghost use Rattle.outside.specs.Talks.{taken};

    ghost Value = { Filled };

    ghost view = { λ s. record { talk = s.talk.events; plan = s.calls; room = s.bytes.len - s.used } };

    ghost invariant = { λ s. (s.used ≤ s.bytes.len) × (take s.used s.bytes.items ≡ taken s.talk.events) };
}

// So many bytes of no meaning.
fn blank(alloc: Global, size: usize) -> Result<Vec<u8>, OutOfMemory>
    ensures { IfOk result (λ bytes. bytes.len ≡ size) }
{
    Ok(vec![in alloc; 0; size]?)
}

// Puts bytes at a place, behind which there is room for them.
fn put_at(held: &mut Vec<u8>, place: usize, bytes: &[u8])
    requires { place + length bytes.now ≤ held.old.len }
    ensures len { held.new.len ≡ held.old.len }
    ensures front { take (place + length bytes.now) held.new.items
        ≡ take place held.old.items ++ bytes.now }
{
    held[place..place + bytes.len()].copy_from_slice(bytes);
}

impl MemorySink {
    /// A sink that has taken nothing. It takes just as many bytes as it has room for over all its calls: the write that
    /// would cross the number takes the bytes up to it and fails, as does each later one with a byte more.
    pub fn new(alloc: Global, calls: Calls, room: usize) -> Result<MemorySink, OutOfMemory>
        ensures { IfOk result
            (λ sink. sink ≡ record { talk = []; plan = calls; room = room }) }
    {
        Ok(MemorySink {
            bytes: blank(alloc, room)?,
            used: 0,
            calls,
            talk: Talk::new(),
        })
    }

    /// What it has taken.
    pub fn taken(&self) -> &[u8]
        ensures { result.now ≡ taken self.now.talk }
    {
        &self.bytes[..self.used]
    }

    // How many of so many bytes there is room for.
    fn fitting(&self, size: usize) -> usize
        ensures { result ≡ min size self.now.room }
    {
        size.min(self.bytes.len() - self.used)
    }

    // Takes bytes for which there is room.
    #[tactic(auto, using(crate::proofs::TalkFacts::taken_took))]
    fn put(&mut self, bytes: &[u8])
        requires { length bytes.now ≤ self.old.room }
        ensures { self.new
            ≡ record {
              talk = self.old.talk ++ took bytes.now ∷ [];
              plan = self.old.plan;
              room = self.old.room - length bytes.now;
            } }
    {
        put_at(&mut self.bytes, self.used, bytes);
        self.used += bytes.len();
        self.talk = self.talk.and(&Note::Took(bytes));
    }
}

impl Sink for MemorySink {
    ghost talk = { λ s. s.talk };

    #[tactic(auto, using(crate::proofs::TalkFacts::taken_took_not))]
    fn write(&mut self, bytes: &[u8]) -> Result<(), CutOff>
        ensures took { OnOk result (self.new.talk ≡ self.old.talk ++ took bytes.now ∷ []) }
        ensures within { IfErr result (λ e. e.taken ≤ length bytes.now) }
        ensures cut { IfErr result (λ e. self.new.talk ≡ self.old.talk ++ cut e.taken bytes.now) }
        ensures planned { IsOk result ↔ IsTrue (lets_pass self.old bytes.now) }
        ensures front { IfErr result (λ e. e.taken ≡ fits self.old (length bytes.now)) }
        ensures plan { self.new.plan ≡ counted self.old.plan }
        ensures room { self.new.room ≡ self.old.room - fits self.old (length bytes.now) }
    {
        let fails = self.calls.fails();
        let size = if fails { 0 } else { self.fitting(bytes.len()) };
        self.put(&bytes[..size]);
        if fails || size < bytes.len() {
            self.talk = self.talk.and(&Note::TookNot);
            return Err(CutOff { taken: size });
        }
        Ok(())
    }
}

// How many of so many bytes there is room for.
fn fitting(room: Option<u64>, size: usize) -> usize
    ensures value { result ≡ at_most room size }
    ensures bound { result ≤ size }
    ensures whole { result ≡ size → IsTrue (has_room room size) }
{
    match room {
        Some(room) if room < size as u64 => room as usize,
        _ => size,
    }
}

// How much room is left after so many bytes.
fn left(room: Option<u64>, size: usize) -> Option<u64>
    ensures { result ≡ option_map (λ r. r - size) room }
{
    match room {
        Some(room) => Some(room.saturating_sub(size as u64)),
        None => None,
    }
}

/// A depot in memory, which tells its files.
#[derive(Drop)]
pub struct MemoryDepot {
    files: List<(Text, List<u8>)>,
    calls: Calls,
    fetches: Fetches,
}

impl Model for MemoryDepot {
    ghost use Rattle.outside.specs.Memory.{Stored};

    ghost Value = { Stored };

    ghost view = { λ d. record { files = d.files; plan = d.calls; answers = d.fetches.answers } };
}

impl MemoryDepot {
    /// A depot of these files, each with its name.
    pub fn new(files: List<(Text, List<u8>)>, calls: Calls) -> MemoryDepot
        ensures { result ≡ record { files = files; plan = calls; answers = [] } }
    {
        MemoryDepot {
            files,
            calls,
            fetches: Fetches::new(),
        }
    }

    // What comes of a name, where the call does not fail.
    fn come(&self, alloc: Global, name: &str) -> Result<List<u8>, DepotRefusal>
        ensures ok { IfOk result (λ bytes. file_named self.now.files name.now ≡ Some bytes) }
        ensures err { IfErr result (λ e. (e ≡ DepotRefusal.OutOfMemory)
            ⊎ ((e ≡ DepotRefusal.Missing) × (file_named self.now.files name.now ≡ None))) }
    {
        match find_file(self.files.as_slice(), name) {
            Some(bytes) => copy_bytes(alloc, bytes.as_slice()),
            None => Err(DepotRefusal::Missing),
        }
    }
}

// The bytes of the file of this name.
fn find_file<'a>(files: &'a [(Text, List<u8>)], name: &str) -> Option<&'a List<u8>>
    ensures { option_copied result ≡ file_named files.now name.now }
{
    for (file, bytes) in files {
        if file.as_str() == name {
            return Some(bytes);
        }
    }
    None
}

// The bytes once more.
fn copy_bytes(alloc: Global, bytes: &[u8]) -> Result<List<u8>, DepotRefusal>
    ensures ok { IfOk result (λ copy. copy ≡ bytes.now) }
    ensures err { IfErr result (λ e. e ≡ DepotRefusal.OutOfMemory) }
{
    match Vec::from_slice(alloc, bytes) {
        Ok(copy) => Ok(List::from_vec(copy)),
        Err(_) => Err(DepotRefusal::OutOfMemory),
    }
}

impl Depot for MemoryDepot {
    ghost use Rattle.std.specs.Prelude.{Some};

    ghost answers = { λ d. d.answers };

    ghost files = { λ d. Some d.files };

    fn fetch(&mut self, alloc: Global, name: &str) -> Result<List<u8>, DepotRefusal>
        ensures answered { self.new.answers ≡ self.old.answers ++ (name.now, result) ∷ [] }
        ensures same_files { self.new.files ≡ self.old.files }
        ensures file { IfOk result (λ bytes. file_named self.old.files name.now ≡ Some bytes) }
        ensures not_there { IsErrOf result DepotRefusal.Missing
            → file_named self.old.files name.now ≡ None }
        ensures planned { IsErrOf result DepotRefusal.Failed ↔ IsTrue (fails_next self.old.plan) }
        ensures plan { self.new.plan ≡ counted self.old.plan }
    {
        let came = if self.calls.fails() {
            Err(DepotRefusal::Failed)
        } else {
            self.come(alloc, name)
        };
        noted(&mut self.fetches, name, came)
    }
}
