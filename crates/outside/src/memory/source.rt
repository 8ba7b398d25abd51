//! A source in memory.
ghost use Rattle.std.specs.Prelude.{◌≡◌, ◌+◌, ◌-◌, ◌<◌, ◌≤◌, ◌++◌, ◌∷◌, ◌↔◌, [], IsTrue, IsOk, OnErr, IfOk, Some, length, take, drop, option_map};
ghost use Rattle.outside.specs.Event.{gave_not};
ghost use Rattle.outside.specs.Talks.{shown};
ghost use Rattle.outside.specs.Memory.{counted, given, in_one, lets_read};
ghost use Rattle.outside.specs.Told.{TakenOff};

use super::{Calls, fitting, left};
use crate::source::{Failed, Source};
use crate::talk::{Note, Talk, note_read};
use olap_meaning::List;
use std::marker::Model;

/// A source in memory. A read takes no memory, and moves none of the bytes that stay.
#[derive(Drop)]
pub struct MemorySource {
    bytes: List<u8>,
    // How many of them were given.
    place: usize,
    calls: Calls,
    room: Option<u64>,
    most: Option<usize>,
    talk: Talk,
}

impl Model for MemorySource {
    ghost use Rattle.std.specs.Prelude.{◌≤◌, length, drop};
    ghost use Rattle.outside.specs.Memory.{Supplied};

    ghost Value = { Supplied };

    ghost view = { λ s. record { left = drop s.place s.bytes; plan = s.calls; room = s.room; most = s.most; talk = s.talk.events } };

    ghost invariant = { λ s. s.place ≤ length s.bytes };
}

impl MemorySource {
    /// A source of these bytes. Where `room` is a number, it gives just so many over all its calls: the read that would
    /// cross the number gives the bytes up to it, and each later one that would give a byte more fails. Where `most` is a
    /// number, one call gives at most so many, and at least 1.
    pub fn new(
        bytes: List<u8>,
        calls: Calls,
        room: Option<u64>,
        most: Option<usize>,
    ) -> MemorySource
        ensures { result
            ≡ record { left = bytes; plan = calls; room = room; most = most; talk = [] } }
    {
        MemorySource {
            bytes,
            place: 0,
            calls,
            room,
            most,
            talk: Talk::new(),
        }
    }
}

// How many of so many bytes one call gives.
fn piece(most: Option<usize>, size: usize) -> usize
    ensures { result ≡ in_one most size }
{
    match most {
        Some(most) => size.min(most.max(1)),
        None => size,
    }
}

// Copies so many bytes from a place on to the front of a piece.
fn copy_front(into: &mut [u8], bytes: &[u8], place: usize, size: usize)
    requires room { size ≤ length into.old }
    requires there { place + size ≤ length bytes.now }
    ensures front { drop place bytes.now ≡ take size into.new ++ drop (place + size) bytes.now }
    ensures rest { drop size into.new ≡ drop size into.old }
{
    into[..size].copy_from_slice(&bytes[place..place + size]);
}

impl Source for MemorySource {
    ghost use Rattle.std.specs.Prelude.{Some};

    ghost left = { λ s. Some s.left };

    ghost talk = { λ s. s.talk };

    fn read(&mut self, into: &mut [u8]) -> Result<usize, Failed>
        requires room { 0 < length into.old }
        ensures size { length into.new ≡ length into.old }
        ensures within { IfOk result (λ n. n ≤ length into.old) }
        ensures gave { IfOk result (λ n. self.new.talk ≡ self.old.talk ++ shown n into.new) }
        ensures failed { OnErr result (self.new.talk ≡ self.old.talk ++ gave_not ∷ []) }
        ensures front { IfOk result
            (λ n. TakenOff (Some self.old.left) (Some self.new.left) (take n into.new)) }
        ensures rest { IfOk result (λ n. drop n into.new ≡ drop n into.old) }
        ensures end { IfOk result (λ n. n ≡ 0 → self.old.left ≡ []) }
        ensures untaken { OnErr result (self.new.left ≡ self.old.left) }
        ensures untouched { OnErr result (into.new ≡ into.old) }
        ensures given { IfOk result (λ n. n ≡ given self.old (length into.old)) }
        ensures planned { IsOk result ↔ IsTrue (lets_read self.old (length into.old)) }
        ensures plan { self.new.plan ≡ counted self.old.plan }
        ensures room { IfOk result (λ n. self.new.room ≡ option_map (λ r. r - n) self.old.room) }
        ensures same_room { OnErr result (self.new.room ≡ self.old.room) }
        ensures most { self.new.most ≡ self.old.most }
    {
        let wanted = piece(self.most, into.len().min(self.bytes.len() - self.place));
        let size = fitting(self.room, wanted);
        if self.calls.fails() || (size == 0 && wanted > 0) {
            self.talk = self.talk.and(&Note::GaveNot);
            return Err(Failed);
        }
        copy_front(into, self.bytes.as_slice(), self.place, size);
        self.place += size;
        self.room = left(self.room, size);
        note_read(&mut self.talk, size, into);
        Ok(size)
    }
}
