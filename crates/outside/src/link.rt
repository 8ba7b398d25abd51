//! Both directions, in their order.
ghost use Rattle.std.specs.Prelude.{◌≡◌, ◌<◌, ◌≤◌, ◌++◌, ◌∷◌, [], IfOk, IfErr, IfSome, OnOk, OnErr, ℕ, List, Option, length, take};
ghost use Rattle.outside.specs.Event.{Event, took, gave_not};
ghost use Rattle.outside.specs.Talks.{shown, cut};
ghost use Rattle.outside.specs.Told.{TakenOff};

use crate::sink::{CutOff, Sink};
use crate::source::{Failed, Source};
use crate::talk::{Note, Talk, note_cut, note_read};
use std::marker::Model;

/// A connection: bytes come and go.
pub trait Link {
    // All that has passed either way, in its order: known of every object.
    ghost talk: { Self → List Event };

    // The bytes that are left to be received, where it tells them.
    ghost left: { Self → Option (List ℕ) };

    /// Receives bytes, as `Source::read` reads them.
    fn receive(&mut self, into: &mut [u8]) -> Result<usize, Failed>
        requires room { 0 < length into.old }
        ensures size { length into.new ≡ length into.old }
        ensures within { IfOk result (λ n. n ≤ length into.old) }
        ensures gave { IfOk result (λ n. talk self.new ≡ talk self.old ++ shown n into.new) }
        ensures failed { OnErr result (talk self.new ≡ talk self.old ++ gave_not ∷ []) }
        ensures front { IfOk result
            (λ n. TakenOff (left self.old) (left self.new) (take n into.new)) }
        ensures end { IfOk result (λ n. n ≡ 0 → IfSome (left self.old) (λ bytes. bytes ≡ [])) }
        ensures untaken { OnErr result (left self.new ≡ left self.old) };

    /// Sends bytes, as `Sink::write` writes them.
    fn send(&mut self, bytes: &[u8]) -> Result<(), CutOff>
        ensures took { OnOk result (talk self.new ≡ talk self.old ++ took bytes.now ∷ []) }
        ensures within { IfErr result (λ e. e.taken ≤ length bytes.now) }
        ensures cut { IfErr result (λ e. talk self.new ≡ talk self.old ++ cut e.taken bytes.now) }
        ensures unread { left self.new ≡ left self.old };
}

/// A source and a sink as one link.
#[derive(Drop)]
pub struct Pair<I, O> {
    input: I,
    output: O,
    talk: Talk,
}

impl<I, O> Pair<I, O> {
    pub fn new(input: I, output: O) -> Pair<I, O>
        ensures input { result.input ≡ input }
        ensures output { result.output ≡ output }
        ensures talk { result.talk.events ≡ [] }
    {
        Pair {
            input,
            output,
            talk: Talk::new(),
        }
    }

    pub fn output(&self) -> &O
        ensures { result.now ≡ self.now.output }
    {
        &self.output
    }
}

impl<I: Source, O: Sink> Link for Pair<I, O> {
    ghost talk = { λ p. p.talk.events };

    ghost left = { λ p. I.left p.input };

    fn receive(&mut self, into: &mut [u8]) -> Result<usize, Failed>
        requires room { 0 < length into.old }
        ensures size { length into.new ≡ length into.old }
        ensures within { IfOk result (λ n. n ≤ length into.old) }
        ensures gave { IfOk result
            (λ n. self.new.talk.events ≡ self.old.talk.events ++ shown n into.new) }
        ensures failed { OnErr result
            (self.new.talk.events ≡ self.old.talk.events ++ gave_not ∷ []) }
        ensures source_gave { IfOk result
            (λ n. I.talk self.new.input ≡ I.talk self.old.input ++ shown n into.new) }
        ensures source_failed { OnErr result
            (I.talk self.new.input ≡ I.talk self.old.input ++ gave_not ∷ []) }
        ensures front { IfOk result
            (λ n. TakenOff (I.left self.old.input) (I.left self.new.input) (take n into.new)) }
        ensures end { IfOk result (λ n. n ≡ 0
            → IfSome (I.left self.old.input) (λ bytes. bytes ≡ [])) }
        ensures untaken { OnErr result (I.left self.new.input ≡ I.left self.old.input) }
        ensures same_output { self.new.output ≡ self.old.output }
    {
        match self.input.read(into) {
            Ok(n) => {
                note_read(&mut self.talk, n, into);
                Ok(n)
            }
            Err(e) => {
                self.talk = self.talk.and(&Note::GaveNot);
                Err(e)
            }
        }
    }

    fn send(&mut self, bytes: &[u8]) -> Result<(), CutOff>
        ensures took { OnOk result
            (self.new.talk.events ≡ self.old.talk.events ++ took bytes.now ∷ []) }
        ensures within { IfErr result (λ e. e.taken ≤ length bytes.now) }
        ensures cut { IfErr result
            (λ e. self.new.talk.events ≡ self.old.talk.events ++ cut e.taken bytes.now) }
        ensures sink_took { OnOk result
            (O.talk self.new.output ≡ O.talk self.old.output ++ took bytes.now ∷ []) }
        ensures sink_cut { IfErr result
            (λ e. O.talk self.new.output ≡ O.talk self.old.output ++ cut e.taken bytes.now) }
        ensures same_input { self.new.input ≡ self.old.input }
    {
        let sent = self.output.write(bytes);
        match sent {
            Ok(()) => self.talk = self.talk.and(&Note::Took(bytes)),
            Err(e) => note_cut(&mut self.talk, e.taken, bytes),
        }
        sent
    }
}
