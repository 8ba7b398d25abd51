//! A link that keeps what passes as data.
use outside::{CutOff, Failed, Link};
use std::alloc::Global;

/// What has passed at one call, with its number of bytes.
#[derive(Clone, Copy, Debug, PartialEq, Eq)]
pub(crate) enum Passed {
    Gave(usize),
    Took(usize),
    Ended,
    GaveNot,
    TookNot(usize),
}

/// A link, and what has passed of it.
#[derive(Drop)]
pub(crate) struct Recorded<K> {
    link: K,
    passed: Vec<Passed>,
}

impl<K> Recorded<K> {
    pub(crate) fn new(alloc: Global, link: K) -> Recorded<K> {
        Recorded {
            link,
            passed: Vec::new(alloc),
        }
    }

    pub(crate) fn link(&self) -> &K {
        &self.link
    }

    pub(crate) fn passed(&self) -> &[Passed] {
        self.passed.as_slice()
    }
}

impl<K: Link> Link for Recorded<K> {
    ghost talk = { λ r. K.talk r.link };

    ghost left = { λ r. K.left r.link };

    fn receive(&mut self, into: &mut [u8]) -> Result<usize, Failed> {
        let received = self.link.receive(into);
        let passed = match received {
            Ok(0) => Passed::Ended,
            Ok(n) => Passed::Gave(n),
            Err(_) => Passed::GaveNot,
        };
        let _kept = self.passed.push(passed);
        received
    }

    fn send(&mut self, bytes: &[u8]) -> Result<(), CutOff> {
        let sent = self.link.send(bytes);
        let passed = match sent {
            Ok(()) => Passed::Took(bytes.len()),
            Err(cut_off) => Passed::TookNot(cut_off.taken),
        };
        let _kept = self.passed.push(passed);
        sent
    }
}
