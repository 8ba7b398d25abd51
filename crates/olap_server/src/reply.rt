//! What a run has to say.
ghost use Rattle.std.specs.Prelude.{◌≡◌, MatchResult};
ghost use Rattle.olap_server.specs.Said.{no_memory};
ghost use Rattle.olap_server.specs.Run.{IsLastLine};

use crate::status::Status;
use olap_meaning::{OutOfMemory, Text, Written};
use outside::Link;
use std::marker::Model;

/// What a run has to say: how it ended, and the text that it writes.
#[derive(Drop)]
pub(crate) struct Reply {
    status: Status,
    text: Written,
}

impl Model for Reply {
    ghost use Rattle.olap_meaning.specs.Texts.{text_of};
    ghost use Rattle.olap_server.specs.Said.{Said};

    ghost Value = { Said };

    ghost view = { λ r. record { status = r.status; text = text_of r.text } };
}

impl Reply {
    /// A reply of a fixed text.
    pub(crate) fn fixed(status: Status, text: &'static str) -> Reply
        ensures { result ≡ record { status = status; text = text.entry.now } }
    {
        Reply {
            status,
            text: Written::Fixed(text),
        }
    }

    /// That there was no memory.
    pub(crate) fn no_memory() -> Reply
        ensures { result ≡ no_memory }
    {
        Reply::fixed(Status::Memory, "MEMORY\n")
    }

    /// A reply of a text, where there was memory for it.
    pub(crate) fn made(status: Status, text: Result<Text, OutOfMemory>) -> Reply
        ensures { MatchResult text
            (λ t. result ≡ record { status = status; text = t })
            (λ _. result ≡ no_memory) }
    {
        match text {
            Ok(text) => Reply {
                status,
                text: Written::Made(text),
            },
            Err(OutOfMemory) => Reply::no_memory(),
        }
    }

    /// Sends what is to be said, and gives its status, or that of a failed send.
    pub(crate) fn say<K: Link>(&self, link: &mut K) -> Status
        ensures last { IsLastLine self.now.status self.now.text (K.talk link.old) (K.talk link.new)
            result }
        ensures unread { K.left link.new ≡ K.left link.old }
    {
        match link.send(self.text.as_str().as_bytes()) {
            Ok(()) => self.status,
            Err(_) => Status::Sink,
        }
    }
}
