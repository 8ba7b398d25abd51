//! Replies that are to be sent.
ghost use Rattle.std.specs.Prelude.{◌≡◌, ◌≤◌, length, MatchResult};
ghost use Rattle.olap_meaning.specs.Texts.{line};
ghost use Rattle.query_meaning.specs.Replies.{no_memory_reply};
ghost use Rattle.line_session.specs.ReplyBytes.{numbered};

use arrayvec::ArrayString;
use itoa::Buffer;
use olap_meaning::{OutOfMemory, Text};
use std::marker::Model;

// The longest line of a label and three numbers, in bytes: a label of 19, three numbers of 20 digits, a space before each
// and the end.
const LINE_SIZE: usize = 83;

// Where the bytes of a reply stand.
#[derive(Drop)]
enum Bytes {
    Fixed(&'static str),
    Short(ArrayString<LINE_SIZE>),
    Made(Text),
}

/// A reply, which contracts see as its bytes. One that is fixed, or a line of numbers, takes no memory from the heap.
#[derive(Drop)]
pub(crate) struct Reply {
    bytes: Bytes,
}

impl Model for Reply {
    ghost use Rattle.std.specs.Prelude.{List, ℕ};
    ghost use Rattle.line_session.specs.ReplyBytes.{bytes_in};

    ghost Value = { List ℕ };

    ghost view = { λ reply. bytes_in reply.bytes };
}

impl Reply {
    /// A reply of fixed text.
    pub(crate) fn fixed(text: &'static str) -> Reply
        ensures { result ≡ text.now }
    {
        Reply {
            bytes: Bytes::Fixed(text),
        }
    }

    /// The reply where there was no memory.
    pub(crate) fn no_memory() -> Reply
        ensures { result ≡ no_memory_reply }
    {
        Reply::fixed("ERR 15 MEMORY\n")
    }

    /// A reply of a text, where there was memory for it.
    pub(crate) fn made(text: Result<Text, OutOfMemory>) -> Reply
        ensures { MatchResult text (λ made. result ≡ made) (λ _. result ≡ no_memory_reply) }
    {
        match text {
            Ok(text) => Reply {
                bytes: Bytes::Made(text),
            },
            Err(OutOfMemory) => Reply::no_memory(),
        }
    }

    /// A line of a label and at most three numbers, with a space before each.
    pub(crate) fn numbers(label: &'static str, numbers: &[u64]) -> Reply
        requires label { length label.now ≤ 19 }
        requires few { length numbers.now ≤ 3 }
        ensures { result ≡ line (numbered label.now numbers.now) }
    {
        let mut text = ArrayString::new();
        text.push_str(label);
        for number in numbers {
            text.push_str(" ");
            text.push_str(Buffer::new().format(*number));
        }
        text.push_str("\n");
        Reply {
            bytes: Bytes::Short(text),
        }
    }

    /// The text.
    pub(crate) fn as_str(&self) -> &str
        ensures { result.now ≡ self.now }
    {
        match &self.bytes {
            Bytes::Fixed(text) => text,
            Bytes::Short(text) => text.as_str(),
            Bytes::Made(text) => text.as_str(),
        }
    }
}
