//! What has passed between a program and an object outside. Only contracts see it; it takes no bytes.
//!
//! Who writes an object of his own keeps a `Talk` in it, and notes there what each call gave and took. Code that has the
//! object only as a `Source`, a `Sink` or a `Link` can not add to its talk, so a contract that ties an answer to what has
//! passed refuses a body that makes it up.
ghost use Rattle.std.specs.Prelude.{◌≡◌, ◌++◌, ◌∷◌, [], ◌≤◌, List, length};
ghost use Rattle.std.specs.Borrow.{ftrue};
ghost use Rattle.outside.specs.Event.{Event, talk_code};
ghost use Rattle.outside.specs.Noted.{event_of};
ghost use Rattle.outside.specs.Talks.{cut, shown};

use std::marker::Model;

/// Everything that has passed, in its order. A clause reads it as `events`.
#[derive(Drop)]
pub struct Talk {
    ghost events: { List Event } by { talk_code },
}

impl Model for Talk {
    ghost also_owns = { λ _. ftrue };
}

/// One thing that passes: bytes that are given to the program, bytes that are taken from it, the end of what is given, or a
/// failure of either.
#[derive(Clone, Copy, Drop)]
pub enum Note<'a> {
    Gave(&'a [u8]),
    Took(&'a [u8]),
    Ended,
    GaveNot,
    TookNot,
}

impl Talk {
    /// Nothing has passed.
    pub fn new() -> Talk
        ensures { result.events ≡ [] }
    {
        Talk {}
    }

    /// The same, with one thing more.
    #[inline(always)]
    pub fn and(&self, _note: &Note<'_>) -> Talk
        ensures { result.events ≡ self.now.events ++ event_of _note.now ∷ [] }
    {
        Talk {}
    }
}

/// Notes what a read gave: the first bytes of a piece, or the end where there are none.
pub fn note_read(talk: &mut Talk, n: usize, piece: &[u8])
    requires { n ≤ length piece.now }
    ensures { talk.new.events ≡ talk.old.events ++ shown n piece.now }
{
    if n > 0 {
        *talk = talk.and(&Note::Gave(&piece[..n]));
    } else {
        *talk = talk.and(&Note::Ended);
    }
}

/// Notes what a write took that then failed: the first of its bytes.
pub fn note_cut(talk: &mut Talk, n: usize, bytes: &[u8])
    requires { n ≤ length bytes.now }
    ensures { talk.new.events ≡ talk.old.events ++ cut n bytes.now }
{
    *talk = talk.and(&Note::Took(&bytes[..n]));
    *talk = talk.and(&Note::TookNot);
}
