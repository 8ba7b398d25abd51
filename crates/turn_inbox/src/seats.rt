ghost use Rattle.std.specs.Prelude.{◌≡◌};

use crate::chronicle::Chronicle;
use crate::inbox_table::{NotePlace, SeatPlace, TurnPlace};
use std::marker::Model;

/// The right to ask for the turn under one number. `Inbox::close` asks for all of them. It is `Drop`, since a thread's closure captures no other value.
#[derive(Drop)]
pub struct Seat<M: Chronicle> {
    pub(crate) place: SeatPlace<M>,
}

impl<M: Chronicle> Model for Seat<M> {
    ghost use Rattle.turn_inbox.specs.Known.{Known, sure};

    ghost Value = { Known M.Entry M.Basis };

    ghost view = { λ s. record { number = s.place.number; seen = s.place.place.me.0.seen; looks = s.place.place.me.0.looks; inbox = record { table = s.place.place.table_id; basis = sure s.place.place.me.0.basis s.place.based; seats = s.place.place.me.0.seats } } };
}

impl<M: Chronicle> Seat<M> {
    /// The seat's number. The first seat has 1.
    pub fn number(&self) -> u32
        ensures { result ≡ self.now.number }
    {
        self.place.number
    }
}

/// What a seat had seen, for another seat to learn.
#[derive(Drop)]
pub struct Note<M: Chronicle> {
    pub(crate) place: NotePlace<M>,
}

impl<M: Chronicle> Model for Note<M> {
    ghost use Rattle.turn_inbox.specs.Known.{Noted, sure};

    ghost Value = { Noted M.Entry M.Basis };

    ghost view = { λ n. record { seen = n.place.place.me.0.seen; inbox = record { table = n.place.place.table_id; basis = sure n.place.place.me.0.basis n.place.based; seats = n.place.place.me.0.seats } } };
}

/// The turn, with the value. It is not `Drop`: it has to be left.
pub struct Turn<M: Chronicle> {
    pub(crate) value: M,
    pub(crate) place: TurnPlace<M>,
}

impl<M: Chronicle> Model for Turn<M> {
    ghost use Rattle.turn_inbox.specs.Known.{Held, sure};

    ghost Value = { Held M M.Entry M.Basis };

    ghost view = { λ t. record { value = t.value; number = t.place.number; seen = t.place.place.me.0.seen; looks = t.place.place.me.0.looks; inbox = record { table = t.place.place.table_id; basis = sure t.place.place.me.0.basis t.place.based; seats = t.place.place.me.0.seats } } };
}

impl<M: Chronicle> Turn<M> {
    /// The number of the seat that has the turn.
    pub fn number(&self) -> u32
        ensures { result ≡ self.now.number }
    {
        self.place.number
    }
}
