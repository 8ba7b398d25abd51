ghost use Rattle.std.specs.Prelude.{◌≡◌, ◌≤◌, ◌++◌, ◌∷◌, [], ℕ, List, IfOk, IfErr, length, map};
ghost use mathlib.Core.List.{IsPrefix};
ghost use Rattle.turn_inbox.specs.Entries.{by, AllBy, AllUpTo, Among, count_from};

use crate::chronicle::Chronicle;
use crate::dealing::{deal, gather, settle, take_out};
use crate::inbox_table::InboxTable;
use crate::seats::{Note, Seat, Turn};
use crate::view::Founding;
use atomic_table::Table;
use std::alloc::Global;
use std::marker::Model;
use std::sync::Wait;

/// A value that changes hands between seats, one turn at a time.
#[derive(Drop)]
pub struct Inbox<M: Chronicle> {
    core: InboxTable<M>,
}

impl<M: Chronicle> Model for Inbox<M> {
    ghost use Rattle.turn_inbox.specs.Known.{Opened};

    ghost Value = { Opened M.Basis };

    ghost view = { λ i. record { seats = i.core.table.shared.key.seats; inbox = record { table = i.core.table.shared.table_id; basis = M.basis i.core.table.shared.key.value; seats = i.core.table.shared.key.seats } } };
}

impl<M: Chronicle> Inbox<M> {
    /// An inbox with this many seats, numbered from 1 on, over a value whose entries are of nobody. Where there is no memory, the value comes back.
    pub fn new(alloc: Global, value: M, seats: u32) -> Result<(Inbox<M>, Vec<Seat<M>>), M>
        requires seats { (1 ≤ seats) × (seats ≤ 64) }
        requires fresh { AllBy M.seat_of 0 (M.list value) }
        ensures inbox { IfOk result (λ r. (r.0.seats ≡ seats) × (r.0.inbox.basis ≡ M.basis value)) }
        ensures numbers { IfOk result (λ r. map (λ s. s.number) r.1.items ≡ count_from 1 seats) }
        ensures each { IfOk result (λ r. (s : _) → Among s r.1.items → (s.inbox ≡ r.0.inbox) × (s.seen ≡ M.list value) × (s.looks ≡ [])) }
        ensures err { IfErr result (λ v. v ≡ value) }
    {
        let Ok(row) = Vec::with_capacity(alloc, seats as usize) else {
            return Err(value);
        };
        let count = value.length();
        let about = Founding { value, seats };
        match Table::vacant(alloc, &[count, 1], 1, &about) {
            Err(_) => {
                row.destroy_empty();
                let Founding { value, seats: _ } = about;
                Err(value)
            }
            Ok((table, place)) => {
                let Founding { value, seats: _ } = about;
                let place = settle(&table.shared, place, value);
                let dealt = deal(&table.shared, place, row, seats);
                Ok((
                    Inbox {
                        core: InboxTable { table },
                    },
                    dealt,
                ))
            }
        }
    }

    /// Waits for the turn. The value has then all that the seat had seen.
    pub fn enter<R: Wait>(&self, rt: &R, seat: Seat<M>) -> Turn<M>
        requires { seat.inbox ≡ self.now.inbox }
        ensures same { (result.number ≡ seat.number) × (result.looks ≡ seat.looks) × (result.inbox ≡ seat.inbox) }
        ensures value { (M.list result.value ≡ result.seen) × (M.basis result.value ≡ seat.inbox.basis) }
        ensures seen { IsPrefix seat.seen result.seen }
        ensures mine { by M.seat_of seat.number result.seen ≡ by M.seat_of seat.number seat.seen }
        ensures lawful { M.lawful seat.inbox.basis result.seen }
        ensures seats { AllUpTo M.seat_of self.now.seats result.seen }
    {
        let Seat { place } = seat;
        let (value, place) = self.core.enter(rt, place);
        Turn { value, place }
    }

    /// Gives the turn back. What was added to the list is the history's from then on.
    pub fn leave(&self, turn: Turn<M>) -> Seat<M>
        requires here { turn.inbox ≡ self.now.inbox }
        requires basis { M.basis turn.value ≡ turn.inbox.basis }
        requires grown { (new : List M.Entry) × (M.list turn.value ≡ turn.seen ++ new) × AllBy M.seat_of turn.number new }
        ensures same { (result.number ≡ turn.number) × (result.looks ≡ turn.looks) × (result.inbox ≡ turn.inbox) }
        ensures seen { result.seen ≡ M.list turn.value }
        ensures lawful { M.lawful turn.inbox.basis result.seen }
        ensures seats { AllUpTo M.seat_of self.now.seats result.seen }
    {
        let Turn { value, place } = turn;
        let place = self.core.leave(value, place);
        Seat { place }
    }

    /// A length that the history has had. The seat has then seen that many entries. It waits for nobody.
    pub fn front(&self, seat: Seat<M>) -> (Seat<M>, u64)
        requires { seat.inbox ≡ self.now.inbox }
        ensures same { (result.0.number ≡ seat.number) × (result.0.inbox ≡ seat.inbox) }
        ensures look { (result.0.looks ≡ seat.looks ++ result.1 ∷ []) × (length result.0.seen ≡ result.1) }
        ensures seen { IsPrefix seat.seen result.0.seen }
        ensures mine { by M.seat_of seat.number result.0.seen ≡ by M.seat_of seat.number seat.seen }
        ensures lawful { M.lawful seat.inbox.basis result.0.seen }
        ensures seats { AllUpTo M.seat_of self.now.seats result.0.seen }
    {
        let Seat { place } = seat;
        let (place, front) = self.core.front(place);
        (Seat { place }, front)
    }

    /// A copy of what the seat has seen. It waits for nobody.
    pub fn note(&self, seat: Seat<M>) -> (Seat<M>, Note<M>)
        requires { seat.inbox ≡ self.now.inbox }
        ensures seat { result.0 ≡ seat }
        ensures note { (result.1.seen ≡ seat.seen) × (result.1.inbox ≡ seat.inbox) }
    {
        let Seat { place } = seat;
        let (place, copy) = self.core.note(place);
        (Seat { place }, Note { place: copy })
    }

    /// The seat has then seen all that it and the note had seen. It looks once for that, and no caller is told the length. It waits for nobody.
    pub fn learn(&self, seat: Seat<M>, note: Note<M>) -> Seat<M>
        requires seat { seat.inbox ≡ self.now.inbox }
        requires note { note.inbox ≡ self.now.inbox }
        ensures same { (result.number ≡ seat.number) × (result.inbox ≡ seat.inbox) }
        ensures look { result.looks ≡ seat.looks ++ length result.seen ∷ [] }
        ensures seen { IsPrefix seat.seen result.seen × IsPrefix note.seen result.seen }
        ensures mine { by M.seat_of seat.number result.seen ≡ by M.seat_of seat.number seat.seen }
        ensures lawful { M.lawful seat.inbox.basis result.seen }
        ensures seats { AllUpTo M.seat_of self.now.seats result.seen }
    {
        let Seat { place } = seat;
        let Note { place: other } = note;
        let place = self.core.learn(place, other);
        Seat { place }
    }

    /// The value, once all seats have come back. One of them had seen its whole list. It waits for nobody.
    pub fn close(self, seats: Vec<Seat<M>>) -> M
        requires here { (s : _) → Among s seats.items → s.inbox ≡ self.inbox }
        requires all { (k : ℕ) → 1 ≤ k → k ≤ self.seats → (s : _) × Among s seats.items × (s.number ≡ k) }
        ensures seen { (s : _) → Among s seats.items → IsPrefix s.seen (M.list result) }
        ensures mine { (s : _) → Among s seats.items → by M.seat_of s.number (M.list result) ≡ by M.seat_of s.number s.seen }
        ensures whole { (s : _) × Among s seats.items × (s.seen ≡ M.list result) }
        ensures basis { M.basis result ≡ self.inbox.basis }
        ensures lawful { M.lawful self.inbox.basis (M.list result) }
        ensures seats { AllUpTo M.seat_of self.seats (M.list result) }
    {
        let Inbox { core } = self;
        let InboxTable { table } = core;
        let place = gather(&table.shared, seats);
        take_out(table, place)
    }
}
