// The inbox as a table with places: word 0 counts the history, word 1 is the number of the seat that has the turn, and the one slot has the value.
ghost use Rattle.std.specs.Prelude.{◌≡◌, ◌≤◌, ◌++◌, ◌∷◌, [], ℕ, List, true, false, Some, None, IsSome, length};
ghost use mathlib.Core.List.{IsPrefix};
ghost use Rattle.turn_inbox.specs.Entries.{by, AllBy, AllUpTo};
ghost use Rattle.turn_inbox.specs.Rule.{Grown, Has, merged};

use crate::chronicle::Chronicle;
use crate::law::{Copied, Enter, Law, Leave, Look, Merged, Publish};
use crate::view::{Founding, View};
use atomic_table::{Shared, Table};
use std::alloc::Global;
use std::sync::Wait;

#[derive(Drop)]
pub struct InboxTable<M: Chronicle> {
    pub table: Table<Option<M>, View<M::Entry, M::Basis>, Founding<M>, Law<M>, Global>,
    pub ghost shape: { (table.shared.table_id.words ≡ 2) × (table.shared.table_id.slots ≡ 1) },
    pub ghost few: { (1 ≤ table.shared.key.seats) × (table.shared.key.seats ≤ 64) },
}

/// The place of a seat that has not the turn.
#[derive(Drop)]
pub struct SeatPlace<M: Chronicle> {
    pub place: atomic_table::Seat<Option<M>, View<M::Entry, M::Basis>>,
    pub number: u32,
    pub ghost rests: { (place.me.1 ≡ []) × (place.me.0.turn ≡ false) },
    pub ghost numbered: { (1 ≤ number) × (place.me.0.mine ≡ (number, by M.seat_of number place.me.0.seen) ∷ []) },
    pub ghost based: { IsSome place.me.0.basis },
}

/// The place of a note.
#[derive(Drop)]
pub struct NotePlace<M: Chronicle> {
    pub place: atomic_table::Seat<Option<M>, View<M::Entry, M::Basis>>,
    pub ghost rests: { (place.me.1 ≡ []) × (place.me.0.turn ≡ false) },
    pub ghost numberless: { place.me.0.mine ≡ [] },
    pub ghost based: { IsSome place.me.0.basis },
}

/// The place of a seat that has the turn.
pub struct TurnPlace<M: Chronicle> {
    pub place: atomic_table::Seat<Option<M>, View<M::Entry, M::Basis>>,
    pub number: u32,
    pub ghost holds: { (place.me.1 ≡ (0, None) ∷ []) × (place.me.0.turn ≡ true) × (place.me.0.fresh ≡ false) },
    pub ghost numbered: { (1 ≤ number) × (place.me.0.mine ≡ (number, by M.seat_of number place.me.0.seen) ∷ []) },
    pub ghost based: { IsSome place.me.0.basis },
}

impl<M: Chronicle> InboxTable<M> {
    // Waits for the turn, and takes the value out of its slot.
    pub fn enter<R: Wait>(&self, rt: &R, seat: SeatPlace<M>) -> (M, TurnPlace<M>)
        requires { seat.place.table_id ≡ self.now.table.shared.table_id }
        ensures same { (result.1.place.table_id ≡ seat.place.table_id) × (result.1.number ≡ seat.number) × (result.1.place.me.0.looks ≡ seat.place.me.0.looks) × (result.1.place.me.0.basis ≡ seat.place.me.0.basis) × (result.1.place.me.0.seats ≡ seat.place.me.0.seats) }
        ensures value { (M.list result.0 ≡ result.1.place.me.0.seen) × (result.1.place.me.0.basis ≡ Some (M.basis result.0)) }
        ensures seen { IsPrefix seat.place.me.0.seen result.1.place.me.0.seen }
        ensures mine { by M.seat_of seat.number result.1.place.me.0.seen ≡ by M.seat_of seat.number seat.place.me.0.seen }
        ensures lawful { M.lawful (M.basis result.0) result.1.place.me.0.seen }
        ensures seats { AllUpTo M.seat_of seat.place.me.0.seats result.1.place.me.0.seen }
    {
        let SeatPlace { mut place, number } = seat;
        let shared = &self.table.shared;
        for _ in rt.forever() {
            let found = shared.compare_exchange::<Enter<M>>(&mut place, 1, 0, u64::from(number));
            if found == 0 {
                let taken = shared.exchange(&mut place, 0, None);
                let Some(value) = taken else { unreachable!() };
                return (value, TurnPlace { place, number });
            }
            shared.park(rt, 1, (found % (1 << 32)) as u32);
        }
        unreachable!()
    }

    // Puts the value back, stores the length of its list, and gives the turn back.
    pub fn leave(&self, value: M, hold: TurnPlace<M>) -> SeatPlace<M>
        requires here { hold.place.table_id ≡ self.now.table.shared.table_id }
        requires basis { hold.place.me.0.basis ≡ Some (M.basis value) }
        requires grown { (new : List M.Entry) × (M.list value ≡ hold.place.me.0.seen ++ new) × AllBy M.seat_of hold.number new }
        ensures same { (result.place.table_id ≡ hold.place.table_id) × (result.number ≡ hold.number) × (result.place.me.0.looks ≡ hold.place.me.0.looks) × (result.place.me.0.basis ≡ hold.place.me.0.basis) × (result.place.me.0.seats ≡ hold.place.me.0.seats) }
        ensures seen { result.place.me.0.seen ≡ M.list value }
        ensures lawful { M.lawful (M.basis value) result.place.me.0.seen }
        ensures seats { AllUpTo M.seat_of hold.place.me.0.seats result.place.me.0.seen }
    {
        let TurnPlace { mut place, number } = hold;
        let shared = &self.table.shared;
        let count = value.length();
        let before = shared.exchange(&mut place, 0, Some(value));
        let None = before else { unreachable!() };
        shared.store::<Publish<M>>(&mut place, 0, count);
        shared.store::<Leave<M>>(&mut place, 1, 0);
        shared.wake_one(1);
        SeatPlace { place, number }
    }

    // Loads the count.
    pub fn front(&self, seat: SeatPlace<M>) -> (SeatPlace<M>, u64)
        requires { seat.place.table_id ≡ self.now.table.shared.table_id }
        ensures same { (result.0.place.table_id ≡ seat.place.table_id) × (result.0.number ≡ seat.number) × (result.0.place.me.0.basis ≡ seat.place.me.0.basis) × (result.0.place.me.0.seats ≡ seat.place.me.0.seats) }
        ensures look { (result.0.place.me.0.looks ≡ seat.place.me.0.looks ++ result.1 ∷ []) × (length result.0.place.me.0.seen ≡ result.1) }
        ensures seen { IsPrefix seat.place.me.0.seen result.0.place.me.0.seen }
        ensures mine { by M.seat_of seat.number result.0.place.me.0.seen ≡ by M.seat_of seat.number seat.place.me.0.seen }
        ensures lawful { (b : M.Basis) → seat.place.me.0.basis ≡ Some b → M.lawful b result.0.place.me.0.seen }
        ensures seats { AllUpTo M.seat_of seat.place.me.0.seats result.0.place.me.0.seen }
    {
        let SeatPlace { mut place, number } = seat;
        let front = self.table.shared.load::<Look<M>>(&mut place, 0);
        (SeatPlace { place, number }, front)
    }

    // Splits a note from a seat.
    pub fn note(&self, seat: SeatPlace<M>) -> (SeatPlace<M>, NotePlace<M>)
        requires { seat.place.table_id ≡ self.now.table.shared.table_id }
        ensures same { (result.0.place.table_id ≡ seat.place.table_id) × (result.0.number ≡ seat.number) × (result.0.place.me ≡ seat.place.me) }
        ensures note { (result.1.place.table_id ≡ seat.place.table_id) × (result.1.place.me.0.seen ≡ seat.place.me.0.seen) × (result.1.place.me.0.basis ≡ seat.place.me.0.basis) × (result.1.place.me.0.seats ≡ seat.place.me.0.seats) }
    {
        let SeatPlace { mut place, number } = seat;
        let copy = self.table.shared.split_seat::<Copied>(&mut place);
        (SeatPlace { place, number }, NotePlace { place: copy })
    }

    // Joins a note to a seat.
    pub fn learn(&self, seat: SeatPlace<M>, note: NotePlace<M>) -> SeatPlace<M>
        requires seat { seat.place.table_id ≡ self.now.table.shared.table_id }
        requires note { note.place.table_id ≡ self.now.table.shared.table_id }
        ensures same { (result.place.table_id ≡ seat.place.table_id) × (result.number ≡ seat.number) × (result.place.me.0.basis ≡ seat.place.me.0.basis) × (result.place.me.0.seats ≡ seat.place.me.0.seats) }
        ensures look { result.place.me.0.looks ≡ seat.place.me.0.looks ++ length result.place.me.0.seen ∷ [] }
        ensures seen { IsPrefix seat.place.me.0.seen result.place.me.0.seen × IsPrefix note.place.me.0.seen result.place.me.0.seen }
        ensures mine { by M.seat_of seat.number result.place.me.0.seen ≡ by M.seat_of seat.number seat.place.me.0.seen }
        ensures lawful { (b : M.Basis) → seat.place.me.0.basis ≡ Some b → M.lawful b result.place.me.0.seen }
        ensures seats { AllUpTo M.seat_of seat.place.me.0.seats result.place.me.0.seen }
    {
        let SeatPlace { place, number } = seat;
        let NotePlace { place: other } = note;
        let place = absorb(&self.table.shared, place, other);
        SeatPlace { place, number }
    }
}

// Joins the other place to this one, and loads the count, so that this one has seen all that both had.
fn absorb<M: Chronicle>(
    shared: &Shared<Option<M>, View<M::Entry, M::Basis>, Founding<M>, Law<M>>,
    mut place: atomic_table::Seat<Option<M>, View<M::Entry, M::Basis>>,
    other: atomic_table::Seat<Option<M>, View<M::Entry, M::Basis>>,
) -> atomic_table::Seat<Option<M>, View<M::Entry, M::Basis>>
    requires here { (place.table_id ≡ shared.now.table_id) × (other.table_id ≡ shared.now.table_id) × (shared.now.table_id.words ≡ 2) }
    requires rest { (place.me.1 ≡ []) × (place.me.0.turn ≡ false) × (other.me.1 ≡ []) × (other.me.0.turn ≡ false) }
    requires some { (k : ℕ) × Has k place.me.0 }
    ensures same { (result.table_id ≡ place.table_id) × (result.me.1 ≡ []) × (result.me.0.turn ≡ false) × (result.me.0.basis ≡ place.me.0.basis) × (result.me.0.seats ≡ place.me.0.seats) }
    ensures look { result.me.0.looks ≡ place.me.0.looks ++ length result.me.0.seen ∷ [] }
    ensures mine { result.me.0.mine ≡ place.me.0.mine ++ other.me.0.mine }
    ensures grown { Grown M.seat_of M.lawful (merged place.me.0 other.me.0) result.me.0.seen }
{
    shared.join_seat::<Merged>(&mut place, other);
    shared.load::<Look<M>>(&mut place, 0);
    place
}
