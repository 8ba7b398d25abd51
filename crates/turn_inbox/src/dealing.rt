ghost use Rattle.std.specs.Prelude.{◌≡◌, ◌≤◌, ◌∷◌, [], ℕ, List, false, IsSome, None, Some, length, map, vec_len, vec_capacity};
ghost use mathlib.Core.List.{IsPrefix};
ghost use Rattle.turn_inbox.specs.Entries.{by, AllUpTo, Among, count_from};
ghost use Rattle.turn_inbox.specs.Rule.{Has, founder, resting, up_from};

use crate::chronicle::Chronicle;
use crate::inbox_table::SeatPlace;
use crate::law::{Dealt, Found, Law, Leave, Merged};
use crate::seats::Seat;
use crate::view::{Founding, View};
use atomic_table::{Shared, Table};
use std::alloc::Global;

/// Puts the first value into the slot.
pub fn settle<M: Chronicle>(
    shared: &Shared<Option<M>, View<M::Entry, M::Basis>, Founding<M>, Law<M>>,
    mut place: atomic_table::Seat<Option<M>, View<M::Entry, M::Basis>>,
    value: M,
) -> atomic_table::Seat<Option<M>, View<M::Entry, M::Basis>>
    requires here { (place.table_id ≡ shared.now.table_id) × (shared.now.table_id.words ≡ 2) × (shared.now.table_id.slots ≡ 1) }
    requires first { place.me ≡ (founder M.seat_of (M.list value) (M.basis value) shared.now.key.seats, []) }
    ensures place { (result.table_id ≡ place.table_id) × (result.me ≡ (resting (founder M.seat_of (M.list value) (M.basis value) shared.now.key.seats), [])) }
{
    shared.load::<Found<M>>(&mut place, 1);
    let before = shared.exchange(&mut place, 0, Some(value));
    let None = before else { unreachable!() };
    shared.store::<Leave<M>>(&mut place, 1, 0);
    place
}

/// Deals the seats, one number after another.
pub fn deal<M: Chronicle>(
    shared: &Shared<Option<M>, View<M::Entry, M::Basis>, Founding<M>, Law<M>>,
    mut place: atomic_table::Seat<Option<M>, View<M::Entry, M::Basis>>,
    mut row: Vec<Seat<M>>,
    seats: u32,
) -> Vec<Seat<M>>
    requires here { (place.table_id ≡ shared.now.table_id) × (shared.now.table_id.words ≡ 2) }
    requires first { (place.me.1 ≡ []) × (place.me.0.turn ≡ false) × (place.me.0.looks ≡ []) }
    requires based { IsSome place.me.0.basis }
    requires mine { place.me.0.mine ≡ up_from M.seat_of place.me.0.seen 1 seats }
    requires some { 1 ≤ seats }
    requires room { (vec_len row ≡ 0) × (seats ≤ vec_capacity row) }
    ensures numbers { map (λ s. s.number) result.items ≡ count_from 1 seats }
    ensures each { (b : M.Basis) → place.me.0.basis ≡ Some b → (s : _) → Among s result.items → (s.inbox ≡ record { table = shared.now.table_id; basis = b; seats = place.me.0.seats }) × (s.seen ≡ place.me.0.seen) × (s.looks ≡ []) }
{
    for number in 1..seats {
        let part = shared.split_seat::<Dealt>(&mut place);
        row.push_reserved(Seat {
            place: SeatPlace {
                place: part,
                number,
            },
        });
    }
    row.push_reserved(Seat {
        place: SeatPlace {
            place,
            number: seats,
        },
    });
    row
}

/// Joins all seats, so that one place knows what they knew. It looks at nothing meanwhile, so that what the place has seen is what one of the seats had seen.
pub fn gather<M: Chronicle>(
    shared: &Shared<Option<M>, View<M::Entry, M::Basis>, Founding<M>, Law<M>>,
    mut seats: Vec<Seat<M>>,
) -> atomic_table::Seat<Option<M>, View<M::Entry, M::Basis>>
    requires here { (s : _) → Among s seats.items → s.inbox.table ≡ shared.now.table_id }
    requires words { shared.now.table_id.words ≡ 2 }
    requires some { 1 ≤ vec_len seats }
    ensures same { (result.table_id ≡ shared.now.table_id) × (result.me.1 ≡ []) × (result.me.0.turn ≡ false) }
    ensures each { (s : _) → Among s seats.items → Among s.seen (result.me.0.seen ∷ result.me.0.told) × Among (s.number, by M.seat_of s.number s.seen) result.me.0.mine }
    ensures newest { (s : _) × Among s seats.items × (s.seen ≡ result.me.0.seen) }
{
    let first = seats.pop();
    let Some(first) = first else { unreachable!() };
    let Seat { place: first } = first;
    let SeatPlace {
        mut place,
        number: _,
    } = first;
    while let Some(seat) = seats.pop() {
        let Seat { place: other } = seat;
        let SeatPlace {
            place: other,
            number: _,
        } = other;
        shared.join_seat::<Merged>(&mut place, other);
    }
    seats.destroy_empty();
    place
}

/// Takes the value out of a table whose seats were all joined.
pub fn take_out<M: Chronicle>(
    table: Table<Option<M>, View<M::Entry, M::Basis>, Founding<M>, Law<M>, Global>,
    place: atomic_table::Seat<Option<M>, View<M::Entry, M::Basis>>,
) -> M
    requires here { place.table_id ≡ table.shared.table_id }
    requires slots { table.shared.table_id.slots ≡ 1 }
    requires rest { (place.me.1 ≡ []) × (place.me.0.turn ≡ false) }
    requires all { (k : ℕ) → 1 ≤ k → k ≤ table.shared.key.seats → Has k place.me.0 }
    ensures seen { M.list result ≡ place.me.0.seen }
    ensures told { (xs : List M.Entry) → Among xs place.me.0.told → IsPrefix xs (M.list result) }
    ensures mine { (k : ℕ) (es : List M.Entry) → Among (k, es) place.me.0.mine → by M.seat_of k (M.list result) ≡ es }
    ensures basis { M.basis result ≡ M.basis table.shared.key.value }
    ensures lawful { M.lawful (M.basis table.shared.key.value) (M.list result) }
    ensures seats { AllUpTo M.seat_of table.shared.key.seats (M.list result) }
{
    let mut closed = table.close_with(place);
    let slot = closed.take(0);
    closed.free();
    let Some(value) = slot else { unreachable!() };
    value
}
