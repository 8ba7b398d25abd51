ghost use Rattle.std.specs.Prelude.{◌≡◌, ◌≤◌, ◌∷◌, [], IfSome, map, vec_len, vec_capacity};
ghost use Rattle.turn_inbox.specs.Entries.{AllBy, Among, count_from};

use super::*;
use std::alloc::Global;
use std::sync::Wait;
use std::test::*;
use std::thread::{Threads, join};

// One turn, in which the seat adds a mark.
fn mark<R: Wait>(rt: &R, inbox: &Inbox<Ledger>, seat: Seat<Ledger>, number: u64) -> Seat<Ledger>
    requires { seat.inbox ≡ inbox.now.inbox }
    ensures same { (result.number ≡ seat.number) × (result.inbox ≡ seat.inbox) }
{
    let (seat, _added) = add_mark(rt, inbox, seat, number);
    seat
}

// As many turns as it takes, with the marks 0, 1, 2 and so on.
fn mark_many<R: Wait>(rt: &R, inbox: &Inbox<Ledger>, seat: Seat<Ledger>, times: u64) -> Seat<Ledger>
    requires { seat.inbox ≡ inbox.now.inbox }
    ensures same { (result.number ≡ seat.number) × (result.inbox ≡ seat.inbox) }
{
    let mut seat = seat;
    for number in 0..times {
        seat = mark(rt, inbox, seat, number);
    }
    seat
}

// Each of two seats marks in a thread of its own.
fn mark_by_two<R: Threads + Wait + Sync>(
    rt: &R,
    inbox: Inbox<Ledger>,
    first: Seat<Ledger>,
    second: Seat<Ledger>,
    mut row: Vec<Seat<Ledger>>,
    times: u64,
) -> Ledger
    requires here { (first.inbox ≡ inbox.inbox) × (second.inbox ≡ inbox.inbox) }
    requires numbers { (first.number ≡ 1) × (second.number ≡ 2) × (inbox.seats ≡ 2) }
    requires room { (vec_len row ≡ 0) × (2 ≤ vec_capacity row) }
{
    let (one, two) = join(
        rt,
        || -> Seat<Ledger>
            requires { first.inbox ≡ inbox.inbox }
            ensures { (result.number ≡ first.number) × (result.inbox ≡ first.inbox) }
        { mark_many(rt, &inbox, first, times) },
        || -> Seat<Ledger>
            requires { second.inbox ≡ inbox.inbox }
            ensures { (result.number ≡ second.number) × (result.inbox ≡ second.inbox) }
        { mark_many(rt, &inbox, second, times) },
    );
    row.push_reserved(one);
    row.push_reserved(two);
    inbox.close(row)
}

// The two seats of an inbox are taken out of their row.
fn with_two<R: Threads + Wait + Sync>(
    rt: &R,
    inbox: Inbox<Ledger>,
    mut seats: Vec<Seat<Ledger>>,
    times: u64,
) -> Ledger
    requires here { (s : _) → Among s seats.items → s.inbox ≡ inbox.inbox }
    requires numbers { (map (λ s. s.number) seats.items ≡ 1 ∷ 2 ∷ []) × (inbox.seats ≡ 2) }
{
    let second = seats.pop();
    let Some(second) = second else { unreachable!() };
    let first = seats.pop();
    let Some(first) = first else { unreachable!() };
    mark_by_two(rt, inbox, first, second, seats, times)
}

// The marks of the seat are 0, 1, 2 and so on, and they are this many.
fn are_in_order(ledger: &Ledger, seat: u32, times: u64) -> bool {
    let mut next = 0u64;
    for mark in ledger.marks.iter() {
        if mark.seat == seat {
            if mark.number != next {
                return false;
            }
            next = next.wrapping_add(1);
        }
    }
    next == times
}

// An inbox over an empty ledger, with its two seats.
fn two_seats(alloc: Global) -> Option<(Inbox<Ledger>, Seat<Ledger>, Seat<Ledger>)>
    ensures { IfSome result (λ r. (r.1.inbox ≡ r.0.inbox) × (r.2.inbox ≡ r.0.inbox)) }
{
    match Inbox::new(alloc, Ledger::new(alloc, 10), 2) {
        Err(_) => None,
        Ok((inbox, mut seats)) => {
            let second = seats.pop();
            let Some(second) = second else { unreachable!() };
            let first = seats.pop();
            let Some(first) = first else { unreachable!() };
            Some((inbox, first, second))
        }
    }
}

// The first seat marks three times in a thread of its own, and hands over a note of what it has seen; the second learns it, and tells how many marks there are then.
fn hand_over<R: Threads + Wait + Sync>(
    rt: &R,
    inbox: Inbox<Ledger>,
    first: Seat<Ledger>,
    second: Seat<Ledger>,
    mut row: Vec<Seat<Ledger>>,
) -> (u64, Ledger)
    requires here { (first.inbox ≡ inbox.inbox) × (second.inbox ≡ inbox.inbox) }
    requires numbers { (first.number ≡ 1) × (second.number ≡ 2) × (inbox.seats ≡ 2) }
    requires room { (vec_len row ≡ 0) × (2 ≤ vec_capacity row) }
{
    let (one, second) = join(
        rt,
        || -> (Seat<Ledger>, Note<Ledger>)
            requires { first.inbox ≡ inbox.inbox }
            ensures { (result.0.number ≡ first.number) × (result.0.inbox ≡ first.inbox) × (result.1.inbox ≡ first.inbox) }
        {
            let seat = mark_many(rt, &inbox, first, 3);
            inbox.note(seat)
        },
        || -> Seat<Ledger>
            requires { second.inbox ≡ inbox.inbox }
            ensures { (result.number ≡ second.number) × (result.inbox ≡ second.inbox) }
        {
            let (seat, _front) = inbox.front(second);
            seat
        },
    );
    let (first, note) = one;
    let second = inbox.learn(second, note);
    let (second, front) = inbox.front(second);
    row.push_reserved(first);
    row.push_reserved(second);
    (front, inbox.close(row))
}

// The same with the two seats of an inbox, taken out of their row.
fn hand_over_in_row<R: Threads + Wait + Sync>(
    rt: &R,
    inbox: Inbox<Ledger>,
    mut seats: Vec<Seat<Ledger>>,
) -> (u64, Ledger)
    requires here { (s : _) → Among s seats.items → s.inbox ≡ inbox.inbox }
    requires numbers { (map (λ s. s.number) seats.items ≡ 1 ∷ 2 ∷ []) × (inbox.seats ≡ 2) }
{
    let second = seats.pop();
    let Some(second) = second else { unreachable!() };
    let first = seats.pop();
    let Some(first) = first else { unreachable!() };
    hand_over(rt, inbox, first, second, seats)
}

// A ledger with a mark of nobody, where there is memory for it.
fn marked_by_nobody(alloc: Global) -> Ledger
    ensures fresh { AllBy (λ m. m.seat) 0 result.marks.items }
{
    let mut ledger = Ledger::new(alloc, 10);
    let _added = ledger.add(Mark { seat: 0, number: 7 });
    ledger
}

// An inbox that is closed before any turn gives back the list that it began with.
fn open_and_close(alloc: Global, ledger: Ledger, seats: u32) -> Ledger
    requires seats { (1 ≤ seats) × (seats ≤ 64) }
    requires fresh { AllBy (λ m. m.seat) 0 ledger.marks.items }
    ensures marks { result.marks.items ≡ ledger.marks.items }
{
    match Inbox::new(alloc, ledger, seats) {
        Err(ledger) => ledger,
        Ok((inbox, row)) => inbox.close(row),
    }
}

// One turn for each seat, from the last to the first, with its number as the mark.
fn mark_each<R: Wait>(
    rt: &R,
    inbox: &Inbox<Ledger>,
    mut seats: Vec<Seat<Ledger>>,
    mut done: Vec<Seat<Ledger>>,
) -> Vec<Seat<Ledger>>
    requires here { (s : _) → Among s seats.items → s.inbox ≡ inbox.now.inbox }
    requires room { (vec_len done ≡ 0) × (vec_len seats ≤ vec_capacity done) }
    ensures here { (s : _) → Among s result.items → s.inbox ≡ inbox.now.inbox }
    ensures each { (s : _) → Among s seats.items → (t : _) × Among t result.items × (t.number ≡ s.number) }
{
    while let Some(seat) = seats.pop() {
        let number = u64::from(seat.number());
        done.push_reserved(mark(rt, inbox, seat, number));
    }
    done
}

// Each seat of the inbox has one turn.
fn mark_by_all<R: Wait>(
    rt: &R,
    inbox: Inbox<Ledger>,
    seats: Vec<Seat<Ledger>>,
    done: Vec<Seat<Ledger>>,
) -> Ledger
    requires here { (s : _) → Among s seats.items → s.inbox ≡ inbox.inbox }
    requires numbers { map (λ s. s.number) seats.items ≡ count_from 1 inbox.seats }
    requires room { (vec_len done ≡ 0) × (inbox.seats ≤ vec_capacity done) }
{
    let done = mark_each(rt, &inbox, seats, done);
    inbox.close(done)
}

#[test]
fn two_threads_take_many_turns(rt: HostRuntime) -> Result<(), Fail> {
    let Ok((inbox, seats)) = Inbox::new(rt.alloc(), Ledger::new(rt.alloc(), 10000), 2) else {
        return Err(Fail::new("memory"));
    };
    let ledger = with_two(&rt, inbox, seats, 2000);
    assert_eq!(rt; ledger.marks.len(), 4000);
    assert!(rt; are_in_order(&ledger, 1, 2000) && are_in_order(&ledger, 2, 2000));
    Ok(())
}

#[test]
fn a_note_from_a_thread_is_learned(rt: HostRuntime) -> Result<(), Fail> {
    let Ok((inbox, seats)) = Inbox::new(rt.alloc(), Ledger::new(rt.alloc(), 10), 2) else {
        return Err(Fail::new("memory"));
    };
    let (front, ledger) = hand_over_in_row(&rt, inbox, seats);
    assert_eq!(rt; front, 3);
    assert!(rt; ledger.marks.len() == 3 && are_in_order(&ledger, 1, 3));
    Ok(())
}

#[test]
fn a_front_is_read_while_another_seat_has_the_turn(rt: HostRuntime) -> Result<(), Fail> {
    let Some((inbox, first, second)) = two_seats(rt.alloc()) else {
        return Err(Fail::new("memory"));
    };
    let seat = first.number();
    let mut turn = inbox.enter(&rt, first);
    let added = turn.value().add(Mark { seat, number: 7 });
    let (second, before) = inbox.front(second);
    let _first = inbox.leave(turn);
    let (_second, after) = inbox.front(second);
    assert!(rt; added.is_ok() && before == 0 && after == 1);
    Ok(())
}

#[test]
fn an_inbox_without_a_turn_gives_its_marks_back(rt: HostRuntime) -> Result<(), Fail> {
    let ledger = open_and_close(rt.alloc(), marked_by_nobody(rt.alloc()), 3);
    assert!(rt; ledger.marks.len() == 1 && are_in_order(&ledger, 1, 0));
    Ok(())
}

#[test]
fn sixty_four_seats_have_a_turn_each(rt: HostRuntime) -> Result<(), Fail> {
    let Ok(done) = Vec::with_capacity(rt.alloc(), 64) else {
        return Err(Fail::new("memory"));
    };
    let Ok((inbox, seats)) = Inbox::new(rt.alloc(), Ledger::new(rt.alloc(), 64), 64) else {
        return Err(Fail::new("memory"));
    };
    let ledger = mark_by_all(&rt, inbox, seats, done);
    let mut seat = 64u32;
    for mark in ledger.marks.iter() {
        assert!(rt; mark.seat == seat && mark.number == u64::from(seat));
        seat = seat.wrapping_sub(1);
    }
    assert!(rt; ledger.marks.len() == 64 && seat == 0);
    Ok(())
}
