ghost use Rattle.std.specs.Prelude.{◌≡◌, ◌++◌, [], ◌∷◌, IfErr, IfOk, length, MatchResult, ◌↔◌};
ghost use Rattle.turn_inbox.specs.declared.ledger.AddFault.TheVariants.{Full};
ghost use mathlib.Core.List.{IsPrefix};
ghost use Rattle.turn_inbox.specs.Entries.{by};

use crate::inbox::Inbox;
use crate::ledger::{AddFault, Ledger, Mark};
use crate::seats::Seat;
use std::sync::Wait;

/// Adds a mark of the seat, in one turn.
pub fn add_mark<R: Wait>(
    rt: &R,
    inbox: &Inbox<Ledger>,
    seat: Seat<Ledger>,
    number: u64,
) -> (Seat<Ledger>, Result<(), AddFault>)
    requires { seat.inbox ≡ inbox.now.inbox }
    ensures same { (result.0.number ≡ seat.number) × (result.0.looks ≡ seat.looks) × (result.0.inbox ≡ seat.inbox) }
    ensures seen { IsPrefix seat.seen result.0.seen }
    ensures mine { MatchResult result.1 (λ _. by (λ m. m.seat) seat.number result.0.seen ≡ by (λ m. m.seat) seat.number seat.seen ++ record { seat = seat.number; number = number } ∷ []) (λ _. by (λ m. m.seat) seat.number result.0.seen ≡ by (λ m. m.seat) seat.number seat.seen) }
    ensures added { IfOk result.1 (λ _. (before : _) × IsPrefix seat.seen before × (result.0.seen ≡ before ++ record { seat = seat.number; number = number } ∷ [])) }
    ensures fault { IfErr result.1 (λ f. (f ≡ Full) ↔ (length result.0.seen ≡ seat.inbox.basis)) }
{
    let mut turn = inbox.enter(rt, seat);
    let mark = Mark {
        seat: turn.number(),
        number,
    };
    let added = turn.value().add(mark);
    (inbox.leave(turn), added)
}
