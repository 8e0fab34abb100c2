// PRQ, the ring kind that swaps single words only.
// For: tables whose workers follow PRQ's rows.
// Promises: `perform` is PRQ's row on every input; PRQ keeps the seven laws, so the books of its every run close; its
// worked runs come out as told.
// Rests on: tickets, ring, turns.
#![tactic(auto)]

mod rows;

ghost use Rattle.std.specs.Prelude.{◌≡◌, length};
ghost use Rattle.ring.specs.Table.{Held};
ghost use Rattle.ring.specs.Turns.{Performed};
ghost use Rattle.ring.specs.Books.{BooksClose, BooksFill};
ghost use Rattle.ring.specs.Origin.{ItemsAssigned};
ghost use Rattle.prq.specs.Rows.{prq_step};
ghost use Rattle.prq.specs.Worked.{prq_runs, PrqRunsStand};
ghost use Rattle.prq.specs.Barred.{prq_barred};
ghost use Rattle.prq.specs.Turns.{touches};
ghost use Rattle.prq.specs.Invariant.{when_reached};
ghost use Rattle.prq.specs.Laws.{places_free_lem, takes_held_lem, leaves_items_lem, passes_barred_lem, stays_barred_lem};
ghost use Rattle.prq.specs.RoundTrip.{prq_round_trip};
ghost use Rattle.std.proofs.Common.{rules};

use crate::rows::take_turn;
use ring::answers::*;
use ring::kind::*;
use ring::table::*;
use ring::theorem::books_close;
use tickets::*;
use turns::due::Due;

// PRQ as a ring kind; it has no state of its own.
#[derive(Clone, Copy)]
pub struct Prq;

// PRQ's rows, its barred set and the proofs of the seven laws.
impl<I: Copy> RingKind<I> for Prq {
    ghost step = { prq_step };

    ghost held = { Held };

    ghost barred = { prq_barred };

    ghost meaning = { Prim.search rules };

    ghost touches_its_own = { λ t r. touches t };

    ghost places_free = { when_reached places_free_lem };

    ghost takes_held = { when_reached takes_held_lem };

    ghost leaves_items = { when_reached leaves_items_lem };

    ghost passes_barred = { when_reached passes_barred_lem };

    ghost stays_barred = { when_reached stays_barred_lem };

    ghost round_trip = { prq_round_trip };

    fn perform(
        &self,
        ring: u32,
        head: u64,
        number: WorkerNo,
        worker: &mut Worker<I>,
        cell: &mut Cell<I>,
    ) -> Result<Answer<I>, Refusal>
        ensures { Performed (prq_step ring head number worker.old cell.old) worker.old cell.old result worker.new cell.new }
    {
        // one line in each kind: only the rows differ, and they are all that a kind is
        take_turn(Due::of(ring, head, number, worker)?, worker, cell)
    }
}

// The books of every run with PRQ close, they fill, and nothing is invented. `books_close` is generic; here its clauses name
// this kind's own rows.
pub fn prq_books_close<I: Copy>()
    ensures close { BooksClose {I = I} prq_step }
    ensures fill { BooksFill {I = I} prq_step }
    ensures origin { ItemsAssigned {I = I} prq_step }
{
    books_close::<I, Prq>()
}

// The worked runs of PRQ come out as told: they are computed, step by step. There are this many.
#[tactic(auto, unfolding(crate::specs::Worked::PrqRunsStand))]
pub fn prq_runs_stand<I: Copy>() -> u8
    ensures runs { PrqRunsStand I }
    ensures count { (a b c : I) → result ≡ length (prq_runs a b c) }
{
    7
}
