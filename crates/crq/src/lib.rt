// CRQ, the ring kind that swaps a cell's pair and value together.
// For: tables whose workers follow CRQ's rows.
// Promises: `perform` is CRQ's row on every input; CRQ keeps the seven laws, so the books of its every run close; its
// worked run comes out as told.
// Rests on: tickets, ring, turns.
#![tactic(auto)]

mod rows;

ghost use Rattle.std.specs.Prelude.{◌≡◌, length};
ghost use Rattle.ring.specs.Table.{Held};
ghost use Rattle.ring.specs.Turns.{Performed};
ghost use Rattle.ring.specs.Books.{BooksClose, BooksFill};
ghost use Rattle.ring.specs.Origin.{ItemsAssigned};
ghost use Rattle.crq.specs.Rows.{crq_step};
ghost use Rattle.crq.specs.Worked.{crq_runs, CrqRunsStand};
ghost use Rattle.crq.specs.Barred.{crq_barred};
ghost use Rattle.crq.specs.Order.{touches};
ghost use Rattle.crq.specs.Laws.{places_free_lem, takes_held_lem, leaves_items_lem, passes_barred_lem, stays_barred_lem};
ghost use Rattle.crq.specs.RoundTrip.{crq_round_trip};
ghost use Rattle.std.proofs.Common.{rules};

use crate::rows::take_turn;
use ring::answers::*;
use ring::kind::*;
use ring::table::*;
use ring::theorem::books_close;
use tickets::*;
use turns::due::Due;

// CRQ as a ring kind; it has no state of its own.
#[derive(Clone, Copy)]
pub struct Crq;

// CRQ's rows, its barred set and the proofs of the seven laws.
impl<I: Copy> RingKind<I> for Crq {
    ghost step = { crq_step };

    ghost held = { Held };

    ghost barred = { crq_barred };

    ghost meaning = { Prim.search rules };

    ghost touches_its_own = { λ t r. touches t };

    ghost places_free = { places_free_lem };

    ghost takes_held = { takes_held_lem };

    ghost leaves_items = { leaves_items_lem };

    ghost passes_barred = { passes_barred_lem };

    ghost stays_barred = { stays_barred_lem };

    ghost round_trip = { crq_round_trip };

    fn perform(
        &self,
        ring: u32,
        head: u64,
        number: WorkerNo,
        worker: &mut Worker<I>,
        cell: &mut Cell<I>,
    ) -> Result<Answer<I>, Refusal>
        ensures { Performed (crq_step ring head number worker.old cell.old) worker.old cell.old result worker.new cell.new }
    {
        // one line in each kind: only the rows differ, and they are all that a kind is
        take_turn(Due::of(ring, head, number, worker)?, worker, cell)
    }
}

// The books of every run with CRQ close, they fill, and nothing is invented. `books_close` is generic; here its clauses name
// this kind's own rows.
pub fn crq_books_close<I: Copy>()
    ensures close { BooksClose {I = I} crq_step }
    ensures fill { BooksFill {I = I} crq_step }
    ensures origin { ItemsAssigned {I = I} crq_step }
{
    books_close::<I, Crq>()
}

// The worked runs of CRQ come out as told: they are computed, step by step. There are this many.
#[tactic(auto, unfolding(crate::specs::Worked::CrqRunsStand))]
pub fn crq_runs_stand<I: Copy>() -> u8
    ensures runs { CrqRunsStand I }
    ensures count { result ≡ length (crq_runs {I = I}) }
{
    1
}
