// A ring kind: its meaning, its seven laws, and its step.
ghost use Rattle.tickets.specs.declared.Ticket.{Ticket};
ghost use Rattle.ring.specs.Table.{Table, Held};
ghost use Rattle.ring.specs.Turns.{KindStep, Performed};
ghost use Rattle.ring.specs.Laws.{Reached, TouchesItsOwn, PlacesFree, TakesHeld, LeavesItems, PassesBarred, StaysBarred, RoundTrip};

use crate::answers::*;
use crate::table::*;
use tickets::*;

// Whatever supplies the rows other than the engine's.
pub trait RingKind<I> {
    // what a step makes of the worker's record and its ticket's cell
    ghost step: { KindStep I };

    // a ticket is held with an item
    ghost held: { Table I → Ticket → I → Type 0 };

    // a ticket can no longer be placed
    ghost barred: { Table I → Ticket → Type 0 };

    // Performs the row of the worker's phase on its record and its ticket's cell; a refusal leaves both. Ring, head and
    // number stand apart, as in `step`: the laws name each.
    fn perform(
        &self,
        ring: u32,
        head: u64,
        number: WorkerNo,
        worker: &mut Worker<I>,
        cell: &mut Cell<I>,
    ) -> Result<Answer<I>, Refusal>
        ensures { Performed (step ring head number worker.old cell.old) worker.old cell.old result worker.new cell.new };

    // held is what the table itself holds, both ways
    ghost meaning: { (t : Table I) (k : Ticket) (i : I) → (held t k i → Held t k i) × (Held t k i → held t k i) };

    // 1. a step touches its worker's record and its ticket's cell only
    ghost touches_its_own: { (t : Table I) → Reached step t → TouchesItsOwn step t };

    // 2. what is placed goes into a free cell, under a ticket that is not barred
    ghost places_free: { (t : Table I) → Reached step t → PlacesFree step held barred t };

    // 3. what is taken was held under that ticket
    ghost takes_held: { (t : Table I) → Reached step t → TakesHeld step held barred t };

    // 4. no other step touches an item
    ghost leaves_items: { (t : Table I) → Reached step t → LeavesItems step held barred t };

    // 5. a ticket that is passed over is not held, and is barred after it
    ghost passes_barred: { (t : Table I) → Reached step t → PassesBarred step held barred t };

    // 6. a barred ticket stays barred, and no epoch falls
    ghost stays_barred: { (t : Table I) → Reached step t → StaysBarred step barred t };

    // 7. on a new table an item goes in and comes out, by eight steps each
    ghost round_trip: { RoundTrip step };
}
