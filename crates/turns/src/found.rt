// What a turn of a worker finds.
ghost use Rattle.std.specs.Prelude.{◌≡◌, ℕ, ◌<◌, ◌≤◌, Ok, Err};
ghost use Rattle.ring.specs.declared.table.Phase.TheVariants.{Kind};
ghost use Rattle.ring.specs.declared.answers.Refusal.TheVariants.{Misfit};
ghost use Rattle.turns.specs.Found.{finds, row_of};

use ring::answers::*;
use ring::control::COUNTER_LIMIT;
use ring::table::*;
use tickets::*;

// Head, the worker's number, and its ticket's round. Its record and its ticket's cell stand beside it.
#[derive(Clone, Copy)]
pub struct Found {
    pub head: u64,
    pub number: WorkerNo,
    pub round: Epoch,
}

impl Found {
    // What the worker with this record finds, on a ring of `ring` cells. Ring, head and number stand apart, as in `perform`.
    pub fn of<I: Copy>(ring: u32, head: u64, number: WorkerNo, worker: &Worker<I>) -> Found
        ensures value { result ≡ finds ring head number worker.now }
        ensures bound { result.round.0 ≤ worker.now.ticket.0 }
    {
        Found {
            head,
            number,
            round: worker.ticket.round(ring),
        }
    }
}

// The row that a step of this worker performs: one of the kind's, on a ticket within the limit. A match on its own phase.
pub fn row_of<I: Copy>(worker: &Worker<I>) -> Result<KindRow, Refusal>
    ensures value { result ≡ row_of worker.now }
    ensures inside { elim result [ Ok k ↦ (worker.now.phase ≡ Kind k) × (worker.now.ticket.0 < 1000000000000) | Err e ↦ e ≡ Misfit ] }
{
    match worker.phase {
        Phase::Kind(row) if worker.ticket < Ticket(COUNTER_LIMIT) => Ok(row),
        _ => Err(Refusal::Misfit),
    }
}
