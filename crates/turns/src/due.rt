// The turn that is due.
ghost use Rattle.std.specs.Prelude.{◌≡◌, ◌<◌, Ok, Err};
ghost use Rattle.ring.specs.Table.{counter_limit};
ghost use Rattle.turns.specs.Found.{finds, row_of};

use crate::found::*;
use ring::answers::*;
use ring::table::*;
use tickets::*;

// The row of the kind that a worker performs next, and what it finds. Its ticket is within the limit, so that the epoch
// after its round can be written.
#[derive(Clone, Copy)]
pub struct Due {
    pub row: KindRow,
    pub found: Found,
    pub ghost within: { found.round.0 < counter_limit },
}

impl Due {
    // What is due from the worker with this record, on a ring of `ring` cells: 13 where no row of a kind is. Ring, head and
    // number stand apart, as in `perform`.
    pub fn of<I: Copy>(
        ring: u32,
        head: u64,
        number: WorkerNo,
        worker: &Worker<I>,
    ) -> Result<Due, Refusal>
        ensures { elim result [ Ok due ↦ (row_of worker.now ≡ Ok due.row) × (due.found ≡ finds ring head number worker.now) | Err e ↦ row_of worker.now ≡ Err e ] }
    {
        let row = row_of(worker)?;
        let found = Found::of(ring, head, number, worker);
        Ok(Due { row, found })
    }
}
