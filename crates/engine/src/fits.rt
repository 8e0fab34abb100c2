// The test that a step makes of the worker's record.
ghost use Rattle.std.specs.Prelude.{◌≡◌};
ghost use Rattle.ring.specs.Calls.{fit};

use ring::control::COUNTER_LIMIT;
use ring::table::*;
use tickets::*;

// The ticket is within the limit, and an enqueue has its item.
pub fn fits<I: Copy>(worker: &Worker<I>, side: Side) -> bool
    ensures { result ≡ fit worker.now side }
{
    let within = worker.ticket < Ticket(COUNTER_LIMIT);
    match side {
        Side::Neither => true,
        Side::Enqueuing => within && worker.item.is_some(),
        Side::Dequeuing => within,
    }
}
