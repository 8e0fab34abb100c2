// Tickets, epochs and worker numbers: three numbers that are never taken for one another.
// For: every crate that speaks of a ring. `round` and `slot` are the only ways from a ticket to an epoch and to a cell.
// Promises: the round is the whole quotient by the number of cells and the slot the remainder, for every number of cells.
// Rests on: no other crate.
#![tactic(auto)]

ghost use Rattle.std.specs.Prelude.{◌≡◌, ℕ, ◌<◌};
ghost use Rattle.tickets.specs.Places.{round, slot};

// A number drawn from Head or Tail.
#[derive(Clone, Copy, PartialEq, Eq, PartialOrd, Ord, Debug)]
pub struct Ticket(pub u64);

// The number in a cell's pair that a ticket's round is compared with. It never falls.
#[derive(Clone, Copy, PartialEq, Eq, PartialOrd, Ord, Debug)]
pub struct Epoch(pub u64);

// A worker's number, counted from 1.
#[derive(Clone, Copy, PartialEq, Eq, PartialOrd, Ord, Debug)]
pub struct WorkerNo(pub u16);

impl Ticket {
    // The epoch at which this ticket uses its cell, in a ring of `ring` cells.
    pub fn round(self, ring: u32) -> Epoch
        ensures { result ≡ round ring self }
    {
        if ring == 0 {
            return Epoch(0);
        }
        Epoch(self.0 / u64::from(ring))
    }

    // The index of this ticket's cell, in a ring of `ring` cells.
    pub fn slot(self, ring: u32) -> usize
        ensures value { result ≡ slot ring self }
        ensures bound { 0 < ring → result < ring }
    {
        if ring == 0 {
            return self.0 as usize;
        }
        (self.0 % u64::from(ring)) as usize
    }
}
