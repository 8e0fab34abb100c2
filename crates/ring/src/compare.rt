// What the rows compare, and the records that they start from.
ghost use Rattle.std.specs.Prelude.{◌≡◌};
ghost use Rattle.ring.specs.Table.{fresh_cell, idle_worker, occupied};
ghost use Rattle.ring.specs.Fields.{finished as ended};
ghost use Rattle.ring.specs.Turns.{same_pair, still, is_empty, is_token};

use crate::table::*;
use tickets::*;

impl Pair {
    // The pair found is still the pair read.
    pub fn is_still(self, found: Pair) -> bool
        ensures { result ≡ same_pair self found }
    {
        self == found
    }
}

impl<I: Copy> Value<I> {
    // The value found is still the value read. An item never is.
    pub fn is_still(self, found: Value<I>) -> bool
        ensures { result ≡ still self found }
    {
        match (self, found) {
            (Value::Empty, Value::Empty) => true,
            (Value::Token(n), Value::Token(m)) => n == m,
            _ => false,
        }
    }

    // Neither a token nor an item.
    pub fn is_empty(self) -> bool
        ensures { result ≡ is_empty self }
    {
        matches!(self, Value::Empty)
    }

    // The number of a worker that means to place its item.
    pub fn is_token(self) -> bool
        ensures { result ≡ is_token self }
    {
        matches!(self, Value::Token(_))
    }

    // A cell with an item is occupied.
    pub fn is_item(self) -> bool
        ensures { result ≡ occupied self }
    {
        matches!(self, Value::Item(_))
    }
}

impl<I: Copy> Cell<I> {
    // A cell of a new table. Not a Default: a derived one would not be Safe, and the name says where the cell stands.
    pub fn fresh() -> Cell<I>
        ensures { result ≡ fresh_cell }
    {
        Cell {
            pair: Pair {
                safe: true,
                epoch: Epoch(0),
            },
            value: Value::Empty,
        }
    }
}

impl<I: Copy> Worker<I> {
    // The record of an idle worker. Not a Default: a derived one would ask for a Default of the item.
    pub fn idle() -> Worker<I>
        ensures { result ≡ idle_worker }
    {
        Worker {
            phase: Phase::Idle,
            ticket: Ticket(0),
            item: None,
            pair: Pair {
                safe: false,
                epoch: Epoch(0),
            },
            value: Value::Empty,
        }
    }

    // The record of this worker after its operation has ended.
    pub fn finished(self) -> Worker<I>
        ensures { result ≡ ended self }
    {
        Worker::idle()
    }
}
