// Cells and worker records: the caller's memory.
ghost use Rattle.std.specs.Prelude.{◌≡◌};
ghost use Rattle.ring.specs.Phases.{engine_side, kind_side};

use tickets::*;

// The Safe bit of a cell and its epoch, read and swapped as one word.
#[derive(Clone, Copy, PartialEq, Eq, Debug)]
pub struct Pair {
    pub safe: bool,
    pub epoch: Epoch,
}

// A token is the number of a worker that means to place its item here.
#[derive(Clone, Copy)]
pub enum Value<I> {
    Empty,
    Token(WorkerNo),
    Item(I),
}

// A cell of the ring; one with an item is occupied.
#[derive(Clone, Copy)]
pub struct Cell<I> {
    pub pair: Pair,
    pub value: Value<I>,
}

// The operation that a phase belongs to.
#[derive(Clone, Copy, PartialEq, Eq, Debug)]
pub enum Side {
    Neither,
    Enqueuing,
    Dequeuing,
}

// The rows that the engine performs, for every ring kind.
#[derive(Clone, Copy, PartialEq, Eq, Debug)]
pub enum EngineRow {
    E1,
    E2,
    E9,
    E10,
    D1,
    D9,
}

// The rows that a ring kind supplies.
#[derive(Clone, Copy, PartialEq, Eq, Debug)]
pub enum KindRow {
    E3,
    E4,
    E5,
    E6,
    E7,
    E8,
    E11,
    D2,
    D3,
    D4,
    D5,
    D6,
    D7,
    D8,
}

impl EngineRow {
    // The operation that the row belongs to.
    pub fn side(self) -> Side
        ensures { result ≡ engine_side self }
    {
        match self {
            EngineRow::E1 | EngineRow::E2 | EngineRow::E9 | EngineRow::E10 => Side::Enqueuing,
            EngineRow::D1 | EngineRow::D9 => Side::Dequeuing,
        }
    }
}

impl KindRow {
    // The operation that the row belongs to.
    pub fn side(self) -> Side
        ensures { result ≡ kind_side self }
    {
        match self {
            KindRow::E3 | KindRow::E4 | KindRow::E5 | KindRow::E6 => Side::Enqueuing,
            KindRow::E7 | KindRow::E8 | KindRow::E11 => Side::Enqueuing,
            KindRow::D2 | KindRow::D3 | KindRow::D4 | KindRow::D5 => Side::Dequeuing,
            KindRow::D6 | KindRow::D7 | KindRow::D8 => Side::Dequeuing,
        }
    }
}

// Where a worker stands: the row that its next step performs.
#[derive(Clone, Copy)]
pub enum Phase {
    Idle,
    Engine(EngineRow),
    Kind(KindRow),
}

// A worker's record: its phase, its ticket, the item that it enqueues, and the pair and value last read.
#[derive(Clone, Copy)]
pub struct Worker<I> {
    pub phase: Phase,
    pub ticket: Ticket,
    pub item: Option<I>,
    pub pair: Pair,
    pub value: Value<I>,
}
