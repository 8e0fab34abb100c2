// What the rows of a ring kind do to the worker's record and its ticket's cell, lent one by one. Each writes what it changes
// whole.
// For: the crates of ring kinds.
// Promises: each function leaves record and cell, and answers, as the definition of the same name in ring says; a row that
// is not the kind's, or a ticket above the limit, is 13.
// Rests on: tickets, ring.
#![tactic(auto)]

pub mod due;
pub mod found;

ghost use Rattle.std.specs.Prelude.{◌≡◌, if◌then◌else◌, Ok, nat_le};
ghost use Rattle.ring.specs.declared.answers.Answer.TheVariants.{Working, PassedOver};
ghost use Rattle.ring.specs.declared.table.EngineRow.TheVariants.{E9, D9};
ghost use Rattle.ring.specs.declared.table.KindRow.TheVariants.{E6};
ghost use Rattle.ring.specs.declared.table.Phase.TheVariants.{Engine, Kind};
ghost use Rattle.ring.specs.Fields.{with_phase, with_pair, with_value, with_cell_value, with_cell_pair};
ghost use Rattle.ring.specs.Turns.{Performed, places, takes};

use ring::answers::*;
use ring::table::*;
use tickets::*;

// The worker goes on to a phase.
pub fn go_on<I: Copy>(worker: &mut Worker<I>, phase: Phase) -> Result<Answer<I>, Refusal>
    ensures answer { result ≡ Ok Working }
    ensures record { worker.new ≡ with_phase worker.old phase }
{
    *worker = Worker { phase, ..*worker };
    Ok(Answer::Working)
}

// The worker reads the cell's pair and goes on. Pair and value are two words, read and swapped by rows of their own: one
// function for both would have to be told which.
pub fn read_pair<I: Copy>(
    worker: &mut Worker<I>,
    cell: &Cell<I>,
    phase: Phase,
) -> Result<Answer<I>, Refusal>
    ensures answer { result ≡ Ok Working }
    ensures record { worker.new ≡ with_phase (with_pair worker.old cell.now.pair) phase }
{
    *worker = Worker {
        phase,
        pair: cell.pair,
        ..*worker
    };
    Ok(Answer::Working)
}

// The worker reads the cell's value and goes on.
pub fn read_value<I: Copy>(
    worker: &mut Worker<I>,
    cell: &Cell<I>,
    phase: Phase,
) -> Result<Answer<I>, Refusal>
    ensures answer { result ≡ Ok Working }
    ensures record { worker.new ≡ with_phase (with_value worker.old cell.now.value) phase }
{
    *worker = Worker {
        phase,
        value: cell.value,
        ..*worker
    };
    Ok(Answer::Working)
}

// The worker tests Head: an enqueue on a cell that is not Safe goes on if Head has not passed its ticket.
pub fn read_head<I: Copy>(worker: &mut Worker<I>, head: u64) -> Result<Answer<I>, Refusal>
    ensures answer { result ≡ Ok Working }
    ensures record { worker.new ≡ with_phase worker.old (if nat_le head worker.old.ticket.0 then Kind E6 else Engine E9) }
{
    if Ticket(head) <= worker.ticket {
        return go_on(worker, Phase::Kind(KindRow::E6));
    }
    go_on(worker, Phase::Engine(EngineRow::E9))
}

// The worker's ticket is passed over.
pub fn pass_over<I: Copy>(worker: &mut Worker<I>) -> Result<Answer<I>, Refusal>
    ensures answer { result ≡ Ok (PassedOver worker.old.ticket) }
    ensures record { worker.new ≡ with_phase worker.old (Engine D9) }
{
    *worker = Worker {
        phase: Phase::Engine(EngineRow::D9),
        ..*worker
    };
    Ok(Answer::PassedOver(worker.ticket))
}

// The cell gets another value; its pair stays.
pub fn swap_value<I: Copy>(cell: &mut Cell<I>, value: Value<I>)
    ensures { cell.new ≡ with_cell_value cell.old value }
{
    *cell = Cell { value, ..*cell };
}

// The cell gets another pair; its value stays.
pub fn swap_pair<I: Copy>(cell: &mut Cell<I>, pair: Pair)
    ensures { cell.new ≡ with_cell_pair cell.old pair }
{
    *cell = Cell { pair, ..*cell };
}

// The worker's item is placed in the cell, where it has one.
pub fn place<I: Copy>(worker: &mut Worker<I>, cell: &mut Cell<I>) -> Result<Answer<I>, Refusal>
    ensures { Performed (places worker.old cell.old worker.old.item) worker.old cell.old result worker.new cell.new }
{
    let ticket = worker.ticket;
    let item = worker.item.ok_or(Refusal::Misfit)?;
    *worker = worker.finished();
    swap_value(cell, Value::Item(item));
    Ok(Answer::Placed(ticket, item))
}

// The item that the worker read is taken, and the cell emptied.
pub fn take<I: Copy>(worker: &mut Worker<I>, cell: &mut Cell<I>) -> Result<Answer<I>, Refusal>
    ensures { Performed (takes worker.old cell.old worker.old.value) worker.old cell.old result worker.new cell.new }
{
    let ticket = worker.ticket;
    let Value::Item(item) = worker.value else {
        return Err(Refusal::Misfit);
    };
    *worker = worker.finished();
    swap_value(cell, Value::Empty);
    Ok(Answer::Taken(ticket, item))
}
