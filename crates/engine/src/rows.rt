// Each row reads fields of the worker's record and writes the record whole. Control and record are lent one by one: a struct
// that holds both `&mut` would have each row promise, besides what it does, that both still are the caller's.
ghost use Rattle.std.specs.Prelude.{◌≡◌, ◌+◌, ◌≤◌, ◌==◌, if◌then◌else◌, Ok, Err};
ghost use Rattle.std.specs.Option.{ok_or};
ghost use Rattle.ring.specs.declared.answers.Refusal.TheVariants.{Misfit, Spent};
ghost use Rattle.ring.specs.Fields.{with_phase, with_ticket, finished};
ghost use Rattle.ring.specs.Phases.{engine_side};
ghost use Rattle.ring.specs.Rows.{draw_tail, read_closed, read_head, set_closed, draw_head, read_tail, engine_row};
ghost use Rattle.ring.specs.Calls.{carries, fitting};
ghost use Rattle.ring.specs.Table.{counter_limit, ticket};
ghost use Rattle.engine.specs.Engine.{Does};

use crate::fits::fits;
use ring::answers::*;
use ring::control::{COUNTER_LIMIT, Control};
use ring::table::*;
use tickets::*;

// The worker draws a ticket from Head or Tail and goes on. The counter comes back as it is after that.
fn draw<I: Copy>(counter: u64, worker: &mut Worker<I>, phase: Phase) -> Result<u64, Refusal>
    requires { counter ≤ counter_limit }
    ensures counter { result ≡ if counter == counter_limit then Err Spent else Ok (counter + 1) }
    ensures record { worker.new ≡ if counter == counter_limit then worker.old else with_phase (with_ticket worker.old (ticket counter)) phase }
{
    if counter == COUNTER_LIMIT {
        return Err(Refusal::Spent);
    }
    *worker = Worker {
        phase,
        ticket: Ticket(counter),
        ..*worker
    };
    Ok(counter + 1)
}

// The worker gives up: its operation ends, and its item comes back.
fn hand_back<I: Copy>(worker: &mut Worker<I>) -> Result<I, Refusal>
    ensures item { result ≡ ok_or worker.old.item Misfit }
    ensures record { worker.new ≡ if carries worker.old.item then finished worker.old else worker.old }
{
    let item = worker.item.ok_or(Refusal::Misfit)?;
    *worker = worker.finished();
    Ok(item)
}

// Row E1: draw a ticket from Tail.
fn tail_drawn<I: Copy>(control: &mut Control, worker: &mut Worker<I>) -> Result<Answer<I>, Refusal>
    ensures { Does draw_tail control.old worker.old result control.new worker.new }
{
    control.tail = draw(control.tail, worker, Phase::Engine(EngineRow::E2))?;
    Ok(Answer::Working)
}

// Row E2: read Closed.
fn closed_read<I: Copy>(control: &Control, worker: &mut Worker<I>) -> Result<Answer<I>, Refusal>
    ensures { Does read_closed control.now worker.old result control.now worker.new }
{
    if control.closed {
        let ticket = worker.ticket;
        return Ok(Answer::Closed(ticket, hand_back(worker)?));
    }
    *worker = Worker {
        phase: Phase::Kind(KindRow::E3),
        ..*worker
    };
    Ok(Answer::Working)
}

// Row E9: read Head. The ring is full from the ticket R after it on.
fn head_read<I: Copy>(control: &Control, worker: &mut Worker<I>) -> Result<Answer<I>, Refusal>
    ensures { Does read_head control.now worker.old result control.now worker.new }
{
    let first_beyond = Ticket(control.head + u64::from(control.cells));
    let row = if first_beyond <= worker.ticket {
        EngineRow::E10
    } else {
        EngineRow::E1
    };
    *worker = Worker {
        phase: Phase::Engine(row),
        ..*worker
    };
    Ok(Answer::Working)
}

// Row E10: set Closed.
fn closed_set<I: Copy>(control: &mut Control, worker: &mut Worker<I>) -> Result<Answer<I>, Refusal>
    ensures { Does set_closed control.old worker.old result control.new worker.new }
{
    let ticket = worker.ticket;
    let item = hand_back(worker)?;
    control.closed = true;
    Ok(Answer::Full(ticket, item))
}

// Row D1: draw a ticket from Head.
fn head_drawn<I: Copy>(control: &mut Control, worker: &mut Worker<I>) -> Result<Answer<I>, Refusal>
    ensures { Does draw_head control.old worker.old result control.new worker.new }
{
    control.head = draw(control.head, worker, Phase::Kind(KindRow::D2))?;
    Ok(Answer::Working)
}

// Row D9: read Tail, which is above 0. The ticket before it is the last that an enqueue has drawn.
fn tail_read<I: Copy>(control: &Control, worker: &mut Worker<I>) -> Result<Answer<I>, Refusal>
    ensures { Does read_tail control.now worker.old result control.now worker.new }
{
    let ticket = worker.ticket;
    if Ticket(control.tail - 1) <= ticket {
        *worker = worker.finished();
        return Ok(Answer::Empty(ticket));
    }
    *worker = Worker {
        phase: Phase::Engine(EngineRow::D1),
        ..*worker
    };
    Ok(Answer::Working)
}

// The row of the engine that the worker stands at. A match: the machine of a worker goes by its own phase.
fn engine_row_of<I: Copy>(
    control: &mut Control,
    worker: &mut Worker<I>,
    row: EngineRow,
) -> Result<Answer<I>, Refusal>
    ensures { Does (λ c w. engine_row c w row) control.old worker.old result control.new worker.new }
{
    match row {
        EngineRow::E1 => tail_drawn(control, worker),
        EngineRow::E2 => closed_read(control, worker),
        EngineRow::E9 => head_read(control, worker),
        EngineRow::E10 => closed_set(control, worker),
        EngineRow::D1 => head_drawn(control, worker),
        EngineRow::D9 => tail_read(control, worker),
    }
}

// The row of the engine, after the tests of the worker's record.
pub fn engine_turn<I: Copy>(
    control: &mut Control,
    worker: &mut Worker<I>,
    row: EngineRow,
) -> Result<Answer<I>, Refusal>
    ensures { Does (λ c w. fitting w (engine_side row) (engine_row c w row)) control.old worker.old result control.new worker.new }
{
    if !fits(worker, row.side()) {
        return Err(Refusal::Misfit);
    }
    engine_row_of(control, worker, row)
}
