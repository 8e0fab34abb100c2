// The rows of CRQ. A worker at each of them reads a word, or compares a cell and swaps its pair and value together.
// Record and cell are lent one by one: a struct that holds both `&mut` would have each row promise, besides what it does,
// that both still are the caller's.
ghost use Rattle.std.specs.Prelude.{◌≡◌};
ghost use Rattle.ring.specs.declared.table.KindRow.TheVariants.{E4, E6, D3, D5, D7, D8};
ghost use Rattle.ring.specs.Fields.{with_cell_pair};
ghost use Rattle.turns.specs.Found.{RowDone};
ghost use Rattle.crq.specs.Rows.{crq_rows, next_epoch};

use ring::answers::*;
use ring::table::*;
use tickets::*;
use turns::due::Due;
use turns::found::Found;
use turns::*;

// E4: the value is read.
fn e4<I: Copy>(found: Found, worker: &mut Worker<I>, cell: &Cell<I>) -> Result<Answer<I>, Refusal>
    ensures { RowDone crq_rows found E4 worker.old cell.now result worker.new cell.now }
{
    if !cell.value.is_empty() || found.round < worker.pair.epoch {
        return read_value(worker, cell, Phase::Engine(EngineRow::E9));
    }
    let next = if worker.pair.safe {
        KindRow::E6
    } else {
        KindRow::E5
    };
    read_value(worker, cell, Phase::Kind(next))
}

// E6: the item is put into the cell where that is empty, with its pair still as read.
fn e6<I: Copy>(
    found: Found,
    worker: &mut Worker<I>,
    cell: &mut Cell<I>,
) -> Result<Answer<I>, Refusal>
    ensures { RowDone crq_rows found E6 worker.old cell.old result worker.new cell.new }
{
    if !worker.pair.is_still(cell.pair) || !cell.value.is_empty() {
        return go_on(worker, Phase::Engine(EngineRow::E9));
    }
    let placed = place(worker, cell)?;
    let pair = Pair {
        safe: true,
        epoch: found.round,
    };
    swap_pair(cell, pair);
    Ok(placed)
}

// D3: the value is read, and the way on decided.
fn d3<I: Copy>(found: Found, worker: &mut Worker<I>, cell: &Cell<I>) -> Result<Answer<I>, Refusal>
    ensures { RowDone crq_rows found D3 worker.old cell.now result worker.new cell.now }
{
    *worker = Worker {
        value: cell.value,
        ..*worker
    };
    if found.round < worker.pair.epoch {
        return pass_over(worker);
    }
    match cell.value {
        Value::Empty => go_on(worker, Phase::Kind(KindRow::D7)),
        Value::Token(_) => pass_over(worker),
        Value::Item(_) if worker.pair.epoch == found.round => {
            go_on(worker, Phase::Kind(KindRow::D5))
        }
        Value::Item(_) => go_on(worker, Phase::Kind(KindRow::D8)),
    }
}

// The epoch is raised past the ticket's round, and Safe stays.
fn raise<I: Copy>(due: Due, cell: &mut Cell<I>)
    ensures { cell.new ≡ with_cell_pair cell.old (record { safe = cell.old.pair.safe; epoch = next_epoch due.found.round }) }
{
    let pair = Pair {
        epoch: Epoch(due.found.round.0 + 1),
        ..cell.pair
    };
    swap_pair(cell, pair);
}

// D5: the item is taken where the pair is still as read and the cell occupied.
fn d5<I: Copy>(due: Due, worker: &mut Worker<I>, cell: &mut Cell<I>) -> Result<Answer<I>, Refusal>
    ensures { RowDone crq_rows due.found D5 worker.old cell.old result worker.new cell.new }
{
    if !worker.value.is_item() {
        return Err(Refusal::Misfit);
    }
    if !worker.pair.is_still(cell.pair) || !cell.value.is_item() {
        return go_on(worker, Phase::Kind(KindRow::D2));
    }
    raise(due, cell);
    take(worker, cell)
}

// D7: the epoch is raised where the pair is still as read and the cell empty.
fn d7<I: Copy>(due: Due, worker: &mut Worker<I>, cell: &mut Cell<I>) -> Result<Answer<I>, Refusal>
    ensures { RowDone crq_rows due.found D7 worker.old cell.old result worker.new cell.new }
{
    if !worker.pair.is_still(cell.pair) || !cell.value.is_empty() {
        return go_on(worker, Phase::Kind(KindRow::D2));
    }
    raise(due, cell);
    pass_over(worker)
}

// D8: Safe is cleared where the pair is still as read and the cell occupied.
fn d8<I: Copy>(
    found: Found,
    worker: &mut Worker<I>,
    cell: &mut Cell<I>,
) -> Result<Answer<I>, Refusal>
    ensures { RowDone crq_rows found D8 worker.old cell.old result worker.new cell.new }
{
    if !worker.pair.is_still(cell.pair) || !cell.value.is_item() {
        return go_on(worker, Phase::Kind(KindRow::D2));
    }
    let pair = Pair {
        safe: false,
        ..cell.pair
    };
    swap_pair(cell, pair);
    pass_over(worker)
}

// The row that is due; CRQ has no others. A match: the machine of a worker goes by its own phase and what the cell shows.
pub(crate) fn take_turn<I: Copy>(
    due: Due,
    worker: &mut Worker<I>,
    cell: &mut Cell<I>,
) -> Result<Answer<I>, Refusal>
    ensures { RowDone crq_rows due.found due.row worker.old cell.old result worker.new cell.new }
{
    match due.row {
        KindRow::E3 => read_pair(worker, cell, Phase::Kind(KindRow::E4)),
        KindRow::E4 => e4(due.found, worker, cell),
        KindRow::E5 => read_head(worker, due.found.head),
        KindRow::E6 => e6(due.found, worker, cell),
        KindRow::D2 => read_pair(worker, cell, Phase::Kind(KindRow::D3)),
        KindRow::D3 => d3(due.found, worker, cell),
        KindRow::D5 => d5(due, worker, cell),
        KindRow::D7 => d7(due, worker, cell),
        KindRow::D8 => d8(due.found, worker, cell),
        _ => Err(Refusal::Misfit),
    }
}
