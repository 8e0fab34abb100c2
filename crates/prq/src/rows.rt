// The rows of PRQ. A worker at each of them reads or swaps one word: the cell's pair, the cell's value, or Head.
// Record and cell are lent one by one: a struct that holds both `&mut` would have each row promise, besides what it does,
// that both still are the caller's.
ghost use Rattle.std.specs.Prelude.{◌≡◌};
ghost use Rattle.ring.specs.declared.table.KindRow.TheVariants.{E4, E6, E7, E8, E11, D4, D6, D7, D8};
ghost use Rattle.turns.specs.Found.{RowDone};
ghost use Rattle.prq.specs.Rows.{prq_rows, by_value};

use ring::answers::*;
use ring::table::*;
use tickets::*;
use turns::due::Due;
use turns::found::Found;
use turns::*;

// E4: the value is read.
fn e4<I: Copy>(found: Found, worker: &mut Worker<I>, cell: &Cell<I>) -> Result<Answer<I>, Refusal>
    ensures { RowDone prq_rows found E4 worker.old cell.now result worker.new cell.now }
{
    if cell.value.is_item() || found.round <= worker.pair.epoch {
        return read_value(worker, cell, Phase::Engine(EngineRow::E9));
    }
    let next = if worker.pair.safe {
        KindRow::E6
    } else {
        KindRow::E5
    };
    read_value(worker, cell, Phase::Kind(next))
}

// E6: the worker's token is put where the value is still as read.
fn e6<I: Copy>(
    found: Found,
    worker: &mut Worker<I>,
    cell: &mut Cell<I>,
) -> Result<Answer<I>, Refusal>
    ensures { RowDone prq_rows found E6 worker.old cell.old result worker.new cell.new }
{
    if !worker.value.is_still(cell.value) {
        return go_on(worker, Phase::Engine(EngineRow::E9));
    }
    swap_value(cell, Value::Token(found.number));
    go_on(worker, Phase::Kind(KindRow::E7))
}

// E7: the pair is raised to the ticket's round where it is still as read.
fn e7<I: Copy>(
    found: Found,
    worker: &mut Worker<I>,
    cell: &mut Cell<I>,
) -> Result<Answer<I>, Refusal>
    ensures { RowDone prq_rows found E7 worker.old cell.old result worker.new cell.new }
{
    if !worker.pair.is_still(cell.pair) {
        return go_on(worker, Phase::Kind(KindRow::E11));
    }
    let pair = Pair {
        safe: true,
        epoch: found.round,
    };
    swap_pair(cell, pair);
    go_on(worker, Phase::Kind(KindRow::E8))
}

// E8: the item is put where the worker's token stands.
fn e8<I: Copy>(
    found: Found,
    worker: &mut Worker<I>,
    cell: &mut Cell<I>,
) -> Result<Answer<I>, Refusal>
    ensures { RowDone prq_rows found E8 worker.old cell.old result worker.new cell.new }
{
    if !Value::Token(found.number).is_still(cell.value) {
        return go_on(worker, Phase::Engine(EngineRow::E9));
    }
    place(worker, cell)
}

// E11: the worker's token is taken back.
fn e11<I: Copy>(
    found: Found,
    worker: &mut Worker<I>,
    cell: &mut Cell<I>,
) -> Result<Answer<I>, Refusal>
    ensures { RowDone prq_rows found E11 worker.old cell.old result worker.new cell.new }
{
    if Value::Token(found.number).is_still(cell.value) {
        swap_value(cell, Value::Empty);
    }
    go_on(worker, Phase::Engine(EngineRow::E9))
}

// The row after D4, by the value that was read.
fn by_value<I: Copy>(value: Value<I>, exact: bool) -> KindRow
    ensures { result ≡ by_value value exact }
{
    match value {
        Value::Empty => KindRow::D7,
        Value::Token(_) => KindRow::D6,
        Value::Item(_) if exact => KindRow::D5,
        Value::Item(_) => KindRow::D8,
    }
}

// D4: the pair is read again, and the way on decided.
fn d4<I: Copy>(found: Found, worker: &mut Worker<I>, cell: &Cell<I>) -> Result<Answer<I>, Refusal>
    ensures { RowDone prq_rows found D4 worker.old cell.now result worker.new cell.now }
{
    let again = cell.pair;
    if !worker.pair.is_still(again) {
        return go_on(worker, Phase::Kind(KindRow::D2));
    }
    if found.round < again.epoch {
        return pass_over(worker);
    }
    let next = by_value(worker.value, again.epoch == found.round);
    go_on(worker, Phase::Kind(next))
}

// D6: the token that was read is removed where it still stands.
fn d6<I: Copy>(
    found: Found,
    worker: &mut Worker<I>,
    cell: &mut Cell<I>,
) -> Result<Answer<I>, Refusal>
    ensures { RowDone prq_rows found D6 worker.old cell.old result worker.new cell.new }
{
    if !worker.value.is_token() || !worker.value.is_still(cell.value) {
        return go_on(worker, Phase::Kind(KindRow::D2));
    }
    swap_value(cell, Value::Empty);
    go_on(worker, Phase::Kind(KindRow::D7))
}

// D7: the epoch is raised to the ticket's round where the pair is still as read.
fn d7<I: Copy>(
    found: Found,
    worker: &mut Worker<I>,
    cell: &mut Cell<I>,
) -> Result<Answer<I>, Refusal>
    ensures { RowDone prq_rows found D7 worker.old cell.old result worker.new cell.new }
{
    if !worker.pair.is_still(cell.pair) {
        return go_on(worker, Phase::Kind(KindRow::D2));
    }
    let pair = Pair {
        epoch: found.round,
        ..cell.pair
    };
    swap_pair(cell, pair);
    pass_over(worker)
}

// D8: Safe is cleared where the pair is still as read.
fn d8<I: Copy>(
    found: Found,
    worker: &mut Worker<I>,
    cell: &mut Cell<I>,
) -> Result<Answer<I>, Refusal>
    ensures { RowDone prq_rows found D8 worker.old cell.old result worker.new cell.new }
{
    if !worker.pair.is_still(cell.pair) {
        return go_on(worker, Phase::Kind(KindRow::D2));
    }
    let pair = Pair {
        safe: false,
        ..cell.pair
    };
    swap_pair(cell, pair);
    pass_over(worker)
}

// The row that is due. A match: the machine of a worker goes by its own phase and what the cell shows.
pub(crate) fn take_turn<I: Copy>(
    due: Due,
    worker: &mut Worker<I>,
    cell: &mut Cell<I>,
) -> Result<Answer<I>, Refusal>
    ensures { RowDone prq_rows due.found due.row worker.old cell.old result worker.new cell.new }
{
    match due.row {
        KindRow::E3 => read_pair(worker, cell, Phase::Kind(KindRow::E4)),
        KindRow::E4 => e4(due.found, worker, cell),
        KindRow::E5 => read_head(worker, due.found.head),
        KindRow::E6 => e6(due.found, worker, cell),
        KindRow::E7 => e7(due.found, worker, cell),
        KindRow::E8 => e8(due.found, worker, cell),
        KindRow::E11 => e11(due.found, worker, cell),
        KindRow::D2 => read_pair(worker, cell, Phase::Kind(KindRow::D3)),
        KindRow::D3 => read_value(worker, cell, Phase::Kind(KindRow::D4)),
        KindRow::D4 => d4(due.found, worker, cell),
        KindRow::D5 => take(worker, cell),
        KindRow::D6 => d6(due.found, worker, cell),
        KindRow::D7 => d7(due.found, worker, cell),
        KindRow::D8 => d8(due.found, worker, cell),
    }
}
