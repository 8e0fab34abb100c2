// A table over the caller's memory, and the tests that each call on it makes first.
ghost use Rattle.std.specs.Prelude.{◌≡◌, ℕ, ◌<◌, List, length, IfOk};
ghost use Rattle.ring.specs.declared.table.Cell.{Cell};
ghost use Rattle.calls.specs.Promise.{table};
ghost use Rattle.calls.specs.Lent.{Admits};

use ring::answers::Refusal;
use ring::control::Control;
use ring::table::*;
use tickets::WorkerNo;

// The ring kind, what the table counts, and the caller's cells and worker records, which are lent to it. The control counts
// both, beside their slices: whether they agree is a test of each call (13), and no invariant.
#[derive(Drop)]
pub struct Table<'m, I, K> {
    pub kind: &'m K,
    pub control: Control,
    pub cells: &'m mut [Cell<I>],
    pub workers: &'m mut [Worker<I>],
}

// The index of a worker's record, in a table with so many cells: the counts have to be the control's, and the worker one
// of its crew.
pub(crate) fn record_of<I: Copy>(
    control: &Control,
    cells: usize,
    workers: &[Worker<I>],
    number: WorkerNo,
) -> Result<usize, Refusal>
    ensures tests { (cs : List (Cell I)) → length cs ≡ cells → Admits (table control.now cs workers.now) number result }
    ensures inside { IfOk result (λ at. at < length workers.now) }
{
    if cells != control.cells as usize || workers.len() != control.workers as usize {
        return Err(Refusal::Misfit);
    }
    if number.0 == 0 || u32::from(number.0) > control.workers {
        return Err(Refusal::Nobody);
    }
    Ok(usize::from(number.0) - 1)
}
