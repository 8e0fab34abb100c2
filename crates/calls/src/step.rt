// The step: one row for one worker.
ghost use Rattle.std.specs.Prelude.{◌≡◌};
ghost use Rattle.ring.specs.declared.call.Call.TheVariants.{Step};
ghost use Rattle.ring.specs.Phases.{kind_side};
ghost use Rattle.ring.specs.Turns.{Performed};
ghost use Rattle.ring.specs.Calls.{fitting, stepped, called};
ghost use Rattle.calls.specs.Promise.{table, left, Continues};
ghost use Rattle.calls.specs.Lent.{table_of, left_by, SameMemory};

use crate::table::{Table, record_of};
use engine::fits::fits;
use engine::rows::engine_turn;
use ring::answers::*;
use ring::control::Control;
use ring::kind::RingKind;
use ring::table::*;
use tickets::WorkerNo;

// The row of a ring kind, after the tests of the worker's record.
fn kind_turn<I: Copy, K: RingKind<I>>(
    kind: &K,
    control: &Control,
    number: WorkerNo,
    row: KindRow,
    worker: &mut Worker<I>,
    cell: &mut Cell<I>,
) -> Result<Answer<I>, Refusal>
    ensures { Performed (fitting worker.old (kind_side row) (K.RingKind.step control.now.cells control.now.head number worker.old cell.old)) worker.old cell.old result worker.new cell.new }
{
    if !fits(worker, row.side()) {
        return Err(Refusal::Misfit);
    }
    kind.perform(control.cells, control.head, number, worker, cell)
}

impl<'m, I: Copy, K: RingKind<I>> Table<'m, I, K> {
    // Performs one row for one worker. Inlined, so that a caller's own sizes of memory serve in the division by R.
    #[inline(always)]
    pub fn step(&mut self, number: WorkerNo) -> Result<Answer<I>, Refusal>
        ensures memory { SameMemory self.old self.new }
        ensures rows { left_by self.new result ≡ called K.RingKind.step (table_of self.old) (Step number) }
        ensures books { Continues K.RingKind.step (table_of self.old) (Step number) (table_of self.new) }
    {
        self.perform(number)
    }

    // The row of the worker's phase: the engine's, or the ring kind's. The books are shown from it at one place, above.
    // A match: the machine of a worker goes by its own phase.
    #[inline(always)]
    fn perform(&mut self, number: WorkerNo) -> Result<Answer<I>, Refusal>
        ensures memory { SameMemory self.old self.new }
        ensures rows { left_by self.new result ≡ stepped K.RingKind.step (table_of self.old) number }
    {
        let cells = &mut *self.cells;
        let workers = &mut *self.workers;
        let at = record_of(&self.control, cells.len(), workers, number)?;
        match workers[at].phase {
            Phase::Idle => Err(Refusal::Idle),
            Phase::Engine(row) => {
                let mut control = self.control;
                let reply = engine_turn(&mut control, &mut workers[at], row);
                self.control = control;
                reply
            }
            Phase::Kind(row) => {
                let slot = workers[at].ticket.slot(self.control.cells);
                let (worker, cell) = (&mut workers[at], &mut cells[slot]);
                kind_turn(self.kind, &self.control, number, row, worker, cell)
            }
        }
    }
}

// Performs one row for one worker. A function beside the method, for callers whose control stands by itself, behind a `&mut`:
// it is read into a table, and written back. Inlined, as the method is.
#[inline(always)]
pub fn step<I: Copy, K: RingKind<I>>(
    kind: &K,
    control: &mut Control,
    cells: &mut [Cell<I>],
    workers: &mut [Worker<I>],
    number: WorkerNo,
) -> Result<Answer<I>, Refusal>
    ensures rows { left control.new cells.new workers.new result ≡ called K.RingKind.step (table control.old cells.old workers.old) (Step number) }
    ensures books { Continues K.RingKind.step (table control.old cells.old workers.old) (Step number) (table control.new cells.new workers.new) }
{
    let mut table = Table {
        kind,
        control: *control,
        cells,
        workers,
    };
    let reply = table.step(number);
    *control = table.control;
    reply
}
