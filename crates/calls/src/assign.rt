// The two assignments: an idle worker gets an enqueue or a dequeue.
ghost use Rattle.std.specs.Prelude.{◌≡◌, List, length};
ghost use Rattle.ring.specs.declared.table.Cell.{Cell};
ghost use Rattle.ring.specs.declared.call.Call.TheVariants.{AssignEnqueue, AssignDequeue};
ghost use Rattle.ring.specs.Calls.{assigned as assigned_to, called};
ghost use Rattle.calls.specs.Promise.{table, left, Continues};
ghost use Rattle.calls.specs.Lent.{table_of, left_by, SameMemory};

use crate::table::{Table, record_of};
use ring::answers::*;
use ring::control::Control;
use ring::kind::RingKind;
use ring::table::*;
use tickets::WorkerNo;

// Writes the whole record of a worker that starts an operation, if it is idle, in a table with so many cells.
fn assigned<I: Copy>(
    control: &Control,
    cells: usize,
    workers: &mut [Worker<I>],
    number: WorkerNo,
    phase: Phase,
    item: Option<I>,
) -> Result<Answer<I>, Refusal>
    ensures { (cs : List (Cell I)) → length cs ≡ cells → left control.now cs workers.new result ≡ assigned_to (table control.now cs workers.old) number phase item }
{
    let at = record_of(control, cells, workers, number)?;
    if !matches!(workers[at].phase, Phase::Idle) {
        return Err(Refusal::Busy);
    }
    workers[at] = Worker {
        phase,
        item,
        ..Worker::idle()
    };
    Ok(Answer::Assigned)
}

// Where an enqueue starts, and a dequeue.
const FIRST_OF_ENQUEUE: Phase = Phase::Engine(EngineRow::E1);

const FIRST_OF_DEQUEUE: Phase = Phase::Engine(EngineRow::D1);

// Gives an idle worker an enqueue of an item. A function beside the method, for callers that only share control and cells:
// the check does not lend a table's `&mut` cells again as shared.
pub fn assign_enqueue<I: Copy, K: RingKind<I>>(
    control: &Control,
    cells: &[Cell<I>],
    workers: &mut [Worker<I>],
    number: WorkerNo,
    item: I,
) -> Result<Answer<I>, Refusal>
    ensures rows { left control.now cells.now workers.new result ≡ called K.RingKind.step (table control.now cells.now workers.old) (AssignEnqueue number item) }
    ensures books { Continues K.RingKind.step (table control.now cells.now workers.old) (AssignEnqueue number item) (table control.now cells.now workers.new) }
{
    assigned(
        control,
        cells.len(),
        workers,
        number,
        FIRST_OF_ENQUEUE,
        Some(item),
    )
}

// Gives an idle worker a dequeue, on control and cells that are shared.
pub fn assign_dequeue<I: Copy, K: RingKind<I>>(
    control: &Control,
    cells: &[Cell<I>],
    workers: &mut [Worker<I>],
    number: WorkerNo,
) -> Result<Answer<I>, Refusal>
    ensures rows { left control.now cells.now workers.new result ≡ called K.RingKind.step (table control.now cells.now workers.old) (AssignDequeue number) }
    ensures books { Continues K.RingKind.step (table control.now cells.now workers.old) (AssignDequeue number) (table control.now cells.now workers.new) }
{
    assigned(
        control,
        cells.len(),
        workers,
        number,
        FIRST_OF_DEQUEUE,
        None,
    )
}

impl<'m, I: Copy, K: RingKind<I>> Table<'m, I, K> {
    // Gives an idle worker an enqueue of an item.
    pub fn assign_enqueue(&mut self, number: WorkerNo, item: I) -> Result<Answer<I>, Refusal>
        ensures memory { SameMemory self.old self.new }
        ensures rows { left_by self.new result ≡ called K.RingKind.step (table_of self.old) (AssignEnqueue number item) }
        ensures books { Continues K.RingKind.step (table_of self.old) (AssignEnqueue number item) (table_of self.new) }
    {
        assigned(
            &self.control,
            self.cells.len(),
            self.workers,
            number,
            FIRST_OF_ENQUEUE,
            Some(item),
        )
    }

    // Gives an idle worker a dequeue.
    pub fn assign_dequeue(&mut self, number: WorkerNo) -> Result<Answer<I>, Refusal>
        ensures memory { SameMemory self.old self.new }
        ensures rows { left_by self.new result ≡ called K.RingKind.step (table_of self.old) (AssignDequeue number) }
        ensures books { Continues K.RingKind.step (table_of self.old) (AssignDequeue number) (table_of self.new) }
    {
        assigned(
            &self.control,
            self.cells.len(),
            self.workers,
            number,
            FIRST_OF_DEQUEUE,
            None,
        )
    }
}
