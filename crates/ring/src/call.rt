// The calls on a table that is laid out.
use tickets::*;

// An enqueue of an item for a worker, a dequeue for a worker, or one step of a worker.
#[derive(Clone, Copy)]
pub enum Call<I> {
    AssignEnqueue(WorkerNo, I),
    AssignDequeue(WorkerNo),
    Step(WorkerNo),
}
