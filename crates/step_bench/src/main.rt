// Ten million steps by turns on a PRQ of 64 cells with 7 workers. Each worker enqueues and dequeues in turn.
// It prints the counts, which are compared; docs/PERFORMANCE.md has the times.
#![tactic(auto)]

use anyhow::Context;
use calls::lay_out::lay_out;
use calls::table::Table;
use prq::Prq;
use ring::answers::*;
use ring::table::{Cell, Worker};
use std::array;
use tickets::WorkerNo;

const STEPS: u32 = 10_000_000;

const WORKERS: usize = 7;

// How many items were placed and taken.
#[derive(Clone, Copy, Default)]
struct Tally {
    placed: u64,
    taken: u64,
}

impl Tally {
    // Counts what a step came to.
    fn note(&mut self, answer: Answer<u32>) {
        match answer {
            Answer::Placed(_, _) => self.placed = self.placed.wrapping_add(1),
            Answer::Taken(_, _) => self.taken = self.taken.wrapping_add(1),
            _ => {}
        }
    }
}

// What a worker is assigned.
#[derive(Clone, Copy)]
enum Operation {
    Enqueue,
    Dequeue,
}

// A worker, and the operation that it gets when it is idle.
#[derive(Clone, Copy)]
struct Member {
    number: WorkerNo,
    next: Operation,
}

impl Member {
    // Makes the first step of the next operation; the one after it is the other.
    fn start(
        &mut self,
        table: &mut Table<'_, u32, Prq>,
        item: u32,
    ) -> Result<Answer<u32>, Refusal> {
        match self.next {
            Operation::Enqueue => {
                table.assign_enqueue(self.number, item)?;
                self.next = Operation::Dequeue;
            }
            Operation::Dequeue => {
                table.assign_dequeue(self.number)?;
                self.next = Operation::Enqueue;
            }
        }
        table.step(self.number)
    }
}

// Makes all steps. A worker that is idle is refused, and makes the first step of its next operation.
fn run(table: &mut Table<'_, u32, Prq>) -> Result<Tally, Refusal> {
    let mut tally = Tally::default();
    let mut crew: [Member; WORKERS] = array::from_fn(|at| Member {
        number: WorkerNo(at as u16 + 1),
        next: Operation::Enqueue,
    });
    for turn in 0..STEPS {
        let member = &mut crew[turn as usize % WORKERS];
        let reply = table.step(member.number);
        tally.note(reply.or_else(|_| member.start(table, turn))?);
    }
    Ok(tally)
}

// A refusal has no text of its own, only a number, so that `context` says what was refused.
fn main(rt: HostRuntime) -> anyhow::Result<()> {
    let mut cells = [Cell::fresh(); 64];
    let mut workers = [Worker::idle(); WORKERS];
    let control = lay_out(&mut cells, &mut workers)
        .ok()
        .context("the table was not laid out")?;
    let mut table = Table {
        kind: &Prq,
        control,
        cells: &mut cells,
        workers: &mut workers,
    };
    let tally = run(&mut table).ok().context("a call was refused")?;
    let (head, tail) = (table.control.head, table.control.tail);
    let Tally { placed, taken } = tally;
    println!(rt; "Head {head}, Tail {tail}, placed {placed}, taken {taken}")?;
    Ok(())
}
