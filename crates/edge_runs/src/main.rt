// Makes the worked runs by the calls on a table and prints what they tell: run, answer, ticket and step.
// The same runs are proved as one table in crate runs; here the code makes them, and the output is compared.
#![tactic(auto)]

ghost use Rattle.std.specs.Prelude.{ℕ, ◌<◌};

use calls::lay_out::lay_out;
use calls::table::Table;
use crq::Crq;
use prq::Prq;
use ring::answers::*;
use ring::kind::RingKind;
use ring::table::{Cell, Worker};
use std::io;
use tickets::WorkerNo;

// A worker is assigned an operation, an enqueue if it has an item, and stepped alone.
#[derive(Clone, Copy)]
struct Spell {
    worker: WorkerNo,
    item: Option<u8>,
    steps: u8,
}

fn enqueues(worker: u16, item: u8, steps: u8) -> Spell {
    Spell {
        worker: WorkerNo(worker),
        item: Some(item),
        steps,
    }
}

fn dequeues(worker: u16, steps: u8) -> Spell {
    Spell {
        worker: WorkerNo(worker),
        item: None,
        steps,
    }
}

impl Spell {
    // Assigns the operation. A refusal shows in the steps.
    fn begin<K: RingKind<u8>>(self, table: &mut Table<'_, u8, K>) {
        let _ = match self.item {
            Some(item) => table.assign_enqueue(self.worker, item),
            None => table.assign_dequeue(self.worker),
        };
    }
}

// A run with its number: what comes before, the spell whose steps are told, and whether an epoch is told after it (a line of
// the output, and nothing that a case of an enum would carry).
#[derive(Clone, Copy)]
struct Run<'a> {
    number: u8,
    before: &'a [Spell],
    last: Spell,
    tells_epoch: bool,
}

impl<'a> Run<'a> {
    fn new(number: u8, before: &'a [Spell], last: Spell) -> Run<'a> {
        Run {
            number,
            before,
            last,
            tells_epoch: false,
        }
    }

    // A run of one spell, after which the epoch of cell 0 is told.
    fn to_epoch(number: u8, last: Spell) -> Run<'a> {
        Run {
            number,
            before: &[],
            last,
            tells_epoch: true,
        }
    }
}

// Prints what a step of a run came to, unless it is still working.
fn tell(rt: &HostRuntime, run: u8, reply: Result<Answer<u8>, Refusal>, step: u8) -> io::Result<()> {
    if let Ok(Answer::Working) = reply {
        return Ok(());
    }
    let number = reply_number(reply);
    let ticket = reply.ok().and_then(|answer| answer.ticket());
    let ticket = ticket.map_or(0, |ticket| ticket.0);
    println!(rt; "{run:>3} {number:>6} {ticket:>6} {step:>4}")
}

// Makes what comes before, and prints what the last spell tells.
fn make<K: RingKind<u8>>(
    rt: &HostRuntime,
    table: &mut Table<'_, u8, K>,
    run: &Run,
) -> io::Result<()> {
    for spell in run.before {
        spell.begin(table);
        for _ in 0..spell.steps {
            let _ = table.step(spell.worker);
        }
    }
    run.last.begin(table);
    for step in 1..=run.last.steps {
        tell(rt, run.number, table.step(run.last.worker), step)?;
    }
    match table.cells.first() {
        Some(cell) if run.tells_epoch => {
            println!(rt; "    cell 0 has epoch {}", cell.pair.epoch.0)
        }
        _ => Ok(()),
    }
}

// Lays the memory out anew for each run, over whatever the run before left in it, and makes the run.
fn make_all<K: RingKind<u8>>(
    rt: &HostRuntime,
    kind: &K,
    cells: &mut [Cell<u8>],
    workers: &mut [Worker<u8>],
    runs: &[Run],
) -> io::Result<()> {
    for run in runs {
        match lay_out(cells, workers) {
            Err(refusal) => println!(rt; "{:>3} {:>6}", run.number, refusal.number())?,
            Ok(control) => {
                let mut table = Table {
                    kind,
                    control,
                    cells: &mut *cells,
                    workers: &mut *workers,
                };
                make(rt, &mut table, run)?;
            }
        }
    }
    Ok(())
}

// Lays out as many cells with two workers, and prints the count or the refusal.
fn lay_many<const CELLS: usize>(rt: &HostRuntime) -> io::Result<()>
    requires { CELLS < 2000 }
{
    let mut cells: [Cell<u8>; CELLS] = [Cell::fresh(); CELLS];
    let mut workers = [Worker::idle(); 2];
    match lay_out(&mut cells, &mut workers) {
        Ok(control) => println!(rt; "{} cells are laid out", control.cells),
        Err(refusal) => println!(rt; "{CELLS} cells give {}", refusal.number()),
    }
}

// Runs on a ring of one cell, till it is full and closed.
fn till_closed(
    rt: &HostRuntime,
    cells: &mut [Cell<u8>],
    workers: &mut [Worker<u8>],
) -> io::Result<()> {
    let placed = enqueues(1, 7, 7);
    let full = enqueues(1, 8, 6);
    make_all(
        rt,
        &Prq,
        cells,
        workers,
        &[
            Run::new(1, &[], placed),
            Run::new(2, &[placed], full),
            Run::new(3, &[placed, full], enqueues(1, 9, 2)),
        ],
    )
}

// Runs on a ring of two cells, which each kind passes over.
fn passed_over(
    rt: &HostRuntime,
    cells: &mut [Cell<u8>],
    workers: &mut [Worker<u8>],
) -> io::Result<()> {
    let passed = dequeues(1, 6);
    make_all(
        rt,
        &Prq,
        cells,
        workers,
        &[
            Run::to_epoch(4, passed),
            Run::new(5, &[passed], enqueues(1, 7, 12)),
        ],
    )?;
    let other = Run::to_epoch(6, dequeues(1, 5));
    make_all(rt, &Crq, cells, workers, &[other])?;
    let stopped = [enqueues(1, 7, 6)];
    let late = Run::new(7, &stopped, dequeues(2, 7));
    make_all(rt, &Prq, cells, workers, &[late])
}

// The runs in the order of their numbers, on one cell or on two, with the same two workers.
fn worked_runs(rt: &HostRuntime) -> io::Result<()> {
    let mut one = [Cell::fresh(); 1];
    let mut two = [Cell::fresh(); 2];
    let mut crew = [Worker::idle(); 2];
    till_closed(rt, &mut one, &mut crew)?;
    passed_over(rt, &mut two, &mut crew)?;
    let before = [enqueues(1, 7, 7), dequeues(1, 1)];
    let resting = Run::new(8, &before, dequeues(2, 6));
    make_all(rt, &Prq, &mut one, &mut crew, &[resting])
}

fn main(rt: HostRuntime) -> io::Result<()> {
    println!(rt; "run answer ticket step")?;
    worked_runs(&rt)?;
    lay_many::<1024>(&rt)?;
    lay_many::<1025>(&rt)
}
