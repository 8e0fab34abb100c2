// Calls on memory with any contents: each prints the number of its answer or refusal.
// Records and cells that no run leads to get exact answers too; the output is compared.
#![tactic(auto)]

ghost use Rattle.std.specs.Prelude.{ℕ, ◌<◌, ◌≤◌};

use calls::assign::*;
use calls::lay_out::lay_out;
use calls::step::step;
use calls::table::Table;
use crq::Crq;
use prq::Prq;
use ring::answers::*;
use ring::control::*;
use ring::kind::RingKind;
use ring::table::EngineRow::*;
use ring::table::KindRow::*;
use ring::table::*;
use std::io;
use tickets::*;

// One step of a worker on a ring of one cell with the largest epoch and the token of nobody.
fn stepped<K: RingKind<u32>>(kind: &K, control: Control, worker: Worker<u32>) -> u8 {
    let mut cells = [Cell {
        pair: Pair {
            safe: false,
            epoch: Epoch(u64::MAX),
        },
        value: Value::Token(WorkerNo(u16::MAX)),
    }];
    let mut table = Table {
        kind,
        control,
        cells: &mut cells,
        workers: &mut [worker],
    };
    reply_number(table.step(WorkerNo(1)))
}

// A name, and the phase, the item and the ticket of a worker in the middle of an operation.
type Case<'a> = (&'a str, Phase, Option<u32>, u64);

// What both kinds answer in each case, to a record with the largest numbers that fit.
fn each(rt: &HostRuntime, control: Control, cases: &[Case]) -> io::Result<()> {
    for &(name, phase, item, ticket) in cases {
        let worker = Worker {
            phase,
            ticket: Ticket(ticket),
            item,
            pair: Pair {
                safe: true,
                epoch: Epoch(u64::MAX),
            },
            value: Value::Token(WorkerNo(u16::MAX)),
        };
        let crq = stepped(&Crq, control, worker);
        let prq = stepped(&Prq, control, worker);
        println!(rt; "{name}: CRQ {crq}, PRQ {prq}")?;
    }
    Ok(())
}

// The greatest ticket.
const LAST: u64 = COUNTER_LIMIT - 1;

// Rows of the engine.
fn engine_rows(rt: &HostRuntime, control: Control) -> io::Result<()> {
    let cases = [
        ("idle", Phase::Idle, None, u64::MAX),
        ("E1, ticket too large", Phase::Engine(E1), Some(1), u64::MAX),
        ("E1, largest ticket", Phase::Engine(E1), Some(1), LAST),
        ("E1, no item", Phase::Engine(E1), None, 0),
        ("E9, largest ticket", Phase::Engine(E9), Some(1), LAST),
        ("D9, ticket too large", Phase::Engine(D9), None, LAST + 1),
        ("D9, largest ticket", Phase::Engine(D9), None, LAST),
        ("D1, an item in a dequeue", Phase::Engine(D1), Some(1), 0),
    ];
    each(rt, control, &cases)
}

// Rows of a ring kind, some of which only PRQ has.
fn kind_rows(rt: &HostRuntime, control: Control) -> io::Result<()> {
    let cases = [
        ("E4", Phase::Kind(E4), Some(1), LAST),
        ("E6", Phase::Kind(E6), Some(1), LAST),
        ("E7", Phase::Kind(E7), Some(1), LAST),
        ("E8", Phase::Kind(E8), Some(1), LAST),
        ("E11", Phase::Kind(E11), Some(1), LAST),
        ("D3", Phase::Kind(D3), None, LAST),
        ("D4", Phase::Kind(D4), None, LAST),
        ("D5, no item read", Phase::Kind(D5), None, LAST),
        ("D6", Phase::Kind(D6), None, LAST),
        ("D7", Phase::Kind(D7), None, LAST),
        ("D8, ticket too large", Phase::Kind(D8), None, LAST + 1),
    ];
    each(rt, control, &cases)
}

// Counts and numbers that do not fit the table: by the functions over its parts, and then by a table of them.
fn misfits(rt: &HostRuntime, control: Control) -> io::Result<()> {
    let mut control = control;
    let mut two = [Cell::<u32>::fresh(); 2];
    let mut one = [Cell::<u32>::fresh(); 1];
    let mut workers = [Worker::<u32>::idle(); 1];
    let counts = step(&Prq, &mut control, &mut two, &mut workers, WorkerNo(1));
    let nobody = step(&Prq, &mut control, &mut one, &mut workers, WorkerNo(0));
    let above = assign_dequeue::<u32, Prq>(&control, &one, &mut workers, WorkerNo(2));
    let first = assign_enqueue::<u32, Prq>(&control, &one, &mut workers, WorkerNo(1), 7);
    let mut table = Table {
        kind: &Prq,
        control,
        cells: &mut one,
        workers: &mut workers,
    };
    let busy = table.assign_dequeue(WorkerNo(1));
    println!(rt;
        "counts {}, worker 0 {}, worker 2 of 1 {}, assigned {}, busy {}",
        reply_number(counts),
        reply_number(nobody),
        reply_number(above),
        reply_number(first),
        reply_number(busy)
    )
}

// A control with both counters at this number.
fn counting(counter: u64, closed: bool) -> Control
    requires { (1 ≤ counter) × (counter ≤ 1000000000000) }
{
    Control {
        cells: 1,
        workers: 1,
        head: counter,
        tail: counter,
        closed,
    }
}

// A counter at its limit, and one below it.
fn spent(rt: &HostRuntime) -> io::Result<()> {
    let at_limit = [
        ("E1 at the limit", Phase::Engine(E1), Some(1), 0),
        ("D1 at the limit", Phase::Engine(D1), None, 0),
    ];
    each(rt, counting(COUNTER_LIMIT, false), &at_limit)?;
    let below = [
        ("E1 below the limit", Phase::Engine(E1), Some(1), 0),
        ("E2, closed", Phase::Engine(E2), Some(1), 5),
    ];
    each(rt, counting(LAST, true), &below)
}

// What laying out over as many cells and records comes to.
fn lay<const CELLS: usize, const RECORDS: usize>(rt: &HostRuntime) -> io::Result<()>
    requires { (CELLS < 2000) × (RECORDS < 2000) }
{
    let mut cells = [Cell::<u32>::fresh(); CELLS];
    let mut workers = [Worker::<u32>::idle(); RECORDS];
    match lay_out(&mut cells, &mut workers) {
        Ok(control) => {
            println!(rt;
                "{CELLS} cells, {RECORDS} records: laid out, Head {}",
                control.head
            )
        }
        Err(refusal) => println!(rt; "{CELLS} cells, {RECORDS} records: {}", refusal.number()),
    }
}

fn main(rt: HostRuntime) -> anyhow::Result<()> {
    let control = counting(1, false);
    engine_rows(&rt, control)?;
    kind_rows(&rt, control)?;
    misfits(&rt, control)?;
    spent(&rt)?;
    lay::<1025, 65>(&rt)?;
    lay::<1024, 65>(&rt)?;
    lay::<1024, 64>(&rt)?;
    Ok(())
}
