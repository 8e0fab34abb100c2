// The example of the README: one enqueue on memory of one's own, and its first step.
#![tactic(auto)]

use calls::lay_out::lay_out;
use calls::table::Table;
use prq::Prq;
use ring::answers::*;
use ring::table::{Cell, Worker};
use std::io;
use tickets::WorkerNo;

// Two cells, two workers; worker 1 enqueues 7 and makes one step.
fn first_step() -> Result<Answer<u8>, Refusal> {
    let mut cells = [Cell::fresh(); 2];
    let mut workers = [Worker::idle(); 2];
    let control = lay_out(&mut cells, &mut workers)?;
    let mut table = Table {
        kind: &Prq,
        control,
        cells: &mut cells,
        workers: &mut workers,
    };
    table.assign_enqueue(WorkerNo(1), 7)?;
    table.step(WorkerNo(1))
}

fn main(rt: HostRuntime) -> io::Result<()> {
    let number = reply_number(first_step());
    println!(rt; "a first step answers {number}")
}
