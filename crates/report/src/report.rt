// The report of a play, from its bytes.
ghost use Rattle.std.specs.Prelude.{◌≡◌, ℕ, ◌≤◌, List, length};
ghost use Rattle.play.specs.Orders.{PlainOrder};
ghost use Rattle.play.specs.Text.{HeaderFits, OrdersFit, orders_text};
ghost use Rattle.report.specs.Fits.{ReportFits, RunFits};
ghost use Rattle.report.specs.Report.{BooksOf, ChosenBooks, ChosenOrderBooks, OrderBooksOf, chosen_run, fault_report, report_of};
ghost use Rattle.report.specs.RunBooks.{RunBooks};
ghost use Rattle.report.specs.OrderBooks.{OrderBooks};
ghost use Rattle.report.specs.Whole.{Reported, whole_run};

use crate::error::*;
use crate::whole::play_table;
use crq::Crq;
use items::{ItemKind, Job, Patch};
use play::fault::PlayFault;
use play::fault_line::{FAULT_LINE, write_fault};
use play::header::*;
use play::play::read_play;
use prq::Prq;
use ring::kind::RingKind;
use ring::table::*;
use std::alloc::Global;

// The fault line of a play that has one. Three functions print a line of their own width and writer, behind what they are
// lent: one over a closure would have a contract longer than they are.
fn report_fault(heap: Global, fault: PlayFault) -> Result<Vec<u8>, ReportError>
    ensures { Reported result (fault_report fault) }
{
    let mut line = [0u8; FAULT_LINE];
    write_fault(&mut line, fault)?;
    let mut out = Vec::new(heap);
    out.extend_from_slice(&line)?;
    Ok(out)
}

// A play on a ring of one kind, with items of one kind. Header and body, and no `Play`: clauses would read it by its entry.
// (How long the body is: as in `play_body`.)
fn play_on<I: ItemKind, K: RingKind<I>>(
    heap: Global,
    kind: &K,
    header: Header,
    body: &[u8],
) -> Result<Vec<u8>, ReportError>
    requires range { HeaderFits header }
    requires short { length body.now ≤ 60000 }
    ensures text { (os : List PlainOrder) → body.now ≡ orders_text os → OrdersFit header.items os → Reported result (whole_run I.ItemKind.text I.ItemKind.reading K.RingKind.step header.cells header.workers os) }
    ensures fits { RunFits header.items (whole_run I.ItemKind.text I.ItemKind.reading K.RingKind.step header.cells header.workers) }
    ensures orders { (os : List PlainOrder) → OrderBooks I.ItemKind.text I.ItemKind.reading K.RingKind.step header.cells header.workers os }
    ensures books { (os : List PlainOrder) → RunBooks I.ItemKind.text I.ItemKind.reading K.RingKind.step header.cells header.workers os }
{
    let mut cells = vec![in heap; Cell::<I>::fresh(); header.cells as usize]?;
    let mut workers = vec![in heap; Worker::<I>::idle(); header.workers as usize]?;
    play_table(
        heap,
        kind,
        cells.as_mut_slice(),
        workers.as_mut_slice(),
        header.items,
        body,
    )
}

// A play on the ring and with the items that its header names. A match: a kind as a `dyn` value has no rows that a clause can name.
fn play_chosen(heap: Global, header: Header, body: &[u8]) -> Result<Vec<u8>, ReportError>
    requires range { HeaderFits header }
    requires short { length body.now ≤ 60000 }
    ensures text { (os : List PlainOrder) → body.now ≡ orders_text os → OrdersFit header.items os → Reported result (chosen_run header.ring header.items header.cells header.workers os) }
    ensures fits { RunFits header.items (chosen_run header.ring header.items header.cells header.workers) }
    ensures orders { (os : List PlainOrder) → ChosenOrderBooks header.ring header.items header.cells header.workers os }
    ensures books { (os : List PlainOrder) → ChosenBooks header.ring header.items header.cells header.workers os }
{
    match (header.ring, header.items) {
        (RingChoice::Crq, ItemChoice::Patch) => { play_on::<Patch, Crq>(heap, &Crq, header, body) }
        (RingChoice::Crq, ItemChoice::Job) => play_on::<Job, Crq>(heap, &Crq, header, body),
        (RingChoice::Prq, ItemChoice::Patch) => { play_on::<Patch, Prq>(heap, &Prq, header, body) }
        (RingChoice::Prq, ItemChoice::Job) => play_on::<Job, Prq>(heap, &Prq, header, body),
    }
}

// The report of a play: the line of its first fault, or what its orders come to.
pub fn report(heap: Global, bytes: &[u8]) -> Result<Vec<u8>, ReportError>
    ensures text { Reported result (report_of bytes.now) }
    ensures fits { ReportFits bytes.now }
    ensures orders { OrderBooksOf bytes.now }
    ensures books { BooksOf bytes.now }
{
    match read_play(bytes) {
        Ok(play) => play_chosen(heap, play.header, play.body),
        Err(fault) => report_fault(heap, fault),
    }
}
