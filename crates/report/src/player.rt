// Plays orders on a table, and prints what each call has to tell.
ghost use Rattle.std.specs.Prelude.{◌≡◌, ℕ, ◌+◌, ◌<◌, ◌≤◌, List, length, OnOk};
ghost use Rattle.ring.specs.Calls.{called};
ghost use Rattle.calls.specs.Lent.{table_of};
ghost use Rattle.report.specs.Player.{Body, Printed, Ran};
ghost use Rattle.report.specs.Playing.{playing};
ghost use Rattle.report.specs.Running.{all_ordered, caller, most_calls, ordered, performed, printed, stepping, stops};
ghost use Rattle.play.specs.Orders.{PlainOrder, plain};
ghost use Rattle.play.specs.Text.{OrdersFit, orders_text};

use crate::error::*;
use calls::table::Table;
use items::ItemKind;
use lines::call_line::*;
use play::header::ItemChoice;
use play::next::Orders;
use play::order::Order;
use ring::answers::*;
use ring::call::Call;
use ring::kind::RingKind;
use sequence::make::make_call;
use tickets::WorkerNo;

// A table that orders are played on, how many calls were made on it, and what they printed.
#[derive(Drop)]
pub(crate) struct Player<'m, I, K> {
    pub(crate) table: Table<'m, I, K>,
    pub(crate) calls: u64,
    pub(crate) out: Vec<u8>,
}

// Prints the line of a call, if it has one. An array of its width, and a function of its own: see `report_fault`.
fn print_call<I: ItemKind>(
    out: &mut Vec<u8>,
    call: u64,
    worker: WorkerNo,
    reply: Result<Answer<I>, Refusal>,
) -> Result<(), ReportError>
    ensures { Printed (printed I.ItemKind.text call worker reply) out.old.items out.new.items result }
{
    if !prints(reply) {
        return Ok(());
    }
    let mut line = [0u8; CALL_LINE];
    write_call(&mut line, call, worker, reply)?;
    out.extend_from_slice(&line)?;
    Ok(())
}

// A match: a call is data.
fn caller_of<I: Copy>(call: Call<I>) -> WorkerNo
    ensures { result ≡ caller call }
{
    match call {
        Call::AssignEnqueue(worker, _) | Call::AssignDequeue(worker) | Call::Step(worker) => worker,
    }
}

fn stops_at<I: Copy>(reply: Result<Answer<I>, Refusal>) -> bool
    ensures { result ≡ stops reply }
{
    reply.map_or(true, |answer| answer.ends())
}

impl<'m, I: ItemKind, K: RingKind<I>> Player<'m, I, K> {
    // Makes one call and prints its line; says whether an S order stops after it. There is room for its number, less of it
    // at each call, so that no field can promise it.
    fn perform(&mut self, call: Call<I>) -> Result<bool, ReportError>
        requires { self.old.calls < 1000000000 }
        ensures { Ran result (λ stop. (playing self.new ≡ performed I.ItemKind.text K.RingKind.step (playing self.old) call) × (stop ≡ stops (called K.RingKind.step (table_of self.old.table) call).answer)) (performed I.ItemKind.text K.RingKind.step (playing self.old) call) }
    {
        let reply = make_call(&mut self.table, call);
        self.calls += 1;
        print_call(&mut self.out, self.calls, caller_of(call), reply)?;
        Ok(stops_at(reply))
    }

    // Makes at most `count` steps of a worker. (Room for calls: as in `perform`.)
    fn step_on(&mut self, worker: WorkerNo, count: u16) -> Result<(), ReportError>
        requires { self.old.calls + count < 1000000000 }
        ensures ran { Ran result (λ _. playing self.new ≡ stepping I.ItemKind.text K.RingKind.step worker count (playing self.old)) (stepping I.ItemKind.text K.RingKind.step worker count (playing self.old)) }
        ensures few { OnOk result (self.new.calls ≤ self.old.calls + count) }
    {
        for _step in 0..count {
            if self.perform(Call::Step(worker))? {
                return Ok(());
            }
        }
        Ok(())
    }

    // Plays one order. A match: an order is data, read from a line. (Room for calls: as in `perform`.)
    fn play_order(&mut self, order: Order) -> Result<(), ReportError>
        requires { self.old.calls + most_calls (plain order) < 1000000000 }
        ensures ran { Ran result (λ _. playing self.new ≡ ordered I.ItemKind.text I.ItemKind.reading K.RingKind.step (plain order.entry) (playing self.old)) (ordered I.ItemKind.text I.ItemKind.reading K.RingKind.step (plain order.entry) (playing self.old)) }
        ensures few { OnOk result (self.new.calls ≤ self.old.calls + most_calls (plain order.entry)) }
    {
        match order {
            Order::Enqueue { worker, columns } => {
                if let Ok(item) = I::read(columns) {
                    self.perform(Call::AssignEnqueue(worker, item))?;
                }
                Ok(())
            }
            Order::Dequeue { worker } => {
                self.perform(Call::AssignDequeue(worker))?;
                Ok(())
            }
            Order::Steps { worker, count } => self.step_on(worker, count),
        }
    }

    // Plays the orders of a body, one after the other, as the player's first calls. `Play` has open fields, which a caller may
    // fill, so that it cannot promise how long its body is; a struct of report's own would be read by its entry in each clause.
    pub(crate) fn play_body(&mut self, items: ItemChoice, body: &[u8]) -> Result<(), ReportError>
        requires new { self.old.calls ≡ 0 }
        requires short { length body.now ≤ 60000 }
        ensures { (os : List PlainOrder) → body.now ≡ orders_text os → OrdersFit items os → Body result self.new.table.control self.new.table.cells.now self.new.table.workers.now self.new.out.items (all_ordered I.ItemKind.text I.ItemKind.reading K.RingKind.step os (playing self.old)) }
    {
        for order in (Orders { items, rest: body }) {
            self.play_order(order)?;
        }
        Ok(())
    }
}
