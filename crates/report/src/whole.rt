// Plays a whole play on a table, from laying out to the last line.
ghost use Rattle.std.specs.Prelude.{◌≡◌, ℕ, ◌≤◌, List, length};
ghost use Rattle.ring.specs.Table.{InRange};
ghost use Rattle.play.specs.Orders.{PlainOrder};
ghost use Rattle.play.specs.Text.{OrdersFit, orders_text};
ghost use Rattle.report.specs.Player.{LastPrinted};
ghost use Rattle.calls.specs.Lent.{table_of};
ghost use Rattle.report.specs.Whole.{Reported, table_fields, whole_run};

use crate::error::*;
use crate::player::Player;
use calls::lay_out::lay_out;
use calls::occupied::count_occupied;
use calls::table::Table;
use items::ItemKind;
use lines::last_line::*;
use play::header::ItemChoice;
use ring::kind::RingKind;
use ring::table::*;
use std::alloc::Global;

// Prints the last line: what the table has come to. A function of its own: see `report_fault`.
fn print_last<I: ItemKind, K>(out: &mut Vec<u8>, table: &Table<'_, I, K>) -> Result<(), ReportError>
    ensures { LastPrinted (table_fields (table_of table.now)) out.old.items out.new.items result }
{
    let mut line = [0u8; LAST_LINE];
    write_last(&mut line, &table.control, count_occupied(table.cells))?;
    out.extend_from_slice(&line)?;
    Ok(())
}

// Lays the table out, plays the orders, and prints the last line. (How long the body is: as in `play_body`.)
pub(crate) fn play_table<I: ItemKind, K: RingKind<I>>(
    heap: Global,
    kind: &K,
    cells: &mut [Cell<I>],
    workers: &mut [Worker<I>],
    items: ItemChoice,
    body: &[u8],
) -> Result<Vec<u8>, ReportError>
    requires range { InRange (length cells.old) (length workers.old) }
    requires short { length body.now ≤ 60000 }
    ensures text { (os : List PlainOrder) → body.now ≡ orders_text os → OrdersFit items os → Reported result (whole_run I.ItemKind.text I.ItemKind.reading K.RingKind.step (length cells.old) (length workers.old) os) }
{
    let control = lay_out(cells, workers).unwrap();
    let table = Table {
        kind,
        control,
        cells,
        workers,
    };
    let mut player = Player {
        table,
        calls: 0,
        out: Vec::new(heap),
    };
    player.play_body(items, body)?;
    let Player { table, mut out, .. } = player;
    print_last(&mut out, &table)?;
    Ok(out)
}
