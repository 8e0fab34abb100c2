// The columns of a line, read field by field from the left: a header, or an order.
ghost use Rattle.std.specs.Prelude.{◌≡◌, ◌-◌, ◌≤◌, length, take, drop, IfOk};
ghost use Rattle.columns.specs.Faults.{at_column};
ghost use Rattle.play.specs.Letters.{width_of};
ghost use Rattle.play.specs.declared.letter.Letter.TheVariants.{Order as order_letter};
ghost use Rattle.play.specs.Kinds.{KindRead};
ghost use Rattle.play.specs.Orders.{field_reading, header_reading, item_check, order_reading, heard};

use crate::fault::*;
use crate::header::*;
use crate::letter::*;
use crate::order::Order;
use columns::{ColumnFault, ColumnNumber, ReadRefusal, at_column, read_number};
use items::{ITEM_WIDTH, ItemKind, Job, Patch};
use tickets::WorkerNo;

// How many columns of an E line stand before its item.
const ITEM_START: usize = 5;

// The number in the columns `first` to `last`, counted from 1. Inlined, as `read_number` is.
#[inline(always)]
fn field<N: ColumnNumber>(
    line: &[u8],
    first: usize,
    last: usize,
    least: N,
    most: N,
) -> Result<N, ColumnFault>
    requires { (1 ≤ first) × ((first ≤ last) × (last ≤ length line.now)) }
    ensures value { result ≡ at_column first (N.reading least most (take (last - (first - 1)) (drop (first - 1) line.now))) }
    ensures bound { IfOk result (λ n. N.at_most least n × N.at_most n most) }
{
    let start = first - 1;
    at_column(first, read_number(&line[start..last], least, most))
}

// The kind whose number stands in the columns `first` to `last`.
fn kind<K: TryFrom<u16, Error = ReadRefusal>>(
    line: &[u8],
    first: usize,
    last: usize,
) -> Result<K, ColumnFault>
    requires { (1 ≤ first) × ((first ≤ last) × (last ≤ length line.now)) }
    ensures { KindRead K.try_from_gives first (field_reading first last 0 65535 line.now) result }
{
    let number = field(line, first, last, 0, u16::MAX)?;
    at_column(first, K::try_from(number))
}

// The header that the columns of an R line say.
pub(crate) fn read_header(line: &[u8]) -> Result<Header, LineFault>
    requires { length line.now ≡ 14 }
    ensures { result ≡ header_reading line.now }
{
    let ring = kind(line, 2, 3)?;
    let cells = field(line, 4, 8, 1, 1024)?;
    let workers = field(line, 9, 12, 1, 64)?;
    let items = kind(line, 13, 14)?;
    Ok(Header {
        ring,
        cells,
        workers,
        items,
    })
}

// The fifteen columns of an E line behind its worker.
fn item_columns(line: &[u8]) -> &[u8; ITEM_WIDTH]
    requires { length line.now ≡ 20 }
    ensures { result.now ≡ take 15 (drop 5 line.now) }
{
    line[ITEM_START..].first_chunk().unwrap()
}

// Whether the columns hold an item of the play's kind; a fault's column is the line's. A match: the kind is the header's, and
// known only as the play is read.
fn check_item(items: ItemChoice, columns: &[u8; ITEM_WIDTH]) -> Result<(), ColumnFault>
    ensures { result ≡ item_check items columns.now }
{
    let read = match items {
        ItemChoice::Patch => Patch::read(columns).map(|_| ()),
        ItemChoice::Job => Job::read(columns).map(|_| ()),
    };
    read.map_err(|fault| ColumnFault {
        column: fault.column + ITEM_START,
        refusal: fault.refusal,
    })
}

// The order that the columns of an E, D or S line say. A match: the letter decides the line.
pub(crate) fn read_order<'a>(
    items: ItemChoice,
    letter: OrderLetter,
    line: &'a [u8],
) -> Result<Order<'a>, LineFault>
    requires { length line.now ≡ width_of (order_letter letter) }
    ensures { heard result ≡ order_reading items letter line.now }
{
    let worker = WorkerNo(field(line, 2, 5, 1, 64)?);
    match letter {
        OrderLetter::Enqueue => {
            let columns = item_columns(line);
            check_item(items, columns)?;
            Ok(Order::Enqueue { worker, columns })
        }
        OrderLetter::Dequeue => Ok(Order::Dequeue { worker }),
        OrderLetter::Steps => {
            let count = field(line, 6, 9, 1, 9999)?;
            Ok(Order::Steps { worker, count })
        }
    }
}
