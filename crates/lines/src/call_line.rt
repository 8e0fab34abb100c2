// The line that a call prints.
ghost use Rattle.std.specs.Prelude.{◌≡◌};
ghost use Rattle.std.specs.Option.{ok_or};
ghost use Rattle.columns.specs.declared.write_refusal.WriteRefusal.TheVariants.{Range};
ghost use Rattle.lines.specs.CallLine.{call_fields, call_line, call_written, is_printed, reply_item, reply_ticket, shown};

use columns::{Field, WriteRefusal, write_row};
use items::{ITEM_WIDTH, ItemKind};
use ring::answers::{Answer, Refusal, reply_number};
use tickets::WorkerNo;

// The item's columns: how many stand before them, those of the numbers, and where they end.
const ITEM_START: usize = 29;

const ITEM_END: usize = ITEM_START + ITEM_WIDTH;

// How many bytes a call line has, with its LF.
pub const CALL_LINE: usize = ITEM_END + 1;

fn ticket_of<I: Copy>(reply: Result<Answer<I>, Refusal>) -> u64
    ensures { result ≡ reply_ticket reply }
{
    reply
        .ok()
        .and_then(|answer| answer.ticket())
        .map_or(0, |ticket| ticket.0)
}

fn item_of<I: Copy>(reply: Result<Answer<I>, Refusal>) -> Option<I>
    ensures { result ≡ reply_item reply }
{
    reply.ok().and_then(|answer| answer.item())
}

// Whether the call prints a line: assigned and working do not.
pub fn prints<I: Copy>(reply: Result<Answer<I>, Refusal>) -> bool
    ensures { result ≡ is_printed reply }
{
    !matches!(reply, Ok(Answer::Assigned | Answer::Working))
}

// The item's columns, or blanks.
fn item_columns<I: ItemKind>(item: Option<I>) -> Result<[u8; ITEM_WIDTH], WriteRefusal>
    ensures { result ≡ ok_or (shown I.ItemKind.text item) Range }
{
    item.map_or(Ok([b' '; ITEM_WIDTH]), |carried| carried.columns())
}

// The numbers of a call line, each with its columns.
fn call_fields<I: Copy>(
    call: u64,
    worker: WorkerNo,
    reply: Result<Answer<I>, Refusal>,
) -> [Field; 4]
    ensures { result ≡ call_fields call worker reply }
{
    [
        Field {
            width: 9,
            number: call,
        },
        Field {
            width: 4,
            number: u64::from(worker.0),
        },
        Field {
            width: 3,
            number: u64::from(reply_number(reply)),
        },
        Field {
            width: 13,
            number: ticket_of(reply),
        },
    ]
}

// Writes the call's number, its worker, what it came to, and an LF.
pub fn write_call<I: ItemKind>(
    buffer: &mut [u8],
    call: u64,
    worker: WorkerNo,
    reply: Result<Answer<I>, Refusal>,
) -> Result<(), WriteRefusal>
    ensures { (result, buffer.new) ≡ call_written (call_line I.ItemKind.text call worker reply) buffer.old }
{
    if buffer.len() < CALL_LINE {
        return Err(WriteRefusal::Narrow);
    }
    let columns = item_columns(item_of(reply))?;
    let fields = call_fields(call, worker, reply);
    write_row(&mut buffer[0..ITEM_START], &fields)?;
    buffer[ITEM_START..ITEM_END].copy_from_slice(&columns);
    buffer[ITEM_END] = b'\n';
    Ok(())
}
