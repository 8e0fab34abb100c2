// The last line of a report.
ghost use Rattle.std.specs.Prelude.{◌≡◌};
ghost use Rattle.columns.specs.Row.{line_written};
ghost use Rattle.lines.specs.LastLine.{last_fields, last_mark};

use columns::{Field, WriteRefusal, write_line};
use ring::control::Control;

// How many bytes the last line has, with its LF.
pub const LAST_LINE: usize = 35;

// Writes `=`, Head, Tail, Closed as 0 or 1, the number of occupied cells, and an LF.
pub fn write_last(buffer: &mut [u8], control: &Control, occupied: usize) -> Result<(), WriteRefusal>
    ensures { (result, buffer.new) ≡ line_written last_mark (last_fields control.now.head control.now.tail control.now.closed occupied) buffer.old }
{
    let fields = [
        Field {
            width: 13,
            number: control.head,
        },
        Field {
            width: 13,
            number: control.tail,
        },
        Field {
            width: 2,
            number: u64::from(control.closed),
        },
        Field {
            width: 5,
            number: occupied as u64,
        },
    ];
    write_line(buffer, b'=', &fields)
}
