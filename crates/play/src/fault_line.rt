// The line that tells a fault.
ghost use Rattle.std.specs.Prelude.{◌≡◌};
ghost use Rattle.columns.specs.Row.{line_written};
ghost use Rattle.play.specs.FaultLine.{fault_mark, place_fields};
ghost use Rattle.play.specs.Faults.{place_of};

use crate::fault::PlayFault;
use columns::{Field, WriteRefusal, write_line};

// How many bytes a fault line has, with its LF.
pub const FAULT_LINE: usize = 15;

// Writes `?`, layer, number, line and column, and an LF.
pub fn write_fault(buffer: &mut [u8], fault: PlayFault) -> Result<(), WriteRefusal>
    ensures { (result, buffer.new) ≡ line_written fault_mark (place_fields (place_of fault)) buffer.old }
{
    let place = fault.place();
    let fields = [
        Field {
            width: 2,
            number: u64::from(place.layer),
        },
        Field {
            width: 3,
            number: u64::from(place.number),
        },
        Field {
            width: 5,
            number: place.line as u64,
        },
        Field {
            width: 3,
            number: place.column as u64,
        },
    ];
    write_line(buffer, b'?', &fields)
}
