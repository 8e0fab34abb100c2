// The lines behind the header, read up to the first fault.
ghost use Rattle.std.specs.Prelude.{◌≡◌, ℕ};
ghost use Rattle.play.specs.Letters.{letter_of};
ghost use Rattle.play.specs.Lines.{lines_of};
ghost use Rattle.play.specs.Play.{order_letter, order_lines, fault_part};

use crate::fault::*;
use crate::header::ItemChoice;
use crate::letter::*;
use crate::line::read_order;

pub(crate) const LF: u8 = b'\n';

// The letter of a line behind the header.
pub(crate) fn open_order(letter: char, line: usize) -> Result<OrderLetter, PlayFault>
    ensures { result ≡ order_letter line (letter_of letter) }
{
    let unknown = PlayFault::Line {
        line,
        fault: LineFault::Letter,
    };
    match Letter::of(letter).ok_or(unknown)? {
        Letter::Ring => Err(PlayFault::Header { line }),
        Letter::Order(found) => Ok(found),
    }
}

// The first fault in line order, if there is one; the body's first line is the play's second.
pub(crate) fn first_fault(items: ItemChoice, body: &[u8]) -> Option<PlayFault>
    ensures { result ≡ fault_part (order_lines items 2 (lines_of body.now)) }
{
    // the form that the project fixed: nested loops over lines and columns, left by a label with the fault as the value
    let mut at = 0;
    let mut line = 2;
    let fault = 'reading: loop {
        if at == body.len() {
            break None;
        }
        let letter = match open_order(char::from(body[at]), line) {
            Ok(found) => found,
            Err(fault) => break Some(fault),
        };
        let cut = PlayFault::Line {
            line,
            fault: LineFault::Cut,
        };
        let end = at + Letter::Order(letter).width();
        for column in at..end {
            if column == body.len() || body[column] == LF {
                break 'reading Some(cut);
            }
        }
        if end == body.len() || body[end] != LF {
            break Some(cut);
        }
        if let Err(fault) = read_order(items, letter, &body[at..end]) {
            break Some(PlayFault::Line { line, fault });
        }
        at = end + 1;
        line += 1;
    };
    fault
}
