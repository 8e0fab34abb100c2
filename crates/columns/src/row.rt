// Writes several numbers into columns, one behind the other.
ghost use Rattle.std.specs.Prelude.{◌≡◌, true, length, nat_le, pos};
ghost use Rattle.columns.specs.Number.{text};
ghost use Rattle.columns.specs.Row.{RowEnd, line_written, row_fits, row_text, row_width, row_written};

use crate::write_refusal::WriteRefusal;
use crate::writing::{digit_count, write_number};

// A number, and how many columns it is written into.
#[derive(Clone, Copy, PartialEq, Eq, Debug)]
pub struct Field {
    pub width: usize,
    pub number: u64,
}

impl Field {
    // Whether the number has room in its columns.
    fn fits(&self) -> bool
        ensures { result ≡ nat_le (length (text (pos self.now.number))) self.now.width }
    {
        digit_count(self.number) <= self.width
    }
}

// Writes the numbers right-justified into their columns.
pub fn write_row(buffer: &mut [u8], fields: &[Field]) -> Result<(), WriteRefusal>
    ensures { (result, buffer.new) ≡ row_written fields.now buffer.old }
{
    let Some(end) = row_end(fields, buffer.len()) else {
        return Err(WriteRefusal::Narrow);
    };
    if !all_fit(fields) {
        return Err(WriteRefusal::Range);
    }
    fill_row(&mut buffer[0..end], fields);
    Ok(())
}

// Writes a line: a mark, the numbers in their columns, and an LF.
pub fn write_line(buffer: &mut [u8], mark: u8, fields: &[Field]) -> Result<(), WriteRefusal>
    ensures { (result, buffer.new) ≡ line_written mark fields.now buffer.old }
{
    let Some(width) = row_end(fields, buffer.len()) else {
        return Err(WriteRefusal::Narrow);
    };
    if buffer.len() - width < 2 {
        return Err(WriteRefusal::Narrow);
    }
    if !all_fit(fields) {
        return Err(WriteRefusal::Range);
    }
    buffer[0] = mark;
    fill_row(&mut buffer[1..width + 1], fields);
    buffer[width + 1] = b'\n';
    Ok(())
}

// Whether each number has room in its columns.
fn all_fit(fields: &[Field]) -> bool
    ensures { result ≡ row_fits fields.now }
{
    fields.iter().all(|field| field.fits())
}

// How many columns the numbers take, if there are so many.
fn row_end(fields: &[Field], room: usize) -> Option<usize>
    ensures { RowEnd (row_width fields.now) room result }
{
    // a loop with `?`: of `try_fold` the proof closes only by an induction of its own over the fields
    let mut left = room;
    for field in fields {
        left = left.checked_sub(field.width)?;
    }
    Some(room - left)
}

// Writes numbers that fit into columns that they fill.
fn fill_row(columns: &mut [u8], fields: &[Field])
    requires wide { length columns.old ≡ row_width fields.now }
    requires fits { row_fits fields.now ≡ true }
    ensures { columns.new ≡ row_text fields.now }
{
    // a cursor: of a rest that is split off in a loop nothing is known once the loop is over; and each number fits, so that no
    // write is refused, as the proof says
    let mut at = 0;
    for field in fields {
        let end = at + field.width;
        let _ = write_number(&mut columns[at..end], field.width, field.number);
        at = end;
    }
}
