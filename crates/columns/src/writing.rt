// Writes a number into the columns of a field, from the right.
ghost use Rattle.std.specs.Prelude.{◌≡◌, ◌<◌, ◌≤◌, true, length};
ghost use Rattle.columns.specs.Number.{digits};
ghost use Rattle.columns.specs.Signs.{front};
ghost use Rattle.columns.specs.Writing.{written};

use crate::column_number::ColumnNumber;
use crate::write_refusal::WriteRefusal;

// Writes `n` right-justified into the first `width` bytes.
pub fn write_number<N: ColumnNumber>(
    buffer: &mut [u8],
    width: usize,
    n: N,
) -> Result<(), WriteRefusal>
    ensures { (result, buffer.new) ≡ written width (N.value n) buffer.old }
{
    if buffer.len() < width {
        return Err(WriteRefusal::Narrow);
    }
    let number = n.wide();
    let negative = number < 0;
    let size = number.unsigned_abs();
    let magnitude = size as u64;
    let digits = digit_count(magnitude);
    if width < digits + usize::from(negative) {
        return Err(WriteRefusal::Range);
    }
    let start = width - digits;
    write_front(&mut buffer[0..start], negative);
    write_digits(&mut buffer[start..width], magnitude);
    Ok(())
}

// How many digits the number has.
pub(crate) fn digit_count(n: u64) -> usize
    ensures value { result ≡ length (digits n) }
    ensures bound { result ≤ 20 }
{
    n.checked_ilog10().map_or(1, |power| power as usize + 1)
}

// Blanks, and the minus of a negative number at their end; a flag, with no value beside it.
fn write_front(columns: &mut [u8], negative: bool)
    requires { negative ≡ true → 0 < length columns.old }
    ensures { columns.new ≡ front (length columns.old) negative }
{
    columns.fill(b' ');
    if negative && let Some(last) = columns.last_mut() {
        *last = b'-';
    }
}

// The digits of a number, which are as many as the columns.
fn write_digits(columns: &mut [u8], n: u64)
    requires { length columns.old ≡ length (digits n) }
    ensures { columns.new ≡ digits n }
{
    if let Some((last, front)) = columns.split_last_mut() {
        *last = b'0' + (n % 10) as u8;
        if n >= 10 {
            write_digits(front, n / 10);
        }
    }
}
