// One pass over a field's columns, for numbers of both signs.
ghost use Rattle.std.specs.Prelude.{◌≡◌};
ghost use Rattle.std.specs.Option.{option_map};
ghost use Rattle.columns.specs.Number.{number};
ghost use Rattle.columns.specs.declared.scanning.Seen.TheVariants.{Number};
ghost use Rattle.columns.specs.Scanning.{held, more, seen_after, seen_number, with_digit};

// The first number that 64 bits don't hold.
const LONG: i128 = 1 << 64;

// On which side of zero a number is. (Zero is positive.)
#[derive(Clone, Copy)]
enum Sign {
    Positive,
    Negative,
}

// Nothing stays nothing: the pass goes over all columns, with one way through.
// What the columns so far are: blanks, blanks and a minus, a number, a number past 64 bits, or nothing that can become one.
// (A sign and 64 bits: with a number of 128 bits the pass is too long to be laid out column by column, and an item takes
// up to twice the time.)
#[derive(Clone, Copy)]
enum Seen {
    Blanks,
    Minus,
    Number(Sign, u64),
    Long,
    Nothing,
}

// The number that the columns write, if they write one; one past 64 bits is held as the first such. A loop, and inlined: of the
// library's `fold` the compiler makes one function for fields of all widths, and a job takes twice the time.
#[inline(always)]
pub fn scanned(columns: &[u8]) -> Option<i128>
    ensures { result ≡ option_map held (number columns.now) }
{
    let mut seen = Seen::Blanks;
    for column in columns {
        seen = next_seen(seen, *column);
    }
    whole(seen)
}

// What one more column makes of what was seen.
fn next_seen(seen: Seen, column: u8) -> Seen
    ensures { result ≡ seen_after seen column }
{
    match (seen, column) {
        (Seen::Blanks, b' ') => Seen::Blanks,
        (Seen::Blanks, b'-') => Seen::Minus,
        (Seen::Blanks, b'0'..=b'9') => first_digit(Sign::Positive, column - b'0'),
        (Seen::Minus, b'1'..=b'9') => first_digit(Sign::Negative, column - b'0'),
        (Seen::Number(sign, n), b'0'..=b'9') => one_more_digit(sign, n, column - b'0'),
        (Seen::Long, b'0'..=b'9') => Seen::Long,
        _ => Seen::Nothing,
    }
}

fn first_digit(sign: Sign, digit: u8) -> Seen
    ensures { result ≡ Number sign digit }
{
    Seen::Number(sign, u64::from(digit))
}

// No digit follows a first zero.
fn one_more_digit(sign: Sign, so_far: u64, digit: u8) -> Seen
    ensures { result ≡ with_digit sign so_far digit }
{
    if so_far == 0 {
        return Seen::Nothing;
    }
    appended(so_far, digit).map_or(Seen::Long, |n| Seen::Number(sign, n))
}

// The number with a digit behind it, while 64 bits hold it.
fn appended(n: u64, digit: u8) -> Option<u64>
    ensures { result ≡ more n digit }
{
    n.checked_mul(10)?.checked_add(u64::from(digit))
}

fn whole(seen: Seen) -> Option<i128>
    ensures { result ≡ seen_number seen }
{
    match seen {
        Seen::Number(Sign::Positive, n) => Some(i128::from(n)),
        Seen::Number(Sign::Negative, n) => Some(-i128::from(n)),
        Seen::Long => Some(LONG),
        Seen::Blanks | Seen::Minus | Seen::Nothing => None,
    }
}
