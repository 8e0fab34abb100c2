// Reads a number from the columns of a field.
ghost use Rattle.std.specs.Prelude.{◌≡◌, IfOk, Result, Some};
ghost use Rattle.columns.specs.NumberTypes.{answer_of};
ghost use Rattle.columns.specs.Scanning.{signed_within};
ghost use Rattle.columns.specs.declared.read_refusal.ReadRefusal.{ReadRefusal};

use crate::column_number::ColumnNumber;
use crate::read_refusal::ReadRefusal;
use crate::scanning::scanned;

// The number from `least` to `most` that the columns write. Inlined, so that the pass is laid out column by column where a
// caller knows how many there are.
#[inline(always)]
pub fn read_number<N: ColumnNumber>(columns: &[u8], least: N, most: N) -> Result<N, ReadRefusal>
    ensures value { result ≡ N.reading least most columns.now }
    ensures relation { N.reads least most columns.now result }
    ensures only { (s : Result N ReadRefusal) → N.reads least most columns.now s → s ≡ result }
    ensures bound { IfOk result (λ n. N.at_most least n × N.at_most n most) }
{
    let found = scanned(columns).ok_or(ReadRefusal::Form)?;
    within(found, least, most)
}

// The number that was found, if it is in range.
fn within<N: ColumnNumber>(found: i128, least: N, most: N) -> Result<N, ReadRefusal>
    ensures value { answer_of N.value result ≡ signed_within (N.value least) (N.value most) (Some found) }
    ensures range { N.in_range (N.value least) × N.in_range (N.value most) }
{
    let (least, most) = (least.wide(), most.wide());
    if found < least || most < found {
        return Err(ReadRefusal::Range);
    }
    N::narrow(found).ok_or(ReadRefusal::Range)
}
