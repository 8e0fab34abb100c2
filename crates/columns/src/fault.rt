// A field that is refused.
ghost use Rattle.std.specs.Prelude.{◌≡◌};
ghost use Rattle.columns.specs.Faults.{at_column};

use crate::read_refusal::ReadRefusal;

// The field's first column, counted from 1, and why it is refused.
#[derive(Clone, Copy, PartialEq, Eq, Debug)]
pub struct ColumnFault {
    pub column: usize,
    pub refusal: ReadRefusal,
}

// Adds the field's first column on the way up.
pub fn at_column<T>(column: usize, read: Result<T, ReadRefusal>) -> Result<T, ColumnFault>
    ensures { result ≡ at_column column read }
{
    read.map_err(|refusal| ColumnFault { column, refusal })
}
