// Numbers right-justified in columns: read and written.
// For: every line that is read or printed.
// Promises: a field is read as the number whose text its columns are, as 24 exactly where that is out of range, and as 23
// exactly where they are no number's text; a writer gives that text, or 18 and then 24 with the buffer as it was.
// Rests on: no other crate.
#![tactic(auto)]

mod column_number;
mod fault;
mod read_refusal;
mod reading;
mod row;
mod scanning;
mod write_refusal;
mod writing;

pub use column_number::ColumnNumber;
pub use fault::{ColumnFault, at_column};
pub use read_refusal::ReadRefusal;
pub use reading::read_number;
pub use row::{Field, write_line, write_row};
pub use write_refusal::WriteRefusal;
pub use writing::write_number;

#[cfg(test)]
mod tests;
