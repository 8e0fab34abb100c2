// The report of a play, from its bytes: the line of its first fault, or what its orders come to.
// For: the program ringplay, and whoever has a play in memory.
// Promises: the text is exactly the report that the definitions give for the bytes, every line of it fits its columns, and
// the books of the run that it reports close, whole. Only memory can be wanting.
// Rests on: every library but runs; it is the top of the tree.
#![tactic(auto)]

pub mod error;
mod player;
pub mod report;
mod whole;

pub use lines::{call_line, last_line};
