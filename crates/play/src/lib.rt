// Plays: the lines of a play, its header and its orders, and the first fault of a play that has one.
// For: whoever plays, or wants to know what is wrong with a play.
// Promises: for every byte string, its first fault in line order or its header and orders; and bytes without fault are
// exactly the text of what they say.
// Rests on: tickets, columns, items.
#![tactic(auto)]

mod body;
pub mod fault;
pub mod fault_line;
pub mod header;
pub mod letter;
mod line;
pub mod next;
pub mod order;
pub mod play;
