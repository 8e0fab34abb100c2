// The lines of a report: one for each call that has something to tell, and the last one.
// For: whatever prints what calls came to.
// Promises: a writer leaves the line of the definitions in the front of the buffer, or refuses with 18 and then 24 and
// leaves the buffer as it was; `prints` tells which calls have a line.
// Rests on: tickets, columns, items, ring.
#![tactic(auto)]

pub mod call_line;
pub mod last_line;
