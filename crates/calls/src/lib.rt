// The calls on a table: laying out, the two assignments and the step.
// For: callers that keep cells and worker records in memory of their own and take workers through a ring.
// Promises: each call leaves the table, and answers or refuses, as the definitions say, on every memory; and the books of
// the run that it continues close, whole.
// Rests on: tickets, ring, engine; the step also on the ring kind that it is given.
#![tactic(auto)]

pub mod assign;
pub mod lay_out;
pub mod occupied;
pub mod step;
pub mod table;
