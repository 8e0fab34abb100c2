// The rows of the engine, performed on the control and one worker's record.
// For: the step of crate calls. Rows of the engine are the same for every ring kind, and touch no cell.
// Promises: `engine_turn` leaves control and record, and answers, as the row of the definitions says, on every record.
// Rests on: tickets, ring.
#![tactic(auto)]

pub mod fits;
pub mod rows;
