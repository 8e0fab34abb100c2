// The table of a bounded ring, the trait of a ring kind with its seven laws, and the theorem on the books of its runs.
// For: the crates that perform rows (engine, turns, prq, crq), and those that make calls (calls, sequence).
// Promises: whatever keeps the laws, nothing is counted twice or left out, for every list of calls (`theorem`); and the
// numbers, comparisons and fresh records that rows use are those of the definitions.
// Rests on: tickets.
#![tactic(auto)]

pub mod answers;
pub mod call;
pub mod compare;
pub mod control;
pub mod kind;
pub mod table;
pub mod theorem;
