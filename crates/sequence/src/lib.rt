// A whole list of calls, and any one of them.
// For: callers that have their calls as a list, and for the theorem as one sentence about one call.
// Promises: `make_calls` lays out, makes the calls that it has room for and leaves a table whose books close, with no
// hypothesis; `make_call` promises what the call that it makes promises.
// Rests on: tickets, ring, engine, calls.
#![tactic(auto)]

pub mod make;
pub mod sequence;
