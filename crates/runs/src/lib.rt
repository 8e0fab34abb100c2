// The worked runs of both ring kinds as one table, and what becomes of PRQ with a slip.
// For: readers who want to see that the definitions do what the examples say, and that the laws are not idle.
// Promises: every worked run comes out as told; with each of four slips in PRQ's rows the books of some run do not close.
// Rests on: tickets, ring, turns, prq, crq.
#![tactic(auto)]

ghost use Rattle.std.specs.Prelude.{◌≡◌, length};
ghost use Rattle.runs.specs.Runs.{worked_runs, WorkedRunsStand};
ghost use Rattle.runs.specs.Slips.{slips, EachBreaks};

// Every worked run comes out as told: they are computed, step by step. There are this many.
#[tactic(auto, unfolding(crate::specs::Runs::WorkedRunsStand))]
pub fn worked_runs_stand<I: Copy>() -> u8
    ensures runs { WorkedRunsStand I }
    ensures count { (a b c : I) → result ≡ length (worked_runs a b c) }
{
    8
}

// With any of the slips of old players, the books of some run do not close: one that places this item, computed step by step.
// There are this many slips.
#[tactic(auto, using(crate::proofs::Slips::slips_break))]
pub fn slips_break_the_books<I: Copy>(item: I) -> u8
    ensures slips { EachBreaks {I = I} slips }
    ensures count { result ≡ length (slips {I = I}) }
{
    4
}
