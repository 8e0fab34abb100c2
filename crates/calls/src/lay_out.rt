// Laying out.
ghost use Rattle.std.specs.Prelude.{◌≡◌};
ghost use Rattle.calls.specs.Laying.{counters_of, laying, Opens};

use ring::answers::*;
use ring::control::Control;
use ring::table::*;

// A ring has 1 to this many cells.
pub const MOST_CELLS: usize = 1024;

// A crew has 1 to this many workers.
pub const MOST_WORKERS: usize = 64;

// The tests, and then the memory and the control anew: the rows alone. The books are shown from them at one place, below; in
// one function their proof did not close at the return.
fn laid<I: Copy>(cells: &mut [Cell<I>], workers: &mut [Worker<I>]) -> Result<Control, Refusal>
    ensures { record { control = counters_of result; cells = cells.new; workers = workers.new } ≡ laying cells.old workers.old }
{
    if !(1..=MOST_CELLS).contains(&cells.len()) {
        return Err(Refusal::Ring);
    }
    if !(1..=MOST_WORKERS).contains(&workers.len()) {
        return Err(Refusal::Crew);
    }
    cells.fill(Cell::fresh());
    workers.fill(Worker::idle());
    Ok(Control {
        cells: cells.len() as u32,
        workers: workers.len() as u32,
        head: cells.len() as u64,
        tail: cells.len() as u64,
        closed: false,
    })
}

// Lays a table out over the whole of the caller's memory. It gives the control and no `Table`: a function can say of one
// lender what becomes of it, and not of two.
pub fn lay_out<I: Copy>(
    cells: &mut [Cell<I>],
    workers: &mut [Worker<I>],
) -> Result<Control, Refusal>
    ensures rows { record { control = counters_of result; cells = cells.new; workers = workers.new } ≡ laying cells.old workers.old }
    ensures books { Opens result cells.new workers.new }
{
    laid(cells, workers)
}
