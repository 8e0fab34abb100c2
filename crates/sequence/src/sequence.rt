// A whole list of calls.
ghost use Rattle.std.specs.Prelude.{◌≡◌, length};
ghost use Rattle.ring.specs.Calls.{after};
ghost use Rattle.calls.specs.Lent.{table_of, SameMemory};
ghost use Rattle.sequence.specs.Sequence.{made, answers_after, Made, BooksOf};

use crate::make::make_call;
use calls::lay_out::lay_out;
use calls::table::Table;
use ring::answers::*;
use ring::call::Call;
use ring::control::Control;
use ring::kind::RingKind;
use ring::table::*;

// Makes the calls one after another, as far as there is room for their answers.
fn call_each<I: Copy, K: RingKind<I>>(
    table: &mut Table<'_, I, K>,
    calls: &[Call<I>],
    answers: &mut [Result<Answer<I>, Refusal>],
)
    ensures memory { SameMemory table.old table.new }
    ensures table { table_of table.new ≡ after K.RingKind.step (table_of table.old) (made calls.now answers.old) }
    ensures answers { answers.new ≡ answers_after K.RingKind.step (table_of table.old) calls.now answers.old }
{
    let count = calls.len().min(answers.len());
    // `zip` with `answers.iter_mut()` would leave nothing known of the answers
    for (i, call) in calls[..count].iter().enumerate() {
        answers[i] = make_call(table, *call);
    }
}

// Lays a table out and makes the calls one after another, each answer at its call's index.
// Calls for whose answers there is no room are not made. Both are the caller's memory, so that none is allocated.
pub fn make_calls<I: Copy, K: RingKind<I>>(
    kind: &K,
    cells: &mut [Cell<I>],
    workers: &mut [Worker<I>],
    calls: &[Call<I>],
    answers: &mut [Result<Answer<I>, Refusal>],
) -> Result<Control, Refusal>
    ensures rows { Made K.RingKind.step cells.old workers.old calls.now answers.old result cells.new workers.new answers.new }
    ensures books { BooksOf K.RingKind.step (length cells.old) (length workers.old) (made calls.now answers.old) result cells.new workers.new }
{
    let control = lay_out(cells, workers)?;
    let mut table = Table {
        kind,
        control,
        cells,
        workers,
    };
    call_each(&mut table, calls, answers);
    Ok(table.control)
}
