// Any one call.
ghost use Rattle.std.specs.Prelude.{◌≡◌};
ghost use Rattle.ring.specs.Calls.{called};
ghost use Rattle.calls.specs.Promise.{Continues};
ghost use Rattle.calls.specs.Lent.{table_of, left_by, SameMemory};

use calls::table::Table;
use ring::answers::*;
use ring::call::Call;
use ring::kind::RingKind;

// Makes the call: an assignment or a step. A match: a call is data, which lists hold.
pub fn make_call<I: Copy, K: RingKind<I>>(
    table: &mut Table<'_, I, K>,
    call: Call<I>,
) -> Result<Answer<I>, Refusal>
    ensures memory { SameMemory table.old table.new }
    ensures rows { left_by table.new result ≡ called K.RingKind.step (table_of table.old) call }
    ensures books { Continues K.RingKind.step (table_of table.old) call (table_of table.new) }
{
    match call {
        Call::AssignEnqueue(number, item) => table.assign_enqueue(number, item),
        Call::AssignDequeue(number) => table.assign_dequeue(number),
        Call::Step(number) => table.step(number),
    }
}
