// Document 02, 2.13: an order list rerun on a snapshot of the core table, its first four records copied out.
// Not here: the table and the other calls on it (crate `snapshot`); the rerun itself (crate `rerun`).
#![tactic(auto)]

ghost use Rattle.std.specs.Prelude.{◌≡◌, []};
ghost use Rattle.snapshot.specs.Snapshot.{table_left, rerun_table};

use code::Profile;
use semaphore::Semaphore;
use snapshot::{After, Table, accepted, short_refusal, unchanged};

// The order list, rerun from the fresh state.
pub fn rerun_table(
    file: &[u8],
    trace: &[u8],
    list: &[u8],
    t: Table,
    semaphore: Semaphore,
    buffer: &mut [u8],
    shared: &mut [u8],
) -> After
    ensures { table_left result buffer.new shared.new []
        ≡ rerun_table file.now trace.now list.now t semaphore buffer.old shared.old }
{
    if t.count < memory::byte_at(file, 4) {
        return unchanged(t, semaphore, short_refusal(Profile::Full, file).number());
    }
    let reran = rerun::rerun(file, trace, list, buffer, shared);
    if reran.refusal != 0 {
        return unchanged(t, semaphore, reran.refusal);
    }
    accepted(t, reran.state)
}
