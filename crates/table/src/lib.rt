// The core table: which core moves next.
#![tactic(auto)]

ghost use Rattle.std.specs.Prelude.{◌≡◌, ◌<◌};
ghost use Rattle.records.specs.File.{cores};
ghost use Rattle.states.specs.Set.{AcceptedSet};
ghost use Rattle.states.specs.Tasks.{tasks_of};
ghost use Rattle.semaphore.specs.Line.{semaphore_of};
ghost use Rattle.table.specs.Table.{served_or_joins, can_move, next_moving};

use protocol::Registers;
use semaphore::Semaphore;
use states::{CoreTask, Held};

// A step of core k that would have the semaphore changes something: it is its turn, or it is not in line yet.
fn goes_on(m: Semaphore, k: u8) -> bool
    ensures { result ≡ served_or_joins (semaphore_of m) k }
{
    if semaphore::turn(m, k) {
        return true;
    }
    !semaphore::in_line(m, 0, k)
}

// A step of core k, with these registers and so many input records, would change something.
pub fn can_move(count: usize, m: Semaphore, k: u8, r: Registers) -> bool
    ensures { result ≡ can_move (semaphore_of m) k count r }
{
    if r.mode == protocol::BETWEEN {
        if count <= r.cycles as usize {
            return false;
        }
        return goes_on(m, k);
    }
    if r.mode == protocol::WAITING {
        return goes_on(m, k);
    }
    r.mode < protocol::STOPPED
}

// The first core after `given`, round the ring and `given` last, whose step would change something; none, where every core is stopped or out of records.
pub fn next_moving(
    file: &[u8],
    trace: &[u8],
    tasks: [CoreTask; 4],
    n: usize,
    s: Held,
    given: u8,
) -> Option<u8>
    requires { AcceptedSet file.now trace.now × (tasks ≡ tasks_of file.now trace.now) × (n ≡ cores file.now) × (given < n) }
    ensures { result ≡ next_moving file.now trace.now s given }
{
    let m = s.semaphore;
    for i in 1..=n {
        let k = (given as usize + i) % n;
        if can_move(tasks[k].count, m, k as u8, s.cores[k]) {
            return Some(k as u8);
        }
    }
    None
}
