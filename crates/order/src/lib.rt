// The order of a run: which core a step is of, and how many of the steps from one on are of the same core, or of cores that wait.
// Not here: the steps themselves (crates `steps`, `core_runs` and `order_runs`).
#![tactic(auto)]

ghost use Rattle.std.specs.Prelude.{◌≡◌, true, false, ℕ, ◌+◌, ◌*◌, ◌<◌, ◌≤◌, length, get_or};
ghost use Rattle.records.specs.File.{cores};
ghost use Rattle.steps.specs.Bytes.{Ahead};
ghost use Rattle.semaphore.specs.Line.{Lined, semaphore_of};
ghost use Rattle.order.specs.Order.{steps_on, AllOn, Stretches, Waits};

use protocol::Registers;
use semaphore::Line;
use states::CoreTask;

// Core i of an order that was judged.
pub fn core_at(file: &[u8], order: &[u8], i: usize) -> usize
    requires { (i < length order.now) × (get_or order.now i 0 < cores file.now) × (cores file.now ≤ 4) }
    ensures { (result ≡ get_or order.now i 0) × (result < cores file.now) × (result < 4) }
{
    order[i] as usize
}

// Whether step i of an order is one of core k.
pub fn stays(order: &[u8], i: usize, k: usize) -> bool
    ensures { result ≡ steps_on order.now i k }
{
    if order.len() <= i {
        return false;
    }
    order[i] as usize == k
}

// Eight bytes of 1 each: times k, eight steps of core k.
const ONES: u64 = 0x0101010101010101;

// Whether at least eight steps are left from step i on, `room` in all, and the next eight are of core k.
fn eight_on(order: &[u8], i: usize, room: usize, k: usize) -> bool
    requires { (i + room ≤ length order.now) × (k < 4) }
    ensures { result ≡ true → (8 ≤ room) × AllOn order.now k i 8 }
{
    if room < 8 {
        return false;
    }
    memory::load(order, i, 8) == k as u64 * ONES
}

// How many of the steps from i on are of core k, one after another, `most` of them at most.
fn stretch(order: &[u8], i: usize, most: usize, k: usize) -> usize
    requires { (i ≤ length order.now) × (k < 4) }
    ensures { Stretches order.now i most k result }
{
    let room = (order.len() - i).min(most);
    let mut m: usize = 0;
    while eight_on(order, i + m, room - m, k) {
        m += 8;
    }
    for m in m..room {
        if order[i + m] as usize != k {
            return m;
        }
    }
    room
}

// How many of the steps from i on are of core k, with the registers r and the task c, and copy bytes of its exchange that leave one; 0 where the next
// step is of another core, so that a single step is told at once.
pub fn steps_ahead(order: &[u8], i: usize, k: usize, r: Registers, c: CoreTask) -> usize
    requires { (i < length order.now) × (k < 4) }
    ensures { (0 < result → Ahead c r result) × (i + result ≤ length order.now) × AllOn order.now k i result }
{
    if !stays(order, i + 1, k) {
        return 0;
    }
    stretch(order, i, steps::bytes_ahead(r, c), k)
}

// The first step from i on that is not one of a core which waits in line. A loop of its own: most steps of waiting cores follow one another, and what they test
// of a core is one byte.
pub fn past_waiting(file: &[u8], order: &[u8], i: usize, line: Line) -> usize
    requires { (i ≤ length order.now) × ((j : ℕ) → j < length order.now → get_or order.now j 0 < cores file.now) × (cores file.now ≤ 4) × Lined line }
    ensures { (i ≤ result) × (result ≤ length order.now) × Waits order.now (semaphore_of line.semaphore) i result }
{
    for j in i..order.len() {
        let k = core_at(file, order, j);
        if !semaphore::waits(line, k) {
            return j;
        }
    }
    order.len()
}

// Steps that are looked at ahead: so many that the look at them costs a step little, and so few that little is lost where the core leaves mode 2 before.
pub const STRETCH: usize = 256;

// How many of the steps from i on are of core k, as step i is, `most` of them at most. A single step is told at once.
pub fn execution_ahead(order: &[u8], i: usize, most: usize, k: usize) -> usize
    requires { (steps_on order.now i k ≡ true) × (0 < most) × (k < 4) }
    ensures { Stretches order.now i most k result }
{
    if !stays(order, i + 1, k) {
        return 1;
    }
    stretch(order, i, most, k)
}
