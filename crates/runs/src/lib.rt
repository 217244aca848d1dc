// The calls that move the machine: a run, and a step, which is a run of one step. Each is judged whole before its first step, and a refused one changes no lent byte.
// Not here: what a run and a step are for every input (machine/specs/Calls); the judging of a call and the fresh state (crate `machine`); the steps of an order (crate `order_runs`).
#![tactic(auto)]

ghost use Rattle.std.specs.Prelude.{◌≡◌, ◌≤◌, [], length};
ghost use Rattle.taskset.specs.Layout.{layout_of};
ghost use Rattle.states.specs.Tasks.{tasks_of};
ghost use Rattle.runner.specs.Runs.{left_as, ran_call};
ghost use Rattle.machine.specs.Judging.{LentTo, first_run};
ghost use Rattle.runs.specs.Aiming.{AimGiven, AimedAt};
ghost use Rattle.machine.specs.Calls.{run_refusal, run_call, step_call};

use code::Profile;
use exchange::Cursor;
use machine::{answer, fresh_judged, judge_call, load_lent};
use runner::RunAnswer;
use states::{CoreTask, Held};
use taskset::Layout;
use verdict::Refusal;

// The place of the exchange under way in a fit state, if there is one.
fn aim_of(
    file: &[u8],
    trace: &[u8],
    first: usize,
    end: usize,
    s: Held,
    buffer: &[u8],
    shared: &[u8],
) -> Cursor
    requires { AimGiven file.now trace.now first end s buffer.now shared.now }
    ensures { AimedAt file.now s result }
{
    let none = Cursor { record: 0, byte: 0 };
    let holder = s.semaphore.holder;
    if holder == 0 {
        return none;
    }
    let k = (holder - 1) as usize;
    let cores = s.cores;
    if cores[k].mode == protocol::READING {
        return exchange::locate(file, first, end, 4 + k, cores[k].exchange);
    }
    if cores[k].mode == protocol::WRITING {
        return exchange::locate(file, first, end, k, cores[k].exchange);
    }
    none
}

// The steps of an order where nothing is refused.
fn run_judged(
    file: &[u8],
    trace: &[u8],
    layout: Layout,
    tasks: [CoreTask; 4],
    s: Held,
    buffer: &mut [u8],
    shared: &mut [u8],
    order: &[u8],
    list: &mut [u8],
) -> RunAnswer
    requires { (layout ≡ layout_of file.now) × (tasks ≡ tasks_of file.now trace.now) × (run_refusal file.now trace.now s buffer.old shared.old order.now list.old ≡ 0) }
    ensures { left_as result buffer.new shared.new list.new
        ≡ ran_call file.now trace.now s buffer.old shared.old order.now list.old }
{
    // for the lengths of the arrays alone
    let places = states::places_of(s);
    let offsets = states::offsets_of(s);
    let first = layout.first;
    let end = first + records::VARIABLE_RECORD * layout.variables;
    let aim = aim_of(file, trace, first, end, s, buffer, shared);
    order_runs::run_order(
        file, trace, tasks, first, end, order, s, aim, buffer, shared, list,
    )
}

// The steps of an order, one after another. The takings go to the front of `list`: the core, plus 16 for a writing; bytes after those stay.
pub fn run(
    file: &[u8],
    trace: &[u8],
    s: Held,
    buffer: &mut [u8],
    shared: &mut [u8],
    order: &[u8],
    list: &mut [u8],
) -> RunAnswer
    ensures { left_as result buffer.new shared.new list.new
        ≡ run_call file.now trace.now s buffer.old shared.old order.now list.old }
{
    let room = order.len() <= list.len();
    let loaded = load_lent(Profile::Full, file, buffer.len(), shared.len(), room);
    match judge_call(file, trace, loaded, s, order) {
        Ok(judged) => run_judged(
            file,
            trace,
            judged.layout,
            judged.tasks,
            s,
            buffer,
            shared,
            order,
            list,
        ),
        Err(refused) => answer(refused.refusal.number(), s),
    }
}

// The steps of an order from the fresh state, of an accepted file in memories of its sizes, where the order list has room: so the file is judged once.
pub fn first_run_judged(
    file: &[u8],
    trace: &[u8],
    layout: Layout,
    buffer: &mut [u8],
    shared: &mut [u8],
    order: &[u8],
    list: &mut [u8],
) -> RunAnswer
    requires { LentTo file.now layout buffer.old shared.old × (length order.now ≤ length list.old) }
    ensures { left_as result buffer.new shared.new list.new ≡ first_run file.now trace.now order.now list.old }
{
    let start = fresh_judged(file, layout, buffer, shared);
    let loaded: Result<Layout, Refusal> = Ok(layout);
    match judge_call(file, trace, loaded, start.state, order) {
        Ok(judged) => run_judged(
            file,
            trace,
            layout,
            judged.tasks,
            start.state,
            buffer,
            shared,
            order,
            list,
        ),
        Err(refusal) => answer(refusal.number(), start.state),
    }
}

// One step of a core, as the run of an order of one byte: so the machine has one place that executes.
pub fn step(
    file: &[u8],
    trace: &[u8],
    s: Held,
    buffer: &mut [u8],
    shared: &mut [u8],
    core: u8,
) -> RunAnswer
    ensures { left_as result buffer.new shared.new [] ≡ step_call file.now trace.now s buffer.old shared.old core }
{
    let order = [core];
    let mut list = [0u8; 1];
    run(file, trace, s, buffer, shared, &order, &mut list)
}
