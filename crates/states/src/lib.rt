// The state that a caller holds and lends; what a step needs of each core's task. Which states are unfit is defined in specs/Fit.
// Not here: the functions that judge a state (crates `fitness` and `execution_fitness`).

#![tactic(auto)]

ghost use Rattle.std.specs.Prelude.{◌≡◌, ◌<◌, length};
ghost use Rattle.records.specs.File.{cores};
ghost use Rattle.taskset.specs.Layout.{layout_of};
ghost use Rattle.taskset.specs.Trace.{trace_layout};
ghost use Rattle.states.specs.Set.{AcceptedSet};
ghost use Rattle.states.specs.Tasks.{no_task, core_task, task_at, tasks_of};

use protocol::Registers;
use semaphore::Semaphore;
use taskset::{CoreLayout, Layout, TraceLayout};

// The state of up to four cores. The call stack of core k is entries 16k to 16k + 15 of `places` and `offsets`: flat arrays beside the registers, so that a step moves none.
#[derive(Clone, Copy, PartialEq, Eq)]
pub struct Held {
    pub count: u8, // records of the core table
    pub semaphore: Semaphore,
    pub cores: [Registers; 4],
    pub places: [u16; 64],
    pub offsets: [u16; 64],
}

// The parts of a state; that its arrays have their lengths is known of a result.
pub fn table_of(s: Held) -> [Registers; 4]
    ensures { (result ≡ s.cores) × (length result ≡ 4) }
{
    s.cores
}

pub fn places_of(s: Held) -> [u16; 64]
    ensures { (result ≡ s.places) × (length result ≡ 64) }
{
    s.places
}

pub fn offsets_of(s: Held) -> [u16; 64]
    ensures { (result ≡ s.offsets) × (length result ≡ 64) }
{
    s.offsets
}

// ---- the cores' tasks

// What a step needs of a core's task, read from file and trace once a run: where its parts stand in the file and the data buffer, its exchanges and its input records.
#[derive(Clone, Copy)]
pub struct CoreTask {
    pub reads: usize, // bytes of its reading exchange
    pub writes: usize, // bytes of its writing exchange
    pub records: usize, // place of its first input record in the trace
    pub count: usize, // of its input records
    pub layout: CoreLayout, // last: the compiled steps find the others sooner
}

// All zeros.
pub fn no_task() -> CoreTask
    ensures { result ≡ no_task }
{
    CoreTask {
        reads: 0,
        writes: 0,
        records: 0,
        count: 0,
        layout: taskset::no_core(),
    }
}

// The task of core k, from what loading file and trace has found.
fn core_task(file: &[u8], trace: &[u8], layout: Layout, traces: TraceLayout, k: usize) -> CoreTask
    requires { AcceptedSet file.now trace.now × (layout ≡ layout_of file.now) × (traces ≡ trace_layout file.now trace.now) × (k < cores file.now) }
    ensures { result ≡ core_task file.now trace.now k }
{
    let core = layout.core[k];
    let first = layout.first;
    let end = first + records::VARIABLE_RECORD * layout.variables;
    CoreTask {
        reads: exchange::bytes(file, first, end, 4 + k),
        writes: exchange::bytes(file, first, end, k),
        records: traces.first[k],
        count: traces.count[k] as usize,
        layout: core,
    }
}

fn task_at(file: &[u8], trace: &[u8], layout: Layout, traces: TraceLayout, k: usize) -> CoreTask
    requires { AcceptedSet file.now trace.now × (layout ≡ layout_of file.now) × (traces ≡ trace_layout file.now trace.now) }
    ensures { result ≡ task_at file.now trace.now k }
{
    if layout.cores <= k {
        return no_task();
    }
    core_task(file, trace, layout, traces, k)
}

// The tasks of all cores; zeros for a core number from n on.
pub fn core_tasks(file: &[u8], trace: &[u8], layout: Layout, traces: TraceLayout) -> [CoreTask; 4]
    requires { AcceptedSet file.now trace.now × (layout ≡ layout_of file.now) × (traces ≡ trace_layout file.now trace.now) }
    ensures { result ≡ tasks_of file.now trace.now }
{
    let t0 = task_at(file, trace, layout, traces, 0);
    let t1 = task_at(file, trace, layout, traces, 1);
    let t2 = task_at(file, trace, layout, traces, 2);
    let t3 = task_at(file, trace, layout, traces, 3);
    [t0, t1, t2, t3]
}
