// Document 01, "A state is unfit if ..", one function a rule: which states are refused (refusal 23), of an accepted file on a sound trace.
// In order: exchange, cycles and holder; a core; the line; a state; a trace and a state one after the other.
// Not here: the rules of an execution (crate `execution_fitness`); the definitions and their laws (crate `states`).
#![tactic(auto)]

ghost use Rattle.std.specs.Prelude.{◌≡◌, ◌<◌};
ghost use Rattle.verdict.specs.Refusals.{refusal_of, refused_number, known, where_accepted};
ghost use Rattle.records.specs.File.{cores};
ghost use Rattle.taskset.specs.Judge.{judge};
ghost use Rattle.taskset.specs.Layout.{layout_of};
ghost use Rattle.taskset.specs.Trace.{trace_refusal};
ghost use Rattle.states.specs.Set.{AcceptedSet};
ghost use Rattle.states.specs.Tasks.{core_task, tasks_of};
ghost use Rattle.states.specs.Fit.{exchange_fit, cycles_fit, holder_fit, exchanges_fit, fit_at, may_wait, line_fit, state_refusal};
ghost use Rattle.states.specs.Preparing.{held_refusal};

use execution_fitness::{execution_fit, freed_fit};
use protocol::Registers;
use states::{CoreTask, Held, core_tasks};
use taskset::Layout;
use verdict::{Refusal, Refused};

const FLAGS: u8 = 128; // above the lawful flag bits: bit 7 alone is none

const LINE: usize = 4; // entries of a line

// The exchange number doesn't pass its exchange's bytes, and is 0 outside modes 1 and 4.
fn exchange_fit(reads: usize, writes: usize, r: Registers) -> bool
    ensures { result ≡ exchange_fit reads writes r }
{
    if r.mode == protocol::READING {
        return r.exchange as usize <= reads;
    }
    if r.mode == protocol::WRITING {
        return r.exchange as usize <= writes;
    }
    r.exchange == 0
}

// Cycles don't exceed the trace's count, nor equal it in modes 1 to 4.
fn cycles_fit(count: usize, r: Registers) -> bool
    ensures { result ≡ cycles_fit count r }
{
    if r.mode < protocol::READING {
        return r.cycles as usize <= count;
    }
    if protocol::WRITING < r.mode {
        return r.cycles as usize <= count;
    }
    (r.cycles as usize) < count
}

// A core is in mode 1 or 4 exactly if it holds the semaphore.
fn holder_fit(holder: u8, k: usize, r: Registers) -> bool
    requires { k < 4 }
    ensures { result ≡ holder_fit holder k r }
{
    let holds = holder as usize == k + 1;
    if r.mode == protocol::READING {
        return holds;
    }
    if r.mode == protocol::WRITING {
        return holds;
    }
    !holds
}

// The rules of exchanges.
fn exchanges_fit(task: CoreTask, holder: u8, k: usize, r: Registers) -> bool
    requires { k < 4 }
    ensures { result ≡ exchanges_fit task.reads task.writes task.count holder k r }
{
    if !exchange_fit(task.reads, task.writes, r) {
        return false;
    }
    if !cycles_fit(task.count, r) {
        return false;
    }
    holder_fit(holder, k, r)
}

// Core k of a state.
fn core_fit(file: &[u8], trace: &[u8], task: CoreTask, s: Held, k: usize) -> bool
    requires { AcceptedSet file.now trace.now × (k < cores file.now) × (task ≡ core_task file.now trace.now k) }
    ensures { result ≡ fit_at file.now trace.now s k }
{
    let r = s.cores[k];
    let places = s.places;
    let offsets = s.offsets;
    let from = task.layout.code;
    let to = from + task.layout.length;
    // first, so that a core with no call open has no return place
    if !freed_fit(r, &places, &offsets, k) {
        return false;
    }
    if !execution_fit(&file[from..to], task, r, &places, &offsets, k) {
        return false;
    }
    if !exchanges_fit(task, s.semaphore.holder, k, r) {
        return false;
    }
    r.flags < FLAGS
}

// A core with these registers and so many input records is in mode 0 or 3, and has records left.
fn may_wait(count: usize, r: Registers) -> bool
    ensures { result ≡ may_wait count r }
{
    if (r.cycles as usize) < count {
        if r.mode == protocol::BETWEEN {
            return true;
        }
        return r.mode == protocol::WAITING;
    }
    false
}

// The line names no core twice, none from n on, none that is not in mode 0 or 3, and none that is out of records.
fn line_fit(file: &[u8], trace: &[u8], tasks: [CoreTask; 4], n: usize, s: Held) -> bool
    requires { AcceptedSet file.now trace.now × (tasks ≡ tasks_of file.now trace.now) × (n ≡ cores file.now) }
    ensures { result ≡ line_fit file.now trace.now s }
{
    let m = s.semaphore;
    let waiting = m.waiting as usize;
    if LINE < waiting {
        return false;
    }
    for i in 0..waiting {
        let k = m.line[i];
        if semaphore::in_line(m, i + 1, k) {
            return false;
        }
        let core = k as usize;
        if n <= core {
            return false;
        }
        if !may_wait(tasks[core].count, s.cores[core]) {
            return false;
        }
    }
    true
}

// A state of an accepted file with n cores, whose tasks on a sound trace are given.
fn judge_state(
    file: &[u8],
    trace: &[u8],
    tasks: [CoreTask; 4],
    n: usize,
    s: Held,
) -> Result<(), Refusal>
    requires { AcceptedSet file.now trace.now × (tasks ≡ tasks_of file.now trace.now) × (n ≡ cores file.now) }
    ensures { refusal_of result ≡ state_refusal file.now trace.now s }
{
    if s.count as usize != n {
        return Err(Refusal::UnfitState);
    }
    if n < s.semaphore.holder as usize {
        return Err(Refusal::UnfitState);
    }
    for k in 0..n {
        if !core_fit(file, trace, tasks[k], s, k) {
            return Err(Refusal::UnfitState);
        }
    }
    if !line_fit(file, trace, tasks, n, s) {
        return Err(Refusal::UnfitState);
    }
    Ok(())
}

// The tasks of the cores, where trace and state of an accepted file are sound. Those of a sound trace are known beside an unfit state too.
pub fn prepare(
    file: &[u8],
    trace: &[u8],
    layout: Layout,
    s: Held,
) -> Result<[CoreTask; 4], Refused<[CoreTask; 4]>>
    requires { (judge file.now ≡ 0) × (layout ≡ layout_of file.now) }
    ensures { (refused_number result ≡ held_refusal file.now trace.now s) × (known result ≡ where_accepted (trace_refusal file.now trace.now) (tasks_of file.now trace.now)) }
{
    let traces = traces::load_trace(file, trace)?;
    let tasks = core_tasks(file, trace, layout, traces);
    match judge_state(file, trace, tasks, layout.cores, s) {
        Ok(()) => Ok(tasks),
        Err(refusal) => Err(Refused {
            refusal,
            known: Some(tasks),
        }),
    }
}
