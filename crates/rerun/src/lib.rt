// Document 02, 2.13: rerun from the order of takings, with every exchange whole and each execution straight after its reading. Whether steps produce the
// list is known at its end alone, so the rerun works in memories of its own and copies them out where nothing is refused.
// In order: a reading; a writing; a taking; the list; the call. Not here: a byte of the list (crate `takings`).
#![tactic(auto)]

ghost use Rattle.std.specs.Prelude.{◌≡◌, true, [], ◌+◌, ◌<◌, length};
ghost use Rattle.verdict.specs.Refusals.{number_of};
ghost use Rattle.memory.specs.Memory.{total};
ghost use Rattle.protocol.specs.Step.{copy};
ghost use Rattle.protocol.specs.Variables.{writes_of};
ghost use Rattle.records.specs.File.{variables};
ghost use Rattle.taskset.specs.Task.{sizes_of, variables_of};
ghost use Rattle.runner.specs.Runs.{left_as};
ghost use Rattle.machine.specs.Calls.{answer_of, table_of};
ghost use Rattle.rerun.specs.Calls.{rerun_call};
ghost use Rattle.rerun.specs.Rerunning.{data_in, Exchanging, BroughtTo, BroughtIn, Reading, ReadsWhole, Due, Took, reran_answer, RerunGiven, Reran};

use code::Profile;
use machine::SHARED;
use protocol::Registers;
use runner::RunAnswer;
use states::{CoreTask, Held};
use takings::{WRITINGS, is_due, named_core};
use taskset::Layout;
use verdict::Refusal;

// Bytes of the largest data buffer.
const LARGEST_BUFFER: usize = 16384;

// ---- a reading

// The record of this cycle and all read variables go to the data d of core k; the record's time is the answer.
fn read_data(
    r: Registers,
    k: usize,
    c: CoreTask,
    file: &[u8],
    trace: &[u8],
    first: usize,
    end: usize,
    d: &mut [u8],
    shared: &[u8],
) -> u32
    requires { Exchanging file.now trace.now k c first end r d.old shared.now × (r.cycles < c.count) }
    ensures { BroughtTo file.now trace.now k r shared.now d.old result d.new }
{
    let time = steps::take_record(r, k, c, file, trace, d);
    exchange::bring_all(file, first, end, k, d, shared);
    time
}

// The same in the data buffer of all cores.
fn read_exchange(
    r: Registers,
    k: usize,
    c: CoreTask,
    file: &[u8],
    trace: &[u8],
    first: usize,
    end: usize,
    buffer: &mut [u8],
    shared: &[u8],
) -> u32
    requires { Exchanging file.now trace.now k c first end r (data_in file.now k buffer.old) shared.now × (r.cycles < c.count) × (length buffer.old ≡ total (sizes_of file.now)) }
    ensures { BroughtIn file.now trace.now k r shared.now buffer.old result buffer.new }
{
    let a = c.layout.base;
    let e = a + c.layout.size;
    read_data(r, k, c, file, trace, first, end, &mut buffer[a..e], shared)
}

// A reading of core k, whole, and the execution straight after it.
fn read(
    file: &[u8],
    trace: &[u8],
    c: CoreTask,
    first: usize,
    end: usize,
    k: usize,
    r: Registers,
    places: &mut [u16; 64],
    offsets: &mut [u16; 64],
    buffer: &mut [u8],
    shared: &[u8],
) -> Registers
    requires { Reading file.now trace.now k c first end r places.old offsets.old buffer.old shared.now }
    ensures { ReadsWhole file.now trace.now k r places.old offsets.old buffer.old shared.now
        result places.new offsets.new buffer.new }
{
    let time = read_exchange(r, k, c, file, trace, first, end, buffer, shared);
    let started = protocol::read_released(protocol::read_acquired(r, time));
    core_runs::run_alone(file, trace, c, k, started, places, offsets, buffer)
}

// ---- a writing

// All variables that core k writes go to shared memory.
fn write_exchange(
    r: Registers,
    k: usize,
    c: CoreTask,
    file: &[u8],
    trace: &[u8],
    first: usize,
    end: usize,
    buffer: &[u8],
    shared: &mut [u8],
)
    requires { Exchanging file.now trace.now k c first end r (data_in file.now k buffer.now) shared.old × (length buffer.now ≡ total (sizes_of file.now)) }
    ensures { shared.new ≡ copy (writes_of (variables_of file.now) k) (data_in file.now k buffer.now) shared.old }
{
    let a = c.layout.base;
    let e = a + c.layout.size;
    exchange::publish_all(file, first, end, k, &buffer[a..e], shared);
}

// ---- a taking

// What core k has to do by the byte b of the list: a reading with the execution after it, or a writing. The answer is its registers afterwards.
fn take(
    b: usize,
    file: &[u8],
    trace: &[u8],
    c: CoreTask,
    first: usize,
    end: usize,
    k: usize,
    r: Registers,
    places: &mut [u16; 64],
    offsets: &mut [u16; 64],
    buffer: &mut [u8],
    shared: &mut [u8],
) -> Registers
    requires { Due file.now trace.now b k c first end r places.old offsets.old buffer.old shared.old }
    ensures { Took file.now trace.now b k r places.old offsets.old buffer.old shared.old
        result places.new offsets.new buffer.new shared.new }
{
    if b < WRITINGS {
        return read(
            file, trace, c, first, end, k, r, places, offsets, buffer, shared,
        );
    }
    write_exchange(r, k, c, file, trace, first, end, buffer, shared);
    protocol::write_released(r)
}

// ---- the list

// What a refused call answers: a table of no cores.
fn without_table(refusal: Refusal) -> RunAnswer
    ensures { result ≡ answer_of (number_of refusal) (table_of 0 0) }
{
    machine::answer(refusal.number(), machine::idle_table(0, 0))
}

// What a call answers that took the whole list: the table now, with the semaphore of the fresh state.
fn reran(
    s: Held,
    cores: [Registers; 4],
    places: [u16; 64],
    offsets: [u16; 64],
    taken: usize,
) -> RunAnswer
    ensures { result ≡ reran_answer s cores places offsets taken }
{
    let semaphore = s.semaphore;
    let state = Held {
        count: s.count,
        semaphore,
        cores,
        places,
        offsets,
    };
    RunAnswer {
        refusal: 0,
        taken,
        state,
    }
}

// The takings of the list, one after another, from the fresh state, in memories whose bytes count only where nothing is refused.
fn rerun_in(
    file: &[u8],
    trace: &[u8],
    layout: Layout,
    tasks: [CoreTask; 4],
    list: &[u8],
    buffer: &mut [u8],
    shared: &mut [u8],
) -> RunAnswer
    requires { RerunGiven file.now trace.now layout tasks buffer.old shared.old }
    ensures { Reran file.now trace.now list.now result buffer.new shared.new }
{
    let fresh = machine::fresh_judged(file, layout, buffer, shared);
    let s = fresh.state;
    let mut cores = states::table_of(s);
    let mut places = states::places_of(s);
    let mut offsets = states::offsets_of(s);
    let n = layout.cores;
    let first = layout.first;
    let end = first + records::VARIABLE_RECORD * layout.variables;
    for item in list {
        let b = *item as usize;
        let k = named_core(b);
        if n <= k {
            return without_table(Refusal::NotProduced);
        }
        if !is_due(b, cores[k], tasks[k].count) {
            return without_table(Refusal::NotProduced);
        }
        cores[k] = take(
            b,
            file,
            trace,
            tasks[k],
            first,
            end,
            k,
            cores[k],
            &mut places,
            &mut offsets,
            buffer,
            shared,
        );
    }
    reran(s, cores, places, offsets, list.len())
}

// ---- the call

// The same where only the list may still be refused, in memories that are lent for it, and copied out at the end.
fn rerun_through(
    file: &[u8],
    trace: &[u8],
    layout: Layout,
    tasks: [CoreTask; 4],
    list: &[u8],
    scratch: &mut [u8],
    common: &mut [u8],
    buffer: &mut [u8],
    shared: &mut [u8],
) -> RunAnswer
    requires { RerunGiven file.now trace.now layout tasks buffer.old shared.old × (length scratch.old ≡ length buffer.old) × (length common.old ≡ length shared.old) }
    ensures { left_as result buffer.new shared.new [] ≡ rerun_call file.now trace.now list.now buffer.old shared.old }
{
    let n = buffer.len();
    let m = shared.len();
    let x = rerun_in(file, trace, layout, tasks, list, scratch, common);
    if x.refusal == 0 {
        memory::copy(buffer, 0, scratch, 0, n);
        memory::copy(shared, 0, common, 0, m);
    }
    x
}

fn rerun_judged(
    file: &[u8],
    trace: &[u8],
    layout: Layout,
    tasks: [CoreTask; 4],
    list: &[u8],
    buffer: &mut [u8],
    shared: &mut [u8],
) -> RunAnswer
    requires { RerunGiven file.now trace.now layout tasks buffer.old shared.old }
    ensures { left_as result buffer.new shared.new [] ≡ rerun_call file.now trace.now list.now buffer.old shared.old }
{
    let mut data: [u8; LARGEST_BUFFER] = [0; LARGEST_BUFFER];
    let mut common: [u8; SHARED] = [0; SHARED];
    let size = file_loading::sum_of_sizes(file, layout);
    rerun_through(
        file,
        trace,
        layout,
        tasks,
        list,
        &mut data[..size],
        &mut common,
        buffer,
        shared,
    )
}

// Reruns an order list from the fresh state of a file on a trace.
pub fn rerun(
    file: &[u8],
    trace: &[u8],
    list: &[u8],
    buffer: &mut [u8],
    shared: &mut [u8],
) -> RunAnswer
    ensures { left_as result buffer.new shared.new [] ≡ rerun_call file.now trace.now list.now buffer.old shared.old }
{
    let layout = match machine::load_lent(Profile::Full, file, buffer.len(), shared.len(), true) {
        Ok(layout) => layout,
        Err(refused) => return without_table(refused.refusal),
    };
    let traces = match traces::load_trace(file, trace) {
        Ok(traces) => traces,
        Err(refusal) => return without_table(refusal),
    };
    let tasks = states::core_tasks(file, trace, layout, traces);
    rerun_judged(file, trace, layout, tasks, list, buffer, shared)
}
