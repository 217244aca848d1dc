// The machine's calls with a lent core table, for Rust and C: thin functions over the calls on a snapshot of it (crate snapshot). A table is a slice of
// records, one for each core; the semaphore is a lent record beside it. A refused call changes nothing.
//
// The functions that start with `rikzord_` are the C interface too (crate rikzord_c): a slice is a pointer and a length there.
#![tactic(auto)]

ghost use Rattle.std.specs.Prelude.{◌≡◌, [], length, get_or, set};
ghost use Rattle.code.specs.declared.Profile.TheVariants.{Small};
ghost use Rattle.taskset.specs.Judge.{judge_for, judge};
ghost use Rattle.runner.specs.Runs.{left_as};
ghost use Rattle.cycles.specs.Check.{lines_of, lines_refusal, lines_byte};
ghost use Rattle.window.specs.declared.Shown.TheVariants.{Code, Data};
ghost use Rattle.window.specs.Window.{window_at, window_call};
ghost use Rattle.bounds.specs.Outputs.{outputs, takes_lent};
ghost use Rattle.forms.specs.Forms.{converted_lent, to_new_lent, to_old_lent};
ghost use Rattle.holding.specs.Holding.{lowest_refusal, answers_after};
ghost use Rattle.snapshot.specs.Snapshot.{answered, registers_after, step_registers};
ghost use Rattle.rikzord.specs.Lent.{loaded, saved, saved_semaphore, lent, step_lent, run_lent, taken_lent, fresh_lent, fresh_lent_for, rerun_lent, scanned, next_lent};

use code::Profile;
use protocol::Registers;
use runner::RunAnswer;
use semaphore::Semaphore;
use snapshot::{After, CoreRecord, Ring, Table};
use states::Held;
use window::Shown;

// ---- the lent table

// Record i of a table; `other` past its end.
fn get_or(t: &[CoreRecord], i: usize, other: CoreRecord) -> CoreRecord
    ensures { result ≡ get_or t.now i other }
{
    *t.get(i).unwrap_or(&other)
}

// Record i of a table is set; past its end nothing changes. By a test: of `get_mut` the library says nothing about the table afterwards.
fn put_or(t: &mut [CoreRecord], i: usize, c: CoreRecord)
    ensures { t.new ≡ set t.old i c }
{
    if i < t.len() {
        t[i] = c;
    }
}

// The table copied out.
fn load_table(t: &[CoreRecord]) -> Table
    ensures { result ≡ loaded t.now }
{
    let none = snapshot::no_record();
    let a = get_or(t, 0, none);
    let b = get_or(t, 1, none);
    let c = get_or(t, 2, none);
    let d = get_or(t, 3, none);
    snapshot::table_from(a, b, c, d, t.len())
}

// The scan round the ring: of the lent table's records, from the one after the given core to that core's own, the first whose core can move;
// 255 where there is none.
fn scan(t: &[CoreRecord], r: Ring) -> u8
    ensures { result ≡ scanned t.now r }
{
    let none = snapshot::no_record();
    for i in 0..r.cores {
        let k = snapshot::place_after(r, i);
        let c = get_or(t, k as usize, none);
        if snapshot::moves(r, k, c) {
            return k;
        }
    }
    255
}

// What a call leaves is written back: the table's first four records, as far as it has them, and the semaphore. A refused call returns before
// anything is stored. The answer is the refusal number.
fn save(t: &mut [CoreRecord], semaphore: &mut Semaphore, x: After) -> u8
    ensures { (t.new ≡ saved t.old x) × ((semaphore.new ≡ saved_semaphore semaphore.old x) × (result ≡ x.refusal)) }
{
    if x.refusal != 0 {
        return x.refusal;
    }
    put_or(t, 0, x.a);
    put_or(t, 1, x.b);
    put_or(t, 2, x.c);
    put_or(t, 3, x.d);
    *semaphore = x.semaphore;
    0
}

// ---- the calls on a lent table

// One step of a core. The answer is the refusal number, 0 for none.
pub fn rikzord_step(
    file: &[u8],
    trace: &[u8],
    table: &mut [CoreRecord],
    semaphore: &mut Semaphore,
    buffer: &mut [u8],
    shared: &mut [u8],
    core: u8,
) -> u8
    ensures { lent result table.new semaphore.new buffer.new shared.new []
        ≡ step_lent file.now trace.now table.old semaphore.old buffer.old shared.old core }
{
    let t = load_table(table);
    let x = table_runs::step_table(file, trace, t, *semaphore, buffer, shared, core);
    save(table, semaphore, x)
}

// The steps of an order, one after another. The takings go to the front of `list`, and `taken` becomes how many there are.
pub fn rikzord_run(
    file: &[u8],
    trace: &[u8],
    table: &mut [CoreRecord],
    semaphore: &mut Semaphore,
    buffer: &mut [u8],
    shared: &mut [u8],
    order: &[u8],
    list: &mut [u8],
    taken: &mut usize,
) -> u8
    ensures { (lent result table.new semaphore.new buffer.new shared.new list.new
        ≡ run_lent file.now trace.now table.old semaphore.old buffer.old shared.old order.now
        list.old)
        × (taken.new ≡ taken_lent file.now trace.now table.old semaphore.old buffer.old shared.old
        order.now list.old taken.old) }
{
    let t = load_table(table);
    let x = table_runs::run_table(
        file, trace, t, *semaphore, buffer, shared, order, list, taken,
    );
    save(table, semaphore, x)
}

// The fresh state. The table needs at least n records, and the first n are written.
pub fn rikzord_fresh(
    file: &[u8],
    table: &mut [CoreRecord],
    semaphore: &mut Semaphore,
    buffer: &mut [u8],
    shared: &mut [u8],
) -> u8
    ensures { lent result table.new semaphore.new buffer.new shared.new []
        ≡ fresh_lent file.now table.old semaphore.old buffer.old shared.old }
{
    let t = load_table(table);
    let x = snapshot::fresh_table(file, t, *semaphore, buffer, shared);
    save(table, semaphore, x)
}

// The same under the small profile (document 02, 2.10).
pub fn rikzord_fresh_small(
    file: &[u8],
    table: &mut [CoreRecord],
    semaphore: &mut Semaphore,
    buffer: &mut [u8],
    shared: &mut [u8],
) -> u8
    ensures { lent result table.new semaphore.new buffer.new shared.new []
        ≡ fresh_lent_for Small file.now table.old semaphore.old buffer.old shared.old }
{
    let t = load_table(table);
    let x = snapshot::fresh_small_table(file, t, *semaphore, buffer, shared);
    save(table, semaphore, x)
}

// An order list, rerun from the fresh state (document 02, 2.13). The table needs at least n records, and the first n are written.
pub fn rikzord_rerun(
    file: &[u8],
    trace: &[u8],
    list: &[u8],
    table: &mut [CoreRecord],
    semaphore: &mut Semaphore,
    buffer: &mut [u8],
    shared: &mut [u8],
) -> u8
    ensures { lent result table.new semaphore.new buffer.new shared.new []
        ≡ rerun_lent file.now trace.now list.now table.old semaphore.old buffer.old
        shared.old }
{
    let t = load_table(table);
    let x = table_rerun::rerun_table(file, trace, list, t, *semaphore, buffer, shared);
    save(table, semaphore, x)
}

// The first core after `given`, round the ring and that one last, whose step would change something, goes to `found`; 255 for none.
pub fn rikzord_next_core(
    file: &[u8],
    trace: &[u8],
    table: &[CoreRecord],
    semaphore: &Semaphore,
    given: u8,
    found: &mut u8,
) -> u8
    ensures { answered result found.new ≡ next_lent file.now trace.now table.now semaphore.now given found.old }
{
    let t = load_table(table);
    let ring = snapshot::ring_of(file, trace, t, *semaphore, given);
    let k = scan(table, ring);
    snapshot::found_in(ring, k, found)
}

// The refusal number of a task set file alone.
pub fn rikzord_check_file(file: &[u8]) -> u8
    ensures { result ≡ judge file.now }
{
    verdict::refusal_of(machine::check_file(file))
}

// The same under the small profile.
pub fn rikzord_check_file_small(file: &[u8]) -> u8
    ensures { result ≡ judge_for Small file.now }
{
    verdict::refusal_of(machine::check_file_for(Profile::Small, file))
}

// ---- the registers of one core

// The registers of core `core` are lent to its step and changed in place; the rest of the state goes by value.
pub fn step_registers(
    file: &[u8],
    trace: &[u8],
    s: Held,
    registers: &mut Registers,
    buffer: &mut [u8],
    shared: &mut [u8],
    core: u8,
) -> RunAnswer
    ensures { (left_as result buffer.new shared.new []
        ≡ step_registers file.now trace.now s registers.old buffer.old shared.old core)
        × (registers.new ≡ registers_after result.state core registers.old) }
{
    let x = table_runs::step_with(file, trace, s, *registers, buffer, shared, core);
    *registers = x.registers;
    x.ran
}

// ---- beside the machine: the lowest reading over the holding time

// For each record of `run`, a TIME and an INT in six bytes, the lowest reading of the last `span` milliseconds goes to `answers` (crate holding).
pub fn rikzord_lowest(run: &[u8], span: u32, answers: &mut [u8]) -> u8
    ensures { (result ≡ lowest_refusal run.now span (length answers.old)) × (answers.new ≡ answers_after run.now span answers.old) }
{
    verdict::refusal_of(holding::lowest(run, span, answers))
}

// ---- beside the machine: whether runs end as orders of whole cycles

// The test of a task set file's lines (crate cycles). `lines` becomes 0 where no two cores read each other and no lines form a ring, 1 where two
// cores read each other, 2 where there is a ring alone.
pub fn rikzord_check_cycles(file: &[u8], lines: &mut u8) -> u8
    ensures { (result ≡ lines_refusal (lines_of file.now)) × (lines.new ≡ lines_byte lines.old (lines_of file.now)) }
{
    let answer = cycles::check_cycles(file);
    *lines = cycles::lines_byte(*lines, answer);
    verdict::refusal_of(answer)
}

// ---- the memory window: C gets the number and the place, since it can't be handed a part of a slice, by a call for each memory

// Where `count` bytes of a core's code from `start` on stand in the file.
pub fn rikzord_code_window(
    file: &[u8],
    buffer: &[u8],
    core: u8,
    start: usize,
    count: usize,
    place: &mut usize,
) -> u8
    ensures { window_at result place.new ≡ window_call file.now (length buffer.now) Code core start count place.old }
{
    match window::find_window(Shown::Code, core, start, count, file, buffer.len()) {
        Ok(stretch) => {
            *place = stretch.from;
            0
        }
        Err(refusal) => refusal.number(),
    }
}

// Where `count` bytes of a core's data from `start` on stand in the data buffer.
pub fn rikzord_data_window(
    file: &[u8],
    buffer: &[u8],
    core: u8,
    start: usize,
    count: usize,
    place: &mut usize,
) -> u8
    ensures { window_at result place.new ≡ window_call file.now (length buffer.now) Data core start count place.old }
{
    match window::find_window(Shown::Data, core, start, count, file, buffer.len()) {
        Ok(stretch) => {
            *place = stretch.from;
            0
        }
        Err(refusal) => refusal.number(),
    }
}

// ---- beside the machine: what a task will take, before loading it

// The lengths of data buffer, shared memory and core table go to `lengths`, each core's greatest instruction count and call depth to `counts` and
// `depths` (crate bounds).
pub fn rikzord_takes(
    file: &[u8],
    lengths: &mut [usize],
    counts: &mut [u32],
    depths: &mut [u32],
) -> u8
    ensures { outputs result lengths.new counts.new depths.new ≡ takes_lent file.now lengths.old counts.old depths.old }
{
    verdict::refusal_of(bounds::takes_to(file, lengths, counts, depths))
}

// ---- beside the machine: the two forms of a task set file, a call into each for C

// The file in the new form, with a count of 0 for each core, goes to the front of `out`, and its length to `length` (crate forms).
pub fn rikzord_to_new(file: &[u8], out: &mut [u8], length: &mut usize) -> u8
    ensures { converted_lent result length.new out.new ≡ to_new_lent file.now out.old length.old }
{
    match forms::to_new(file, out) {
        Ok(written) => {
            *length = written;
            0
        }
        Err(refusal) => refusal.number(),
    }
}

// The file in the old form: 32 where it has start values.
pub fn rikzord_to_old(file: &[u8], out: &mut [u8], length: &mut usize) -> u8
    ensures { converted_lent result length.new out.new ≡ to_old_lent file.now out.old length.old }
{
    match forms::to_old(file, out) {
        Ok(written) => {
            *length = written;
            0
        }
        Err(refusal) => refusal.number(),
    }
}
