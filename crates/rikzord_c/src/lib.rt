// The C interface: each call of include/rikzord.h is the one of crate rikzord, under the same clauses. A slice is a pointer and a length there.
#![tactic(auto)]

ghost use Rattle.std.specs.Prelude.{◌≡◌, [], length};
ghost use Rattle.code.specs.declared.Profile.TheVariants.{Small};
ghost use Rattle.taskset.specs.Judge.{judge_for, judge};
ghost use Rattle.cycles.specs.Check.{lines_of, lines_refusal, lines_byte};
ghost use Rattle.window.specs.declared.Shown.TheVariants.{Code, Data};
ghost use Rattle.window.specs.Window.{window_at, window_call};
ghost use Rattle.bounds.specs.Outputs.{outputs, takes_lent};
ghost use Rattle.forms.specs.Forms.{converted_lent, to_new_lent, to_old_lent};
ghost use Rattle.holding.specs.Holding.{lowest_refusal, answers_after};
ghost use Rattle.snapshot.specs.Snapshot.{answered};
ghost use Rattle.rikzord.specs.Lent.{lent, step_lent, run_lent, taken_lent, fresh_lent, fresh_lent_for, rerun_lent, next_lent};

use semaphore::Semaphore;
use snapshot::CoreRecord;

// One step of a core. The answer is the refusal number, 0 for none.
#[unsafe(no_mangle)]
pub extern "C" fn rikzord_step(
    file: &[u8],
    trace: &[u8],
    table: &mut [CoreRecord],
    semaphore: &mut Semaphore,
    buffer: &mut [u8],
    shared: &mut [u8],
    core: u8,
) -> u8
    ensures { lent result table.new semaphore.new buffer.new shared.new []
        ≡ step_lent file.now trace.now table.old semaphore.old buffer.old shared.old core }
{
    rikzord::rikzord_step(file, trace, table, semaphore, buffer, shared, core)
}

// The steps of an order, one after another. The takings go to the front of `list`, and `taken` becomes how many there are.
#[unsafe(no_mangle)]
pub extern "C" fn rikzord_run(
    file: &[u8],
    trace: &[u8],
    table: &mut [CoreRecord],
    semaphore: &mut Semaphore,
    buffer: &mut [u8],
    shared: &mut [u8],
    order: &[u8],
    list: &mut [u8],
    taken: &mut usize,
) -> u8
    ensures { (lent result table.new semaphore.new buffer.new shared.new list.new
        ≡ run_lent file.now trace.now table.old semaphore.old buffer.old shared.old order.now
        list.old)
        × (taken.new ≡ taken_lent file.now trace.now table.old semaphore.old buffer.old shared.old
        order.now list.old taken.old) }
{
    rikzord::rikzord_run(
        file, trace, table, semaphore, buffer, shared, order, list, taken,
    )
}

// The fresh state. The table needs at least n records, and the first n are written.
#[unsafe(no_mangle)]
pub extern "C" fn rikzord_fresh(
    file: &[u8],
    table: &mut [CoreRecord],
    semaphore: &mut Semaphore,
    buffer: &mut [u8],
    shared: &mut [u8],
) -> u8
    ensures { lent result table.new semaphore.new buffer.new shared.new []
        ≡ fresh_lent file.now table.old semaphore.old buffer.old shared.old }
{
    rikzord::rikzord_fresh(file, table, semaphore, buffer, shared)
}

// The same under the small profile (document 02, 2.10).
#[unsafe(no_mangle)]
pub extern "C" fn rikzord_fresh_small(
    file: &[u8],
    table: &mut [CoreRecord],
    semaphore: &mut Semaphore,
    buffer: &mut [u8],
    shared: &mut [u8],
) -> u8
    ensures { lent result table.new semaphore.new buffer.new shared.new []
        ≡ fresh_lent_for Small file.now table.old semaphore.old buffer.old shared.old }
{
    rikzord::rikzord_fresh_small(file, table, semaphore, buffer, shared)
}

// An order list, rerun from the fresh state (document 02, 2.13). The table needs at least n records, and the first n are written.
#[unsafe(no_mangle)]
pub extern "C" fn rikzord_rerun(
    file: &[u8],
    trace: &[u8],
    list: &[u8],
    table: &mut [CoreRecord],
    semaphore: &mut Semaphore,
    buffer: &mut [u8],
    shared: &mut [u8],
) -> u8
    ensures { lent result table.new semaphore.new buffer.new shared.new []
        ≡ rerun_lent file.now trace.now list.now table.old semaphore.old buffer.old
        shared.old }
{
    rikzord::rikzord_rerun(file, trace, list, table, semaphore, buffer, shared)
}

// The first core after `given`, round the ring and that one last, whose step would change something, goes to `found`; 255 for none.
#[unsafe(no_mangle)]
pub extern "C" fn rikzord_next_core(
    file: &[u8],
    trace: &[u8],
    table: &[CoreRecord],
    semaphore: &Semaphore,
    given: u8,
    found: &mut u8,
) -> u8
    ensures { answered result found.new ≡ next_lent file.now trace.now table.now semaphore.now given found.old }
{
    rikzord::rikzord_next_core(file, trace, table, semaphore, given, found)
}

// The refusal number of a task set file alone.
#[unsafe(no_mangle)]
pub extern "C" fn rikzord_check_file(file: &[u8]) -> u8
    ensures { result ≡ judge file.now }
{
    rikzord::rikzord_check_file(file)
}

// The same under the small profile.
#[unsafe(no_mangle)]
pub extern "C" fn rikzord_check_file_small(file: &[u8]) -> u8
    ensures { result ≡ judge_for Small file.now }
{
    rikzord::rikzord_check_file_small(file)
}

// For each record of `run`, a TIME and an INT in six bytes, the lowest reading of the last `span` milliseconds goes to `answers` (crate holding).
#[unsafe(no_mangle)]
pub extern "C" fn rikzord_lowest(run: &[u8], span: u32, answers: &mut [u8]) -> u8
    ensures { (result ≡ lowest_refusal run.now span (length answers.old)) × (answers.new ≡ answers_after run.now span answers.old) }
{
    rikzord::rikzord_lowest(run, span, answers)
}

// The test of a task set file's lines (crate cycles). `lines` becomes 0 where no two cores read each other and no lines form a ring, 1 where two
// cores read each other, 2 where there is a ring alone.
#[unsafe(no_mangle)]
pub extern "C" fn rikzord_check_cycles(file: &[u8], lines: &mut u8) -> u8
    ensures { (result ≡ lines_refusal (lines_of file.now)) × (lines.new ≡ lines_byte lines.old (lines_of file.now)) }
{
    rikzord::rikzord_check_cycles(file, lines)
}

// Where `count` bytes of a core's code from `start` on stand in the file.
#[unsafe(no_mangle)]
pub extern "C" fn rikzord_code_window(
    file: &[u8],
    buffer: &[u8],
    core: u8,
    start: usize,
    count: usize,
    place: &mut usize,
) -> u8
    ensures { window_at result place.new ≡ window_call file.now (length buffer.now) Code core start count place.old }
{
    rikzord::rikzord_code_window(file, buffer, core, start, count, place)
}

// Where `count` bytes of a core's data from `start` on stand in the data buffer.
#[unsafe(no_mangle)]
pub extern "C" fn rikzord_data_window(
    file: &[u8],
    buffer: &[u8],
    core: u8,
    start: usize,
    count: usize,
    place: &mut usize,
) -> u8
    ensures { window_at result place.new ≡ window_call file.now (length buffer.now) Data core start count place.old }
{
    rikzord::rikzord_data_window(file, buffer, core, start, count, place)
}

// The lengths of data buffer, shared memory and core table go to `lengths`, each core's greatest instruction count and call depth to `counts` and
// `depths` (crate bounds).
#[unsafe(no_mangle)]
pub extern "C" fn rikzord_takes(
    file: &[u8],
    lengths: &mut [usize],
    counts: &mut [u32],
    depths: &mut [u32],
) -> u8
    ensures { outputs result lengths.new counts.new depths.new ≡ takes_lent file.now lengths.old counts.old depths.old }
{
    rikzord::rikzord_takes(file, lengths, counts, depths)
}

// The file in the new form, with a count of 0 for each core, goes to the front of `out`, and its length to `length` (crate forms).
#[unsafe(no_mangle)]
pub extern "C" fn rikzord_to_new(file: &[u8], out: &mut [u8], length: &mut usize) -> u8
    ensures { converted_lent result length.new out.new ≡ to_new_lent file.now out.old length.old }
{
    rikzord::rikzord_to_new(file, out, length)
}

// The file in the old form: 32 where it has start values.
#[unsafe(no_mangle)]
pub extern "C" fn rikzord_to_old(file: &[u8], out: &mut [u8], length: &mut usize) -> u8
    ensures { converted_lent result length.new out.new ≡ to_old_lent file.now out.old length.old }
{
    rikzord::rikzord_to_old(file, out, length)
}
