// The steps of an order, one after another.
// Not here: a stretch of one core's instructions (crate `core_runs`); the definitions and their laws (crate `runner`).
#![tactic(auto)]

ghost use Rattle.std.specs.Prelude.{◌≡◌, ◌+◌, ◌<◌};
ghost use Rattle.runner.specs.Runs.{left_as, ran_answer, ran_call};
ghost use Rattle.runner.specs.Going.{RunGiven};
ghost use Rattle.runner.specs.Running.{bytes_on};

use core_runs::{is_single, reached_at, run_core, run_single};
use exchange::Cursor;
use order::{core_at, past_waiting, steps_ahead};
use protocol::{EXECUTING, Registers};
use runner::{RunAnswer, Single};
use semaphore::Semaphore;
use states::{CoreTask, Held, offsets_of, places_of, table_of};

// The registers of a core that has copied `count` more bytes.
fn bytes_on(r: Registers, count: usize) -> Registers
    requires { r.exchange + count < 65536 }
    ensures { result ≡ bytes_on r count }
{
    let mut s = r;
    s.exchange = r.exchange + count as u16;
    s
}

// What a run from the state s answers.
fn ran(
    s: Held,
    semaphore: Semaphore,
    cores: [Registers; 4],
    places: [u16; 64],
    offsets: [u16; 64],
    taken: usize,
) -> RunAnswer
    ensures { result ≡ ran_answer s semaphore cores places offsets taken }
{
    let state = Held {
        count: s.count,
        semaphore,
        cores,
        places,
        offsets,
    };
    RunAnswer {
        refusal: 0,
        taken,
        state,
    }
}

// The steps of an order, one after another; everything is judged before. A core's registers are read again after its stretch, so that the loop over its
// instructions keeps none of them for later.
pub fn run_order(
    file: &[u8],
    trace: &[u8],
    tasks: [CoreTask; 4],
    first: usize,
    end: usize,
    order: &[u8],
    s: Held,
    aim: Cursor,
    buffer: &mut [u8],
    shared: &mut [u8],
    list: &mut [u8],
) -> RunAnswer
    requires { RunGiven file.now trace.now tasks first end order.now s aim buffer.old shared.old list.old }
    ensures { left_as result buffer.new shared.new list.new
        ≡ ran_call file.now trace.now s buffer.old shared.old order.now list.old }
{
    let mut all = table_of(s); // the registers of all cores
    let places = &mut places_of(s);
    let offsets = &mut offsets_of(s);
    let mut line = semaphore::line_of(s.semaphore);
    let mut cursor = aim;
    let mut taken: usize = 0;
    let n = order.len();
    // no `for`: a stretch of steps is taken at once, and i goes on behind it
    let mut i: usize = 0;
    while i < n {
        let k = core_at(file, order, i);
        if all[k].mode == EXECUTING {
            let c = tasks[k];
            if is_single(file, trace, c, order, i, k, all[k]) {
                match run_single(file, trace, c, k, all[k], places, offsets, buffer) {
                    Single::Advanced(place) => all[k] = protocol::advanced(all[k], place),
                    Single::Otherwise(r) => all[k] = r,
                }
                i += 1;
            } else {
                let x = run_core(file, trace, c, order, i, k, all[k], places, offsets, buffer);
                all[k] = reached_at(all[k], x);
                i = x.step;
            }
        } else if semaphore::waits(line, k) {
            i = past_waiting(file, order, i + 1, line);
        } else {
            let r = all[k];
            let m = steps_ahead(order, i, k, r, tasks[k]);
            if 0 < m {
                // all but the last of the bytes that follow one another, in one go
                let c = tasks[k];
                cursor = steps::move_bytes(r, k, c, file, trace, buffer, shared, end, cursor, m);
                all[k] = bytes_on(r, m);
                i += m;
            } else {
                let turn = semaphore::turn(line.semaphore, k as u8);
                let c = tasks[k];
                let z = steps::exchange_of(r, k, c, file, trace, buffer, shared, end, cursor, turn);
                all[k] = steps::registers_after(z, r);
                line = steps::line_after(z, line, k);
                cursor = steps::cursor_after(z, cursor, file, first, end, k);
                taken = steps::list_taking(z, list, taken, k);
                i += 1;
            }
        }
    }
    ran(s, line.semaphore, all, *places, *offsets, taken)
}
