// A step and a run on a snapshot of the core table, its first four records copied out; and a step that is lent the registers of its core alone.
// Not here: the table, what a call leaves of it, and the definitions of these calls (crate `snapshot`); a step and a run by value (crate `runs`).
#![tactic(auto)]

ghost use Rattle.std.specs.Prelude.{◌≡◌, [], set};
ghost use Rattle.runner.specs.Runs.{left_as};
ghost use Rattle.snapshot.specs.Snapshot.{table_left, step_table, run_table, taken_table, with_registers, registers_after, step_registers};

use protocol::Registers;
use runner::RunAnswer;
use semaphore::Semaphore;
use snapshot::{After, Table, accepted, state_of, unchanged};
use states::Held;

// ---- the calls on a table copied out

pub fn step_table(
    file: &[u8],
    trace: &[u8],
    t: Table,
    semaphore: Semaphore,
    buffer: &mut [u8],
    shared: &mut [u8],
    core: u8,
) -> After
    ensures { table_left result buffer.new shared.new [] ≡ step_table file.now trace.now t semaphore buffer.old shared.old core }
{
    let s = state_of(t, semaphore);
    let stepped = runs::step(file, trace, s, buffer, shared, core);
    if stepped.refusal != 0 {
        return unchanged(t, semaphore, stepped.refusal);
    }
    accepted(t, stepped.state)
}

pub fn run_table(
    file: &[u8],
    trace: &[u8],
    t: Table,
    semaphore: Semaphore,
    buffer: &mut [u8],
    shared: &mut [u8],
    order: &[u8],
    list: &mut [u8],
    taken: &mut usize,
) -> After
    ensures { (table_left result buffer.new shared.new list.new
        ≡ run_table file.now trace.now t semaphore buffer.old shared.old order.now list.old)
        × (taken.new ≡ taken_table file.now trace.now t semaphore buffer.old shared.old order.now
        list.old taken.old) }
{
    let s = state_of(t, semaphore);
    let ran = runs::run(file, trace, s, buffer, shared, order, list);
    if ran.refusal != 0 {
        return unchanged(t, semaphore, ran.refusal);
    }
    *taken = ran.taken;
    accepted(t, ran.state)
}

// ---- the registers of one core

// What a step answers that is lent the registers of its core: these, and the answer by value.
#[derive(Clone, Copy)]
pub struct Stepped {
    pub registers: Registers,
    pub ran: RunAnswer,
}

fn set_registers(cores: [Registers; 4], k: usize, r: Registers) -> [Registers; 4]
    ensures { result ≡ set cores k r }
{
    let mut l = cores;
    if k < 4 {
        l[k] = r;
        return l;
    }
    l
}

// The state with these registers for core k.
fn with_registers(s: Held, k: usize, r: Registers) -> Held
    ensures { result ≡ with_registers s k r }
{
    let old = s.cores;
    let cores = set_registers(old, k, r);
    let places = s.places;
    let offsets = s.offsets;
    let held = s.semaphore;
    Held {
        count: s.count,
        semaphore: held,
        cores,
        places,
        offsets,
    }
}

// Core k's registers of a state; r where there is no core k.
fn registers_of(s: Held, k: usize, r: Registers) -> Registers
    ensures { result ≡ registers_after s k r }
{
    if k < 4 {
        return s.cores[k];
    }
    r
}

pub fn step_with(
    file: &[u8],
    trace: &[u8],
    s: Held,
    registers: Registers,
    buffer: &mut [u8],
    shared: &mut [u8],
    core: u8,
) -> Stepped
    ensures { (left_as result.ran buffer.new shared.new []
        ≡ step_registers file.now trace.now s registers buffer.old shared.old core)
        × (result.registers ≡ registers_after result.ran.state core registers) }
{
    let k = core as usize;
    let ran = runs::step(
        file,
        trace,
        with_registers(s, k, registers),
        buffer,
        shared,
        core,
    );
    let after = registers_of(ran.state, k, registers);
    Stepped {
        registers: after,
        ran,
    }
}
