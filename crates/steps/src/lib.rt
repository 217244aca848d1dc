// Document 01, "One step of a core": what a step of a core in each mode does to its data and to shared memory, and which change of its
// registers goes with it.
// Not here: an instruction (crate `instructions`).
#![tactic(auto)]

mod after;

ghost use Rattle.std.specs.Prelude.{◌≡◌, ◌≢◌, ◌+◌, ◌<◌, ◌≤◌, length, replicate};
ghost use Rattle.memory.specs.Memory.{splice};
ghost use Rattle.exchange.specs.Exchange.{At};
ghost use Rattle.records.specs.File.{variables, record_place};
ghost use Rattle.taskset.specs.Task.{sample_at};
ghost use Rattle.steps.specs.Effects.{Exchanges, ExchangesAlone, ExchangesOn, ExchangesIn};
ghost use Rattle.steps.specs.declared.Exchange.TheVariants.{Joins, WriteBegun};
ghost use Rattle.verdict.specs.Verdict.{pick};
ghost use Rattle.steps.specs.Moving.{StepGiven, CursorAimed, ExchangeGiven};
ghost use Rattle.steps.specs.Bytes.{Ahead, BytesMoved};
ghost use Rattle.protocol.specs.Modes.{between_cycles, reading_exchange, executing, writing_exchange};

pub use after::{cursor_after, line_after, list_taking, registers_after};
use exchange::Cursor;
use protocol::{READING, Registers, WRITING};
use states::CoreTask;

// What one step besides the instructions changes, apart from memory; the run applies it to the core in its table.
#[derive(Clone, Copy)]
pub enum Exchange {
    // nothing: the input records are spent, or the core is stopped
    Rests,
    // it waits for the semaphore, in line
    Joins,
    // a reading takes the semaphore, with the time of its record; one byte of it, and where the next one stands; its release
    ReadBegun(u32),
    ReadOn(Cursor),
    ReadEnded,
    // the same of a writing
    WriteBegun,
    WriteOn(Cursor),
    WriteEnded,
}

// ---- one step of core k, by its mode: c is its task, r its registers, d its data

// Zeros for the first n bytes.
fn clear(d: &mut [u8], n: usize)
    requires { n ≤ length d.old }
    ensures { d.new ≡ splice d.old 0 (replicate n 0) }
{
    d[..n].fill(0);
}

// The input bytes of the record of this cycle go to the first data bytes; its time is the answer. A trace of no bytes means time 0 and zeros.
pub fn take_record(
    r: Registers,
    k: usize,
    c: CoreTask,
    file: &[u8],
    trace: &[u8],
    d: &mut [u8],
) -> u32
    requires { StepGiven file.now trace.now k c r d.old × (r.cycles < c.count) }
    ensures { (result ≡ (sample_at file.now trace.now k r.cycles).time)
        × (d.new ≡ splice d.old 0 (sample_at file.now trace.now k r.cycles).input) }
{
    if trace.len() == 0 {
        clear(d, c.layout.inputs);
        return 0;
    }
    let place = c.records + r.cycles as usize * (4 + c.layout.inputs);
    memory::copy(d, 0, trace, place + 4, c.layout.inputs);
    memory::load(trace, place, 4) as u32
}

// Mode 0: nothing, if the input records are spent; else, in the core's turn, time and inputs of the record of this cycle, and out of it a place in line.
fn begin_reading(
    r: Registers,
    k: usize,
    c: CoreTask,
    file: &[u8],
    trace: &[u8],
    d: &mut [u8],
    turn: bool,
) -> Exchange
    requires { StepGiven file.now trace.now k c r d.old × (r.mode ≡ between_cycles) }
    ensures { ExchangesAlone file.now trace.now k r d.old turn result d.new }
{
    let cycles = r.cycles as usize;
    if c.count <= cycles {
        return Exchange::Rests;
    }
    if !turn {
        return Exchange::Joins;
    }
    Exchange::ReadBegun(take_record(r, k, c, file, trace, d))
}

// Mode 1: the next byte of the read variables, if any is left; if then none is left, release.
fn read_byte(
    r: Registers,
    k: usize,
    c: CoreTask,
    file: &[u8],
    trace: &[u8],
    d: &mut [u8],
    shared: &[u8],
    end: usize,
    cursor: Cursor,
) -> Exchange
    requires { StepGiven file.now trace.now k c r d.old × (r.mode ≡ reading_exchange) × (length shared.now ≡ 1024) × At file.now (4 + k) r.exchange cursor
        × (end ≡ record_place file.now (variables file.now)) }
    ensures { ExchangesOn file.now trace.now k r d.old shared.now result d.new shared.now }
{
    let x = r.exchange as usize;
    if c.reads <= x {
        return Exchange::ReadEnded;
    }
    exchange::bring(file, k, r.exchange, cursor, d, shared);
    if c.reads <= x + 1 {
        return Exchange::ReadEnded;
    }
    Exchange::ReadOn(exchange::onward(file, end, 4 + k, r.exchange, cursor))
}

// Mode 3: in the core's turn a writing takes the semaphore, and out of it the core goes in line.
fn begin_writing(turn: bool) -> Exchange
    ensures { result ≡ pick turn WriteBegun Joins }
{
    if !turn {
        return Exchange::Joins;
    }
    Exchange::WriteBegun
}

// Mode 4: the next byte of the written variables, if any is left; if then none is left, release.
fn write_byte(
    r: Registers,
    k: usize,
    c: CoreTask,
    file: &[u8],
    trace: &[u8],
    d: &[u8],
    shared: &mut [u8],
    end: usize,
    cursor: Cursor,
) -> Exchange
    requires { StepGiven file.now trace.now k c r d.now × (r.mode ≡ writing_exchange) × (length shared.old ≡ 1024) × At file.now k r.exchange cursor
        × (end ≡ record_place file.now (variables file.now)) }
    ensures { ExchangesOn file.now trace.now k r d.now shared.old result d.now shared.new }
{
    let x = r.exchange as usize;
    if c.writes <= x {
        return Exchange::WriteEnded;
    }
    exchange::publish(file, k, r.exchange, cursor, d, shared);
    if c.writes <= x + 1 {
        return Exchange::WriteEnded;
    }
    Exchange::WriteOn(exchange::onward(file, end, k, r.exchange, cursor))
}

// A step of a core that does not execute, by the mode; `turn` says whether it may take the semaphore.
fn exchange_in(
    r: Registers,
    k: usize,
    c: CoreTask,
    file: &[u8],
    trace: &[u8],
    d: &mut [u8],
    shared: &mut [u8],
    end: usize,
    cursor: Cursor,
    turn: bool,
) -> Exchange
    requires { StepGiven file.now trace.now k c r d.old × (r.mode ≢ executing) × (length shared.old ≡ 1024) × CursorAimed file.now k r cursor
        × (end ≡ record_place file.now (variables file.now)) }
    ensures { Exchanges file.now trace.now k r d.old shared.old turn result d.new shared.new }
{
    let mode = r.mode;
    match mode {
        0 => begin_reading(r, k, c, file, trace, d, turn),
        1 => read_byte(r, k, c, file, trace, d, shared, end, cursor),
        3 => begin_writing(turn),
        4 => write_byte(r, k, c, file, trace, d, shared, end, cursor),
        _ => Exchange::Rests,
    }
}

// ---- the same in the data buffer of all cores, of which the step is lent the stretch of core k

// Any step but an instruction; `turn` says whether the core may take the semaphore.
pub fn exchange_of(
    r: Registers,
    k: usize,
    c: CoreTask,
    file: &[u8],
    trace: &[u8],
    buffer: &mut [u8],
    shared: &mut [u8],
    end: usize,
    cursor: Cursor,
    turn: bool,
) -> Exchange
    requires { ExchangeGiven file.now trace.now k c r buffer.old shared.old end cursor × (r.mode ≢ executing) }
    ensures { ExchangesIn file.now trace.now k r buffer.old shared.old turn result buffer.new shared.new }
{
    let a = c.layout.base;
    let e = a + c.layout.size;
    exchange_in(
        r,
        k,
        c,
        file,
        trace,
        &mut buffer[a..e],
        shared,
        end,
        cursor,
        turn,
    )
}

// ---- several bytes of an exchange, none of them its last

// How many bytes a core can copy and leave one of its exchange to copy; 0 where it is in none.
pub fn bytes_ahead(r: Registers, c: CoreTask) -> usize
    ensures { 0 < result → Ahead c r result }
{
    let next = r.exchange as usize + 1;
    let mode = r.mode;
    if mode == READING {
        if next < c.reads {
            return c.reads - next;
        }
    } else if mode == WRITING {
        if next < c.writes {
            return c.writes - next;
        }
    }
    0
}

// `count` bytes, a variable at a time; the answer is where the next one stands.
pub fn move_bytes(
    r: Registers,
    k: usize,
    c: CoreTask,
    file: &[u8],
    trace: &[u8],
    buffer: &mut [u8],
    shared: &mut [u8],
    end: usize,
    cursor: Cursor,
    count: usize,
) -> Cursor
    requires { ExchangeGiven file.now trace.now k c r buffer.old shared.old end cursor × Ahead c r count }
    ensures { BytesMoved file.now k r count result buffer.old shared.old buffer.new shared.new }
{
    let a = c.layout.base;
    let e = a + c.layout.size;
    if r.mode == READING {
        return exchange::bring_bytes(
            file,
            end,
            k,
            r.exchange,
            cursor,
            count,
            &mut buffer[a..e],
            shared,
        );
    }
    exchange::publish_bytes(
        file,
        end,
        k,
        r.exchange,
        cursor,
        count,
        &buffer[a..e],
        shared,
    )
}
