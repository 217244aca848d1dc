// The machine's calls on a snapshot of the core table: its first four records copied out, by value. The calls on a lent table (crate rikzord) copy it out,
// call these, and store what they leave.
// Not here: a table as a state, and back (src/table_state.rt); the calls that move the machine, a step and a run (crate `table_runs`) and a rerun (crate `table_rerun`).
#![tactic(auto)]

mod table_state;

ghost use Rattle.std.specs.Prelude.{◌≡◌, [], ◌+◌, ◌<◌};
ghost use Rattle.verdict.specs.Verdict.{next};
ghost use Rattle.verdict.specs.Numbers.{bad_lengths};
ghost use Rattle.verdict.specs.Refusals.{number_of};
ghost use Rattle.code.specs.declared.Profile.TheVariants.{Small};
ghost use Rattle.taskset.specs.Judge.{judge_for};
ghost use Rattle.snapshot.specs.Snapshot.{no_record, table_from, counted, table_left, fresh_table_for, fresh_table, ring_of, refused_ring, place_after, record_moves, answered, ring_answer};

use code::Profile;
use protocol::Registers;
use semaphore::Semaphore;
use table_state::record_of;
pub use table_state::{accepted, state_of, unchanged};
use verdict::Refusal;

// A record of the core table: a core's registers and call stack, in 84 bytes of which each belongs to a field, so that what a call says of the
// fields it says of every byte. Spare bytes are never judged, and a record that a call writes has zeros there.
#[repr(C)]
#[derive(Clone, Copy)]
pub struct CoreRecord {
    pub time: u32,
    pub counter: u16,
    pub offset: u16,
    pub count: u16,
    pub exchange: u16,
    pub cycles: u16,
    pub mode: u8,
    pub depth: u8,
    pub flags: u8,
    pub spare: [u8; 3],
    pub places: [u16; 16], // the return places of its open calls
    pub offsets: [u16; 16], // the data offsets that go with them
}

// A table copied out: how many records it has, 255 for more, and its first four; zeros where it has fewer.
#[derive(Clone, Copy)]
pub struct Table {
    pub count: u8,
    pub cores: [CoreRecord; 4],
}

// ---- what a call leaves of a table

// The refusal number, the table's first four records, and the semaphore.
#[derive(Clone, Copy)]
pub struct After {
    pub refusal: u8,
    pub a: CoreRecord,
    pub b: CoreRecord,
    pub c: CoreRecord,
    pub d: CoreRecord,
    pub semaphore: Semaphore,
}

// ---- the calls on a table copied out

// The fresh state under a profile. A table of fewer than n records is too short.
fn fresh_table_for(
    profile: Profile,
    file: &[u8],
    t: Table,
    semaphore: Semaphore,
    buffer: &mut [u8],
    shared: &mut [u8],
) -> After
    ensures { table_left result buffer.new shared.new [] ≡ fresh_table_for profile file.now t semaphore buffer.old shared.old }
{
    if t.count < memory::byte_at(file, 4) {
        return unchanged(t, semaphore, short_refusal(profile, file).number());
    }
    let made = machine::fresh_for(profile, file, buffer, shared);
    if made.refusal != 0 {
        return unchanged(t, semaphore, made.refusal);
    }
    accepted(t, made.state)
}

// Under the full profile.
pub fn fresh_table(
    file: &[u8],
    t: Table,
    semaphore: Semaphore,
    buffer: &mut [u8],
    shared: &mut [u8],
) -> After
    ensures { table_left result buffer.new shared.new [] ≡ fresh_table file.now t semaphore buffer.old shared.old }
{
    fresh_table_for(Profile::Full, file, t, semaphore, buffer, shared)
}

// Under the small one.
pub fn fresh_small_table(
    file: &[u8],
    t: Table,
    semaphore: Semaphore,
    buffer: &mut [u8],
    shared: &mut [u8],
) -> After
    ensures { table_left result buffer.new shared.new [] ≡ fresh_table_for Small file.now t semaphore buffer.old shared.old }
{
    fresh_table_for(Profile::Small, file, t, semaphore, buffer, shared)
}

// The refusal where the table is too short: the file is judged first.
pub fn short_refusal(profile: Profile, file: &[u8]) -> Refusal
    ensures { number_of result ≡ next (judge_for profile file.now) bad_lengths }
{
    match file_judging::judge_file_for(profile, file) {
        Ok(()) => Refusal::BadLengths,
        Err(refusal) => refusal,
    }
}

// ---- the ring of cores, and the test of one record

// What a scan of the table needs beside its records. Where the call is refused there are no cores to scan. The refusal stands in it as a number, since
// `found_in` answers for every ring, a refused one too (`ring_answer`).
#[derive(Clone, Copy)]
pub struct Ring {
    pub refusal: u8,
    pub cores: u8,
    pub given: u8,
    pub semaphore: Semaphore,
    pub counts: [usize; 4], // the input records of each core
}

// Judges the call for the next core, on the table copied out, and gives what the scan needs.
pub fn ring_of(file: &[u8], trace: &[u8], t: Table, semaphore: Semaphore, given: u8) -> Ring
    ensures { result ≡ ring_of file.now trace.now t semaphore given }
{
    let s = state_of(t, semaphore);
    let layout = match file_loading::load_file(file) {
        Ok(layout) => layout,
        Err(refusal) => return no_ring(refusal, given, semaphore),
    };
    let tasks = match fitness::prepare(file, trace, layout, s) {
        Ok(tasks) => tasks,
        Err(refused) => return no_ring(refused.refusal, given, semaphore),
    };
    if layout.cores <= given as usize {
        return no_ring(Refusal::NoSuchCore, given, semaphore);
    }
    let counts = [
        tasks[0].count,
        tasks[1].count,
        tasks[2].count,
        tasks[3].count,
    ];
    Ring {
        refusal: 0,
        cores: layout.cores as u8,
        given,
        semaphore,
        counts,
    }
}

fn no_ring(refusal: Refusal, given: u8, semaphore: Semaphore) -> Ring
    ensures { result ≡ refused_ring (number_of refusal) given semaphore }
{
    let counts = [0usize; 4];
    Ring {
        refusal: refusal.number(),
        cores: 0,
        given,
        semaphore,
        counts,
    }
}

// Core number i + 1 after the given one, round the ring.
pub fn place_after(r: Ring, i: u8) -> u8
    ensures { result ≡ place_after r i }
{
    if r.cores == 0 {
        return 0;
    }
    ((r.given as usize + (i as usize + 1)) % (r.cores as usize)) as u8
}

// Whether core k, which has this record, can move: the test by value.
pub fn moves(r: Ring, k: u8, c: CoreRecord) -> bool
    ensures { result ≡ record_moves r k c }
{
    if 4 <= k {
        return table::can_move(0, r.semaphore, k, Registers::from(c));
    }
    let count = r.counts[k as usize];
    table::can_move(count, r.semaphore, k, Registers::from(c))
}

// The number of the core that moves next, where the call is not refused.
pub fn found_in(r: Ring, k: u8, found: &mut u8) -> u8
    ensures { answered result found.new ≡ ring_answer r k found.old }
{
    if r.refusal != 0 {
        return r.refusal;
    }
    *found = k;
    0
}

// ---- a table from its records

// A record of zeros.
pub fn no_record() -> CoreRecord
    ensures { result ≡ no_record }
{
    let registers = Registers {
        mode: protocol::BETWEEN,
        counter: 0,
        offset: 0,
        depth: 0,
        count: 0,
        exchange: 0,
        cycles: 0,
        flags: 0,
        time: 0,
    };
    let places = [0u16; 16];
    let offsets = [0u16; 16];
    record_of(registers, places, offsets)
}

// How many records a table has, in one byte.
fn table_count(n: usize) -> u8
    ensures { result ≡ counted n }
{
    if n < 255 {
        return n as u8;
    }
    255
}

pub fn table_from(a: CoreRecord, b: CoreRecord, c: CoreRecord, d: CoreRecord, n: usize) -> Table
    ensures { result ≡ table_from a b c d n }
{
    let count = table_count(n);
    let cores = [a, b, c, d];
    Table { count, cores }
}
