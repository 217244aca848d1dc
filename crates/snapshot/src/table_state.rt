// A core table as the state that the machine holds, and back: the state of a table and its semaphore, and what a call leaves of them.
// Not here: the table's records, the calls themselves (src/lib.rt).
ghost use Rattle.std.specs.Prelude.{◌≡◌, ◌+◌, ◌*◌, ◌<◌, ◌≤◌, length};
ghost use Rattle.memory.specs.Memory.{splice, part};
ghost use Rattle.snapshot.specs.Snapshot.{entries, registers_in, record_with, held_places, held_offsets, held, core_of, record_after, accepted_of, refused_of};

use super::{After, CoreRecord, Table};
use protocol::Registers;
use semaphore::Semaphore;
use states::Held;

// ---- a table as a state, and back

// The registers of a record.
impl From<CoreRecord> for Registers {
    ghost from_gives = { λ c r. r ≡ registers_in c };

    fn from(c: CoreRecord) -> Registers {
        Registers {
            mode: c.mode,
            counter: c.counter,
            offset: c.offset,
            depth: c.depth,
            count: c.count,
            exchange: c.exchange,
            cycles: c.cycles,
            flags: c.flags,
            time: c.time,
        }
    }
}

// A record of these registers and this call stack: of three parts, so no `From`.
pub fn record_of(r: Registers, places: [u16; 16], offsets: [u16; 16]) -> CoreRecord
    ensures { result ≡ record_with r places offsets }
{
    let spare = [0u8; 3];
    CoreRecord {
        time: r.time,
        counter: r.counter,
        offset: r.offset,
        count: r.count,
        exchange: r.exchange,
        cycles: r.cycles,
        mode: r.mode,
        depth: r.depth,
        flags: r.flags,
        spare,
        places,
        offsets,
    }
}

// Copies n entries from src[from..] to dst[to..].
fn copy_entries(dst: &mut [u16], to: usize, src: &[u16], from: usize, n: usize)
    requires { (to + n ≤ length dst.old) × (from + n ≤ length src.now) }
    ensures { dst.new ≡ splice dst.old to (part src.now from n) }
{
    dst[to..to + n].copy_from_slice(&src[from..from + n]);
}

// The entries of four call stacks, end to end.
fn join(a: [u16; 16], b: [u16; 16], c: [u16; 16], d: [u16; 16]) -> [u16; 64]
    ensures { result ≡ entries a b c d }
{
    let mut all = [0u16; 64];
    copy_entries(&mut all, 0, &a, 0, 16);
    copy_entries(&mut all, 16, &b, 0, 16);
    copy_entries(&mut all, 32, &c, 0, 16);
    copy_entries(&mut all, 48, &d, 0, 16);
    all
}

// The entries of core k's call stack.
fn stack_of(all: [u16; 64], k: usize) -> [u16; 16]
    requires { k < 4 }
    ensures { result ≡ part all (16 * k) 16 }
{
    let mut stack = [0u16; 16];
    copy_entries(&mut stack, 0, &all, 16 * k, 16);
    stack
}

// The return places of a table's four cores.
fn table_places(t: Table) -> [u16; 64]
    ensures { result ≡ held_places t }
{
    let [a, b, c, d] = t.cores;
    join(a.places, b.places, c.places, d.places)
}

// The data offsets that go with them.
fn table_offsets(t: Table) -> [u16; 64]
    ensures { result ≡ held_offsets t }
{
    let [a, b, c, d] = t.cores;
    join(a.offsets, b.offsets, c.offsets, d.offsets)
}

// The state that a table holds.
pub fn state_of(t: Table, semaphore: Semaphore) -> Held
    ensures { result ≡ held t semaphore }
{
    let [a, b, c, d] = t.cores;
    let cores = [
        Registers::from(a),
        Registers::from(b),
        Registers::from(c),
        Registers::from(d),
    ];
    let places = table_places(t);
    let offsets = table_offsets(t);
    Held {
        count: t.count,
        semaphore,
        cores,
        places,
        offsets,
    }
}

// The record of core k of a state.
fn core_of(s: Held, k: usize) -> CoreRecord
    requires { k < 4 }
    ensures { result ≡ core_of s k }
{
    record_of(s.cores[k], stack_of(s.places, k), stack_of(s.offsets, k))
}

// Record k after a call that is not refused and leaves the state s.
fn record_after(t: Table, s: Held, k: usize) -> CoreRecord
    requires { k < 4 }
    ensures { result ≡ record_after t s k }
{
    if s.count as usize <= k {
        return t.cores[k];
    }
    core_of(s, k)
}

pub fn accepted(t: Table, s: Held) -> After
    ensures { result ≡ accepted_of t s }
{
    let a = record_after(t, s, 0);
    let b = record_after(t, s, 1);
    let c = record_after(t, s, 2);
    let d = record_after(t, s, 3);
    let semaphore = s.semaphore;
    After {
        refusal: 0,
        a,
        b,
        c,
        d,
        semaphore,
    }
}

pub fn unchanged(t: Table, semaphore: Semaphore, number: u8) -> After
    ensures { result ≡ refused_of t semaphore number }
{
    let [a, b, c, d] = t.cores;
    After {
        refusal: number,
        a,
        b,
        c,
        d,
        semaphore,
    }
}
