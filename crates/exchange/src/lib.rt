// Document 01, exchanges byte by byte: where an exchange under way stands, without a walk over all variables for each byte. Only the
// semaphore's holder exchanges, so one cursor serves the whole machine.
// In order: the search for a variable; the cursor; the bytes of an exchange; the copy of one byte; the copy of a stretch of bytes; the copy of all.
// `first` and `end` are the places of the first variable's record and past the last; `bit` picks the exchange: k for the writing of
// core k, 4 + k for its reading; x is the exchange number.
#![tactic(auto)]

ghost use Rattle.std.specs.Prelude.{◌≡◌, true, ◌+◌, ◌*◌, ◌≤◌, ◌<◌, length, take, drop};
ghost use Rattle.memory.specs.Memory.{word, splice, part};
ghost use Rattle.protocol.specs.Step.{copy};
ghost use Rattle.protocol.specs.Variables.{reads_of, writes_of};
ghost use Rattle.records.specs.File.{cores, data_size, variables, record_place};
ghost use Rattle.taskset.specs.Task.{variables_of};
ghost use Rattle.exchange.specs.Exchange.{At};
ghost use Rattle.exchange.specs.Laid.{Laid, takes_part, exchange_bytes, RecordAt, Passed};
ghost use Rattle.exchange.specs.Carried.{Lies, BytesCarried, AllCarried};

// The variable's record in the file, and the byte within the variable.
#[derive(Clone, Copy)]
pub struct Cursor {
    pub record: usize,
    pub byte: usize,
}

const WIDTH: usize = 2;

const ATTRIBUTE: usize = 3;

const LOCAL: usize = 4;

// ---- the search for a variable

// The bit of the attribute byte of the record at `place`.
fn named(file: &[u8], place: usize, bit: usize) -> bool
    requires { (place + 12 ≤ length file.now) × (bit < 8) }
    ensures { result ≡ takes_part file.now bit place }
{
    (file[place + ATTRIBUTE] >> bit) & 1 == 1
}

// The first record from `from` on that has the bit, or the end.
fn seek(file: &[u8], from: usize, end: usize, bit: usize) -> usize
    requires { Laid file.now × (end ≡ record_place file.now (variables file.now)) × (bit < 8) × RecordAt file.now from }
    ensures { Passed file.now bit from result × (result < end → takes_part file.now bit result ≡ true) }
{
    for place in (from..end).step_by(records::VARIABLE_RECORD) {
        if named(file, place, bit) {
            return place;
        }
    }
    end
}

// ---- the cursor

// At the first byte of an exchange.
pub fn start(file: &[u8], first: usize, end: usize, bit: usize) -> Cursor
    requires { Laid file.now × (first ≡ record_place file.now 0) × (end ≡ record_place file.now (variables file.now)) × (bit < 8) }
    ensures { At file.now bit 0 result }
{
    let place = seek(file, first, end, bit);
    Cursor {
        record: place,
        byte: 0,
    }
}

// One byte further.
pub fn onward(file: &[u8], end: usize, bit: usize, x: u16, cursor: Cursor) -> Cursor
    requires { Laid file.now × (end ≡ record_place file.now (variables file.now)) × (bit < 8) × At file.now bit x cursor × (x < exchange_bytes file.now bit) }
    ensures { At file.now bit (x + 1) result }
{
    let place = cursor.record;
    let byte = cursor.byte + 1;
    if byte < (file[place + WIDTH] as usize) {
        return Cursor {
            record: place,
            byte: byte,
        };
    }
    let next = seek(file, place + records::VARIABLE_RECORD, end, bit);
    Cursor {
        record: next,
        byte: 0,
    }
}

// After x bytes: once, where a run starts from a given state.
pub fn locate(file: &[u8], first: usize, end: usize, bit: usize, x: u16) -> Cursor
    requires { Laid file.now × (first ≡ record_place file.now 0) × (end ≡ record_place file.now (variables file.now)) × (bit < 8) × (x ≤ exchange_bytes file.now bit) }
    ensures { At file.now bit x result }
{
    let mut cursor = start(file, first, end, bit);
    for i in 0..x {
        cursor = onward(file, end, bit, i, cursor);
    }
    cursor
}

// ---- the bytes of an exchange

pub fn bytes(file: &[u8], first: usize, end: usize, bit: usize) -> usize
    requires { Laid file.now × (first ≡ record_place file.now 0) × (end ≡ record_place file.now (variables file.now)) × (bit < 8) }
    ensures { (result ≡ exchange_bytes file.now bit) × (result ≤ 512) }
{
    let mut total: usize = 0;
    for place in (first..end).step_by(records::VARIABLE_RECORD) {
        if named(file, place, bit) {
            total += file[place + WIDTH] as usize;
        }
    }
    total
}

// ---- the copy of one byte

// The place that the record has at `place`, and the byte in it.
fn byte_place(file: &[u8], place: usize, byte: usize) -> usize
    requires { (place + 2 ≤ length file.now) × (byte < 8) }
    ensures { result ≡ word file.now place + byte }
{
    (code::word(file, place) as usize) + byte
}

// Byte x of core k's reading, from shared memory to its data d.
pub fn bring(file: &[u8], k: usize, x: u16, cursor: Cursor, d: &mut [u8], shared: &[u8])
    requires { Laid file.now × (k < cores file.now) × At file.now (4 + k) x cursor × (x < exchange_bytes file.now (4 + k))
        × (length d.old ≡ data_size file.now k) × (length shared.now ≡ 1024) }
    ensures { d.new ≡ copy (take 1 (drop x (reads_of (variables_of file.now) k))) shared.now d.old }
{
    let place = cursor.record;
    let byte = cursor.byte;
    let from = byte_place(file, place, byte);
    let to = byte_place(file, place + LOCAL + 2 * k, byte);
    d[to] = shared[from];
}

// Byte x of core k's writing, from its data d to shared memory.
pub fn publish(file: &[u8], k: usize, x: u16, cursor: Cursor, d: &[u8], shared: &mut [u8])
    requires { Laid file.now × (k < cores file.now) × At file.now k x cursor × (x < exchange_bytes file.now k) × (length d.now ≡ data_size file.now k) × (length shared.old ≡ 1024) }
    ensures { shared.new ≡ copy (take 1 (drop x (writes_of (variables_of file.now) k))) d.now shared.old }
{
    let place = cursor.record;
    let byte = cursor.byte;
    let from = byte_place(file, place + LOCAL + 2 * k, byte);
    let to = byte_place(file, place, byte);
    shared[to] = d[from];
}

// ---- the copy of a stretch of bytes, a variable at a time

// Eight bytes in one move.
fn copy_word(dst: &mut [u8], to: usize, src: &[u8], from: usize)
    requires { (to + 8 ≤ length dst.old) × (from + 8 ≤ length src.now) }
    ensures { dst.new ≡ splice dst.old to (part src.now from 8) }
{
    let mut bytes: [u8; 8] = [0; 8];
    memory::copy(&mut bytes, 0, src, from, 8);
    memory::copy(dst, to, &bytes, 0, 8);
}

// n bytes of a variable; most variables have eight, and are copied whole.
fn copy_bytes(dst: &mut [u8], to: usize, src: &[u8], from: usize, n: usize)
    requires { (to + n ≤ length dst.old) × (from + n ≤ length src.now) }
    ensures { dst.new ≡ splice dst.old to (part src.now from n) }
{
    if n == 8 {
        copy_word(dst, to, src, from);
    } else {
        memory::copy(dst, to, src, from, n);
    }
}

// The bytes of the exchange of this bit from number x on, `count` of them, from src to dst; a variable's record has at `source` and at `target` where
// its bytes lie in each. One function for both directions.
fn carry(
    file: &[u8],
    end: usize,
    bit: usize,
    source: usize,
    target: usize,
    x: u16,
    cursor: Cursor,
    count: usize,
    src: &[u8],
    dst: &mut [u8],
) -> Cursor
    requires { Laid file.now × (end ≡ record_place file.now (variables file.now)) × (bit < 8) × (source ≤ 10) × (target ≤ 10) × At file.now bit x cursor
        × (x + count ≤ exchange_bytes file.now bit) × Lies file.now bit source (length src.now) × Lies file.now bit target (length dst.old) }
    ensures { At file.now bit (x + count) result × BytesCarried file.now bit source target x count src.now dst.old dst.new }
{
    let mut place = cursor.record;
    let mut byte = cursor.byte;
    let mut left = count;
    while 0 < left {
        let width = file[place + WIDTH] as usize;
        let n = (width - byte).min(left);
        let from = byte_place(file, place + source, byte);
        let to = byte_place(file, place + target, byte);
        copy_bytes(dst, to, src, from, n);
        byte += n;
        left -= n;
        if byte == width {
            place = seek(file, place + records::VARIABLE_RECORD, end, bit);
            byte = 0;
        }
    }
    Cursor {
        record: place,
        byte,
    }
}

// Bytes of core k's reading.
pub fn bring_bytes(
    file: &[u8],
    end: usize,
    k: usize,
    x: u16,
    cursor: Cursor,
    count: usize,
    d: &mut [u8],
    shared: &[u8],
) -> Cursor
    requires { Laid file.now × (k < cores file.now) × (end ≡ record_place file.now (variables file.now)) × At file.now (4 + k) x cursor
        × (x + count ≤ exchange_bytes file.now (4 + k)) × (length d.old ≡ data_size file.now k) × (length shared.now ≡ 1024) }
    ensures { At file.now (4 + k) (x + count) result
        × (d.new ≡ copy (take count (drop x (reads_of (variables_of file.now) k))) shared.now d.old) }
{
    carry(
        file,
        end,
        4 + k,
        0,
        LOCAL + 2 * k,
        x,
        cursor,
        count,
        shared,
        d,
    )
}

// Bytes of core k's writing.
pub fn publish_bytes(
    file: &[u8],
    end: usize,
    k: usize,
    x: u16,
    cursor: Cursor,
    count: usize,
    d: &[u8],
    shared: &mut [u8],
) -> Cursor
    requires { Laid file.now × (k < cores file.now) × (end ≡ record_place file.now (variables file.now)) × At file.now k x cursor
        × (x + count ≤ exchange_bytes file.now k) × (length d.now ≡ data_size file.now k) × (length shared.old ≡ 1024) }
    ensures { At file.now k (x + count) result
        × (shared.new ≡ copy (take count (drop x (writes_of (variables_of file.now) k))) d.now shared.old) }
{
    carry(file, end, k, LOCAL + 2 * k, 0, x, cursor, count, d, shared)
}

// ---- the copy of all bytes, a variable at a time

// All bytes of the exchange of this bit, from src to dst, as `carry` copies a stretch of them.
fn carry_all(
    file: &[u8],
    first: usize,
    end: usize,
    bit: usize,
    source: usize,
    target: usize,
    src: &[u8],
    dst: &mut [u8],
)
    requires { Laid file.now × (first ≡ record_place file.now 0) × (end ≡ record_place file.now (variables file.now)) × (bit < 8) × (source ≤ 10) × (target ≤ 10)
        × Lies file.now bit source (length src.now) × Lies file.now bit target (length dst.old) }
    ensures { AllCarried file.now bit source target src.now dst.old dst.new }
{
    for place in (first..end).step_by(records::VARIABLE_RECORD) {
        if named(file, place, bit) {
            let from = code::word(file, place + source) as usize;
            let to = code::word(file, place + target) as usize;
            memory::copy(dst, to, src, from, file[place + WIDTH] as usize);
        }
    }
}

// Core k's reading, whole.
pub fn bring_all(file: &[u8], first: usize, end: usize, k: usize, d: &mut [u8], shared: &[u8])
    requires { Laid file.now × (k < cores file.now) × (first ≡ record_place file.now 0) × (end ≡ record_place file.now (variables file.now))
        × (length d.old ≡ data_size file.now k) × (length shared.now ≡ 1024) }
    ensures { d.new ≡ copy (reads_of (variables_of file.now) k) shared.now d.old }
{
    carry_all(file, first, end, 4 + k, 0, LOCAL + 2 * k, shared, d);
}

// Core k's writing, whole.
pub fn publish_all(file: &[u8], first: usize, end: usize, k: usize, d: &[u8], shared: &mut [u8])
    requires { Laid file.now × (k < cores file.now) × (first ≡ record_place file.now 0) × (end ≡ record_place file.now (variables file.now))
        × (length d.now ≡ data_size file.now k) × (length shared.old ≡ 1024) }
    ensures { shared.new ≡ copy (writes_of (variables_of file.now) k) d.now shared.old }
{
    carry_all(file, first, end, k, LOCAL + 2 * k, 0, d, shared);
}
