// Document 02, 2.7: what a task will take, before loading it. One pass over each core's code, from its last instruction back.
#![tactic(auto)]

ghost use Rattle.std.specs.Prelude.{◌≡◌, true, [], ◌∷◌, ◌+◌, ◌<◌, ◌≤◌, min, length};
ghost use Rattle.memory.specs.Memory.{byte, splice, part};
ghost use Rattle.code.specs.Commands.{length_of};
ghost use Rattle.code.specs.Flow.{kind_at, target_at};
ghost use Rattle.code.specs.Code.{judge_code};
ghost use Rattle.records.specs.File.{cores};
ghost use Rattle.taskset.specs.Judge.{code_of, judge};
ghost use Rattle.taskset.specs.Layout.{layout_of};
ghost use Rattle.bounds.specs.Bounds.{count_by, depth_by, rises, takes_of, takes_as, MeasuredAs, FoundAs};
ghost use Rattle.verdict.specs.Refusals.{refusal_of};
ghost use Rattle.bounds.specs.Outputs.{outputs, takes_lent};

use machine::SHARED;
use taskset::Layout;
use verdict::Refusal;

// The lengths of the data buffer, shared memory and core table, and each core's greatest count and depth.
#[derive(Clone, Copy)]
pub struct Taken {
    pub buffer: usize,
    pub shared: usize,
    pub table: usize,
    pub count: [u32; 4],
    pub depth: [u32; 4],
}

// Sums are kept at 65,536, one more than the greatest count that is accepted.
const CAP: u32 = 65536;

// The count at the instruction at p, from the one after it and the one at its T.
fn count_at(code: &[u8], p: usize, next: u32, there: u32) -> u32
    requires { p < length code.now }
    ensures { result ≡ min (count_by (kind_at code.now p) next there) 65536 }
{
    let a = next.min(CAP);
    let t = there.min(CAP);
    match code[p] {
        0 => 1,
        1 => (t + 1).min(CAP),
        2..=3 => (a.max(t) + 1).min(CAP),
        4..=5 => (t + a + 1).min(CAP),
        _ => (a + 1).min(CAP),
    }
}

// The depth at it. Count and depth differ in every kind of instruction, as their definitions do.
fn depth_at(code: &[u8], p: usize, next: u32, there: u32) -> u32
    requires { p < length code.now }
    ensures { result ≡ min (depth_by (kind_at code.now p) next there) 65536 }
{
    let a = next.min(CAP);
    let t = there.min(CAP);
    match code[p] {
        0 => 0,
        1 => t,
        2..=3 => a.max(t),
        4..=5 => a.max(t + 1).min(CAP),
        _ => a,
    }
}

// The T of the instruction at p; 0 where it has none.
fn target_at(code: &[u8], p: usize) -> usize
    requires { (p < length code.now) × (p + length_of (byte code.now p) ≤ length code.now) }
    ensures { result ≡ target_at code.now p }
{
    match code[p] {
        1 => code::word(code, p + 1) as usize,
        2 => code::word(code, p + 3) as usize,
        3 => code::word(code, p + 3) as usize,
        4 => code::word(code, p + 3) as usize,
        5 => code::word(code, p + 1) as usize,
        _ => 0,
    }
}

// Whether T, if there is one, is above the instruction.
fn rises_at(code: &[u8], p: usize) -> bool
    requires { (p < length code.now) × (p + length_of (byte code.now p) ≤ length code.now) }
    ensures { result ≡ rises code.now p }
{
    let b = code[p];
    b == 0 || (5 < b || p < target_at(code, p))
}

fn zeros() -> [u32; 8192]
    ensures { length result ≡ 8192 }
{
    [0u32; 8192]
}

// The greatest count and depth of one core.
#[derive(Clone, Copy)]
struct Numbers {
    pub count: u32,
    pub depth: u32,
}

// One pass, from the last instruction back: the numbers, each kept at 65,536, or none where a target is not above its instruction.
fn measure(code: &[u8]) -> Option<Numbers>
    requires { (0 < length code.now) × (length code.now ≤ 8192) × (judge_code code.now ≡ 0) }
    ensures { MeasuredAs code.now result }
{
    let starts = code_judging::starts(code);
    // two arrays, as the laws of `Back` speak of lists of numbers
    let mut counts = zeros();
    let mut depths = zeros();
    let mut count: u32 = 0;
    let mut depth: u32 = 0;
    for p in (0..code.len()).rev() {
        if starts[p] == 1 {
            if !rises_at(code, p) {
                return None;
            }
            let t = target_at(code, p);
            count = count_at(code, p, count, counts[t]);
            depth = depth_at(code, p, depth, depths[t]);
            counts[p] = count;
            depths[p] = depth;
        }
    }
    Some(Numbers { count, depth })
}

// The greatest count that an instruction counter holds.
const MOST_COUNT: u32 = 65535;

// The numbers of accepted code, or its refusal.
fn bounds_in(code: &[u8]) -> Result<Numbers, Refusal>
    requires { (0 < length code.now) × (length code.now ≤ 8192) × (judge_code code.now ≡ 0) }
    ensures { FoundAs code.now result }
{
    match measure(code) {
        None => Err(Refusal::NotAbove),
        Some(numbers) if MOST_COUNT < numbers.count => Err(Refusal::OverCount),
        Some(numbers) => Ok(numbers),
    }
}

// The same of core k's code.
fn core_bounds(file: &[u8], layout: Layout, k: usize) -> Result<Numbers, Refusal>
    requires { (judge file.now ≡ 0) × (layout ≡ layout_of file.now) × (k < cores file.now) }
    ensures { FoundAs (code_of file.now k) result }
{
    let core = layout.core[k];
    let a = core.code;
    let e = a + core.length;
    bounds_in(&file[a..e])
}

// What an accepted file takes.
fn takes_in(file: &[u8], layout: Layout) -> Result<Taken, Refusal>
    requires { (judge file.now ≡ 0) × (layout ≡ layout_of file.now) }
    ensures { takes_as result ≡ takes_of file.now }
{
    let n = layout.cores;
    let mut count = [0u32; 4];
    let mut depth = [0u32; 4];
    for k in 0..n {
        let numbers = core_bounds(file, layout, k)?;
        count[k] = numbers.count;
        depth[k] = numbers.depth;
    }
    Ok(Taken {
        buffer: file_loading::sum_of_sizes(file, layout),
        shared: SHARED,
        table: n,
        count,
        depth,
    })
}

// What a task will take, from the file alone: the file's own refusals, then for each core in turn 25 before 26.
pub fn takes(file: &[u8]) -> Result<Taken, Refusal>
    ensures { takes_as result ≡ takes_of file.now }
{
    let layout = file_loading::load_file(file)?;
    takes_in(file, layout)
}

// ---- the answer in lent places

fn put_lengths(lengths: &mut [usize], buffer: usize, shared: usize, table: usize)
    requires { 3 ≤ length lengths.old }
    ensures { lengths.new ≡ splice lengths.old 0 (buffer ∷ shared ∷ table ∷ []) }
{
    lengths[0] = buffer;
    lengths[1] = shared;
    lengths[2] = table;
}

// The first n numbers of a column.
fn put_column(places: &mut [u32], column: [u32; 4], n: usize)
    requires { (n ≤ length places.old) × (n ≤ length column) }
    ensures { places.new ≡ splice places.old 0 (part column 0 n) }
{
    for i in 0..n {
        places[i] = column[i];
    }
}

// What a task will take, in lent places: the lengths of data buffer, shared memory and core table, then a count and a depth for each core. Places
// past those stay; a refused call changes none.
pub fn takes_to(
    file: &[u8],
    lengths: &mut [usize],
    counts: &mut [u32],
    depths: &mut [u32],
) -> Result<(), Refusal>
    ensures { outputs (refusal_of result) lengths.new counts.new depths.new ≡ takes_lent file.now lengths.old counts.old depths.old }
{
    let taken = takes(file)?;
    if lengths.len() < 3 || counts.len() < taken.table || depths.len() < taken.table {
        return Err(Refusal::BadLengths);
    }
    put_lengths(lengths, taken.buffer, taken.shared, taken.table);
    put_column(counts, taken.count, taken.table);
    put_column(depths, taken.depth, taken.table);
    Ok(())
}
