// Document 02, 2.9, whole cycles, one after another: the test of its condition, which a user can ask of a task set file. The theorem itself, of the
// real machine and its calls, and three cores in a ring are in specs and proofs.
// In order: lines between two cores; cores that read each other; rings; the call; its byte.
#![tactic(auto)]

ghost use Rattle.std.specs.Prelude.{◌≡◌, not, ◌+◌, ◌≤◌, ◌<◌, length};
ghost use Rattle.verdict.specs.Refusals.{numbered};
ghost use Rattle.verdict.specs.Verdict.{both};
ghost use Rattle.protocol.specs.Variables.{reads_it, writes_it};
ghost use Rattle.protocol.specs.Cycles.{reads_from, line_between, is_one_way, no_ring};
ghost use Rattle.records.specs.File.{variable_in};
ghost use Rattle.taskset.specs.Judge.{judge};
ghost use Rattle.taskset.specs.Task.{variables_of};
ghost use Rattle.cycles.specs.Check.{lines_of, lines_byte};
ghost use Rattle.cycles.specs.Rings.{closed};

use verdict::Refusal;

// ---- lines between two cores

// Whether core r reads the variable of a record and core w writes it.
fn passes(file: &[u8], place: usize, r: usize, w: usize) -> bool
    requires { (place + 12 ≤ length file.now) × (r < 4) × (w < 4) }
    ensures { result ≡ both (reads_it r (variable_in file.now place)) (writes_it w (variable_in file.now place)) }
{
    records::reads(file, place, r) && records::writes(file, place, w)
}

// Whether core r reads a variable that core w writes.
fn reads_from(file: &[u8], r: usize, w: usize) -> bool
    requires { (judge file.now ≡ 0) × (r < 4) × (w < 4) }
    ensures { result ≡ reads_from (variables_of file.now) r w }
{
    let at = 5 + records::CORE_RECORD * (memory::byte_at(file, 4) as usize);
    let n = memory::byte_at(file, at) as usize;
    for i in 0..n {
        if passes(file, at + 1 + records::VARIABLE_RECORD * i, r, w) {
            return true;
        }
    }
    false
}

// Whether there is a line between two cores.
fn line_between(file: &[u8], j: usize, k: usize) -> bool
    requires { (judge file.now ≡ 0) × (j < 4) × (k < 4) }
    ensures { result ≡ line_between (variables_of file.now) j k }
{
    reads_from(file, j, k) || reads_from(file, k, j)
}

// ---- cores that read each other

// Whether two cores read each other.
fn each_other(file: &[u8], j: usize, k: usize) -> bool
    requires { (judge file.now ≡ 0) × (j < 4) × (k < 4) }
    ensures { result ≡ both (reads_from (variables_of file.now) j k) (reads_from (variables_of file.now) k j) }
{
    reads_from(file, j, k) && reads_from(file, k, j)
}

// Whether any two do.
fn any_each_other(file: &[u8]) -> bool
    requires { judge file.now ≡ 0 }
    ensures { result ≡ not (is_one_way (reads_from (variables_of file.now))) }
{
    // A return for each pair: a chain of `||` joins its tests, and the proof no longer tells which of them held.
    if each_other(file, 0, 1) {
        return true;
    }
    if each_other(file, 0, 2) {
        return true;
    }
    if each_other(file, 0, 3) {
        return true;
    }
    if each_other(file, 1, 2) {
        return true;
    }
    if each_other(file, 1, 3) {
        return true;
    }
    each_other(file, 2, 3)
}

// ---- rings: the lines between cores 0 and 1, 0 and 2, and so on

fn three(a: bool, b: bool, c: bool) -> bool
    ensures { result ≡ both a (both b c) }
{
    a && b && c
}

fn four(a: bool, b: bool, c: bool, d: bool) -> bool
    ensures { result ≡ both a (both b (both c d)) }
{
    a && three(b, c, d)
}

// Whether lines close a ring: one of four rings of three cores, or of three rings of four.
fn closed(l01: bool, l02: bool, l03: bool, l12: bool, l13: bool, l23: bool) -> bool
    ensures { result ≡ closed l01 l02 l03 l12 l13 l23 }
{
    // A return for each ring, for the same reason.
    if three(l01, l12, l02) {
        return true;
    }
    if three(l01, l13, l03) {
        return true;
    }
    if three(l02, l23, l03) {
        return true;
    }
    if three(l12, l23, l13) {
        return true;
    }
    if four(l01, l12, l23, l03) {
        return true;
    }
    if four(l01, l13, l23, l02) {
        return true;
    }
    four(l02, l12, l13, l03)
}

fn any_ring(file: &[u8]) -> bool
    requires { judge file.now ≡ 0 }
    ensures { result ≡ not (no_ring (line_between (variables_of file.now))) }
{
    let l01 = line_between(file, 0, 1);
    let l02 = line_between(file, 0, 2);
    let l03 = line_between(file, 0, 3);
    let l12 = line_between(file, 1, 2);
    let l13 = line_between(file, 1, 3);
    let l23 = line_between(file, 2, 3);
    closed(l01, l02, l03, l12, l13, l23)
}

// ---- the call

// What the lines of a task set file are.
#[derive(Clone, Copy)]
pub enum Lines {
    Free, // no two cores read each other, and no ring: runs end as an order of whole cycles
    EachOther, // two cores read each other
    Ringed, // no two do, and the lines form a ring
}

// Whether a run of the file's cores always ends as an order of whole cycles, as far as the lines between them tell.
pub fn check_cycles(file: &[u8]) -> Result<Lines, Refusal>
    ensures { numbered result ≡ lines_of file.now }
{
    file_judging::judge_file(file)?;
    if any_each_other(file) {
        return Ok(Lines::EachOther);
    }
    if any_ring(file) {
        return Ok(Lines::Ringed);
    }
    Ok(Lines::Free)
}

// ---- its byte

// The byte that says which, where `before` stood in it: 0 free, 1 cores that read each other, 2 a ring. A refusal leaves it, whatever tells it.
pub fn lines_byte<E: Copy>(before: u8, lines: Result<Lines, E>) -> u8
    ensures { result ≡ lines_byte before lines }
{
    match lines {
        Err(_) => before,
        Ok(Lines::Free) => 0,
        Ok(Lines::EachOther) => 1,
        Ok(Lines::Ringed) => 2,
    }
}
