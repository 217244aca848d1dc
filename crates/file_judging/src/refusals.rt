// Document 01, "The task set file": the refusals of its parts, front to back (1..7, 31 and 24).
// In order: mark and cores; variables; the code of a core; start values; all that follows the variables.
// Not here: the refusal of a whole file (src/lib.rt).
ghost use Rattle.std.specs.Prelude.{◌≡◌, ◌+◌, ◌*◌, ◌<◌, ◌≤◌, length};
ghost use Rattle.verdict.specs.Refusals.{refusal_of};
ghost use Rattle.records.specs.File.{cores};
ghost use Rattle.taskset.specs.Judge.{is_mark, head_refusal, variables_refusal, code_place, section_refusal, start_sections, start_place, pairs_refusal, starts_refusal, codes_refusal};

use super::{is_new, is_old};
use code::Profile;
use verdict::Refusal;

fn is_mark(f: &[u8]) -> bool
    requires { 4 ≤ length f.now }
    ensures { result ≡ is_mark f.now }
{
    if is_old(f) {
        return true;
    }
    is_new(f)
}

// The mark, the number of cores and their records.
pub fn judge_head(profile: Profile, f: &[u8]) -> Result<(), Refusal>
    ensures { refusal_of result ≡ head_refusal profile f.now }
{
    if f.len() < 4 {
        return Err(Refusal::CutFile);
    }
    if !is_mark(f) {
        return Err(Refusal::NoMark);
    }
    if f.len() < 5 {
        return Err(Refusal::CutFile);
    }
    let n = f[4] as usize;
    if n < 1 {
        return Err(Refusal::BadCore);
    }
    if 4 < n {
        return Err(Refusal::BadCore);
    }
    records::judge_cores(profile, f, n)
}

// The number of variables, their records and their overlap.
pub fn judge_variable_section(f: &[u8]) -> Result<(), Refusal>
    ensures { refusal_of result ≡ variables_refusal f.now }
{
    let at = 5 + 6 * memory::byte_at(f, 4) as usize;
    if f.len() < at + 1 {
        return Err(Refusal::CutFile);
    }
    let m = f[at];
    if 64 < m {
        return Err(Refusal::BadVariable);
    }
    records::judge_variables(f, m)?;
    records::judge_overlaps(f, m)
}

// The length and the code at place p.
fn judge_section(profile: Profile, f: &[u8], p: usize) -> Result<(), Refusal>
    requires { p < 1000000 }
    ensures { refusal_of result ≡ section_refusal profile f.now p }
{
    let a = p + 2;
    if f.len() < a {
        return Err(Refusal::CutFile);
    }
    let n = memory::word_at(f, p);
    if n < 1 {
        return Err(Refusal::BadInstruction);
    }
    if 8192 < n {
        return Err(Refusal::BadInstruction);
    }
    let e = a + n;
    if f.len() < e {
        return Err(Refusal::CutFile); // cut within the code
    }
    code_judging::judge_code_for(profile, &f[a..e])
}

// How many cores have start values in the file: all n, or none in a file of the old form.
fn start_sections(f: &[u8], n: usize) -> usize
    requires { (4 ≤ length f.now) × (n ≡ cores f.now) }
    ensures { (result ≡ start_sections f.now) × (result ≤ n) }
{
    if is_new(f) {
        return n;
    }
    0
}

// The count of start values at place p and its pairs, for data of this size.
fn judge_pairs(f: &[u8], size: usize, p: usize) -> Result<(), Refusal>
    requires { p < 2000000 }
    ensures { refusal_of result ≡ pairs_refusal f.now size p }
{
    let first = p + 2;
    if f.len() < first {
        return Err(Refusal::CutFile);
    }
    let n = memory::word_at(f, p);
    let mut least = 0;
    for i in 0..n {
        let at = first + 3 * i;
        if f.len() < at + 3 {
            return Err(Refusal::CutFile); // cut within the start values
        }
        let place = memory::word_at(f, at);
        if size <= place {
            return Err(Refusal::BadStart);
        }
        if place < least {
            return Err(Refusal::BadStart); // not above the one before
        }
        least = place + 1;
    }
    Ok(())
}

// The start values of each of n cores, the first at place `from`, and what follows the last.
fn judge_starts(f: &[u8], n: usize, from: usize) -> Result<(), Refusal>
    requires { (n ≤ 4) × (n ≡ start_sections f.now) × (from ≡ start_place f.now 0) × (from < 400000) }
    ensures { refusal_of result ≡ starts_refusal f.now }
{
    let mut p = from;
    for k in 0..n {
        judge_pairs(f, memory::word_at(f, 5 + 6 * k), p)?;
        p = p + 2 + 3 * memory::word_at(f, p);
    }
    if p == f.len() {
        return Ok(());
    }
    Err(Refusal::LeftOver) // bytes follow the last section
}

// The code of each of n cores, the first at place `from`, and what follows the last.
pub fn judge_codes(profile: Profile, f: &[u8], n: usize, from: usize) -> Result<(), Refusal>
    requires { (4 ≤ length f.now) × (n ≤ 4) × (n ≡ cores f.now) × (from ≡ code_place f.now 0) × (from < 9000) }
    ensures { refusal_of result ≡ codes_refusal profile f.now }
{
    let mut p = from;
    for k in 0..n {
        judge_section(profile, f, p)?;
        p = p + 2 + memory::word_at(f, p);
    }
    judge_starts(f, start_sections(f, n), p)
}
