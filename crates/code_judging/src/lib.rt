// Document 01, "The task set file": one core's code, judged in one pass: instructions laid end to end (refusal 6), each of them carried by the profile
// (27, document 02, 2.10), then targets and the last instruction (7).
// Not here: the definitions and their laws, and what one instruction is judged by (crate `code`).
#![tactic(auto)]

ghost use Rattle.std.specs.Prelude.{◌≡◌, ◌+◌, ◌<◌, ◌≤◌, length, false};
ghost use Rattle.std.specs.Result.{MatchResult};
ghost use Rattle.verdict.specs.Refusals.{number_of, refusal_of};
ghost use Rattle.memory.specs.Memory.{byte};
ghost use Rattle.code.specs.Commands.{length_of};
ghost use Rattle.code.specs.Code.{judge_code, judge_code_for};
ghost use Rattle.code.specs.Judging.{Marked, Asked, TargetAsked, Cleared, Pass, AllMet};

use code::{Profile, accepted_length, is_carried, word};
use verdict::Refusal;

// What one pass over the instructions finds where none is refused: the last code byte, and whether a T lies outside the map.
#[derive(Clone, Copy)]
struct Laid {
    last: u8,
    outside: bool,
}

// The most bytes of a code that has a short map, which is cleared sooner.
const SHORT: usize = 512;

fn cleared() -> [u8; 8192]
    ensures { (length result ≡ 8192) × Cleared result }
{
    [0u8; 8192]
}

fn cleared_short() -> [u8; SHORT]
    ensures { (length result ≡ 512) × Cleared result }
{
    [0u8; SHORT]
}

// Asks for an instruction's start at place t; tells whether t lies outside the map.
fn ask(marks: &mut [u8], t: u16) -> bool
    ensures { Asked marks.old t result marks.new }
{
    let at = t as usize;
    if marks.len() <= at {
        return true;
    }
    if marks[at] != 1 {
        marks[at] = 2;
    }
    false
}

// Asks for the T of the instruction at p, if it has one.
fn ask_target(code: &[u8], p: usize, marks: &mut [u8]) -> bool
    requires { (p < length code.now) × (p + length_of (byte code.now p) ≤ length code.now) }
    ensures { TargetAsked code.now p marks.old result marks.new }
{
    let b = code[p];
    match b {
        1 => ask(marks, word(code, p + 1)),
        2 => ask(marks, word(code, p + 3)),
        3 => ask(marks, word(code, p + 3)),
        4 => ask(marks, word(code, p + 3)),
        5 => ask(marks, word(code, p + 1)),
        _ => false,
    }
}

// The pass, and its map: 1 where an instruction starts, 2 where a T asks for one that was not met. The map is lent, since a structure that holds it would
// be copied.
fn lay(profile: Profile, code: &[u8], marks: &mut [u8]) -> Result<Laid, Refusal>
    requires { (length code.now ≤ 8192) × (length code.now ≤ length marks.old) × Cleared marks.old }
    ensures { MatchResult result (λ m. Pass profile code.now (length marks.old) 0 m.last m.outside marks.new)
        (λ r. Pass profile code.now (length marks.old) (number_of r) 0 false marks.new) }
{
    let mut last: u8 = 0;
    let mut outside = false;
    let mut p: usize = 0;
    while p < code.len() {
        let n = accepted_length(code, p);
        if n == 0 {
            return Err(Refusal::BadInstruction);
        }
        if ask_target(code, p, marks) {
            outside = true;
        }
        // Behind the target: the compiler joins the two matches on the code byte that come before, and no test stands between them.
        if !is_carried(profile, code, p) {
            return Err(Refusal::WideType);
        }
        marks[p] = 1;
        last = code[p];
        p = p + n;
    }
    Ok(Laid { last, outside })
}

// Whether no start is still asked for. The largest byte says it: a loop with no way out before its end is one that the processor's vector instructions
// can run.
fn all_met(marks: &[u8]) -> bool
    ensures { AllMet marks.now result }
{
    let mut most: u8 = 0;
    for mark in marks {
        most = most.max(*mark);
    }
    most < 2
}

// A core's code, all instructions before any target, by a lent map.
fn judge_by_map(profile: Profile, code: &[u8], marks: &mut [u8]) -> Result<(), Refusal>
    requires { (length code.now ≤ 8192) × (length code.now ≤ length marks.old) × Cleared marks.old }
    ensures { refusal_of result ≡ judge_code_for profile code.now }
{
    let m = lay(profile, code, marks)?;
    if m.outside {
        return Err(Refusal::BadTarget);
    }
    if !all_met(marks) {
        return Err(Refusal::BadTarget);
    }
    if 2 <= m.last {
        return Err(Refusal::BadTarget);
    }
    Ok(())
}

// A core's code.
pub fn judge_code_for(profile: Profile, code: &[u8]) -> Result<(), Refusal>
    requires { length code.now ≤ 8192 }
    ensures { refusal_of result ≡ judge_code_for profile code.now }
{
    if code.len() <= SHORT {
        let mut marks = cleared_short();
        return judge_by_map(profile, code, &mut marks);
    }
    let mut marks = cleared();
    judge_by_map(profile, code, &mut marks)
}

// The map of the instruction starts of accepted code: 1 exactly where one starts.
pub fn starts(code: &[u8]) -> [u8; 8192]
    requires { (length code.now ≤ 8192) × (judge_code code.now ≡ 0) }
    ensures { (length result ≡ 8192) × Marked code.now result }
{
    let mut marks = cleared();
    let _ = lay(Profile::Full, code, &mut marks);
    marks
}
