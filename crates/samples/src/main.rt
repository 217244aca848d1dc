// Document 01's samples on the public calls, from standard input (file `stdin`, which says how a case is written): the listing of `cores`, the bench values
// that are not marked, every refusal, states that are fit or not, what a step changes, and the next core to move. Each case tells its name, what came, and ok
// or WRONG beside what the documents say.
// Not here: states in words (src/state_words.rt); memory to lend (src/lent_memory.rt); the calls (src/call_numbers.rt);
// what is printed (src/printing.rt).
#![tactic(auto)]

mod call_numbers;
mod lent_memory;
mod printing;
mod state_words;

ghost use Rattle.io.specs.Counts.{IsPrefixLen};

use call_numbers::{fresh_says, next_says, run_says, step_says};
use output::Output;
use printing::{NO_ANSWER, as_given, named, show, told};
use state_words::{GIVEN, byte_value, state_in_words};
use std::io::Result;
use verdict::refusal_of;

// Whether a case and its setting have no other words than these.
fn spelt_right(setting: &[u8], line: &[u8]) -> bool {
    let words =
        b"mode counter offset depth count exchange cycles flags time table return holder waiting line data shared list step gives ";
    cases::knows(setting, 3, words) && cases::knows(line, 2, words) && cases::knows(line, 3, words)
}

// What the six calls answer.
fn asked(
    rt: &impl Print,
    setting: &[u8],
    line: &[u8],
    file: &[u8],
    trace: &[u8],
    order: &[u8],
) -> Result<()> {
    let before = state_in_words(setting, line, GIVEN);
    let core = byte_value(setting, line, GIVEN, b"step", 1);
    named(rt, line)?;
    let answers = [
        refusal_of(machine::check_file(file)),
        fresh_says(setting, line, file),
        refusal_of(machine::check_state(file, trace, before)),
        run_says(setting, line, file, trace, order),
        step_says(setting, line, file, trace, core),
        next_says(file, trace, before, core),
    ];
    let mut good = spelt_right(setting, line);
    for (i, came) in answers.iter().enumerate() {
        good = as_given(rt, good, line, i + 1, *came)?;
    }
    told(rt, good)
}

// What `cores` prints.
fn listed(rt: &impl Print, line: &[u8], file: &[u8], trace: &[u8], order: &[u8]) -> Result<()> {
    let mut out = [0u8; console::TEXT];
    match console::output(file, trace, order, &mut out) {
        Ok(n) => show(rt, line, &out, n),
        Err(_) => Ok(()),
    }
}

// The case's own, or that of the setting.
fn file_of(setting: &[u8], line: &[u8], file: &mut [u8]) -> usize
    ensures { IsPrefixLen result file.new }
{
    let n = cases::bytes(line, 4, file);
    if n != 0 {
        return n;
    }
    cases::bytes(setting, 1, file)
}

// One case, under the setting that stands above it.
fn case(rt: &impl Print, setting: &[u8], line: &[u8]) -> Result<()> {
    let mut file = [0u8; 128];
    let mut trace = [0u8; 64];
    let mut order = [0u8; 64];
    let f = file_of(setting, line, &mut file);
    let t = cases::bytes(setting, 2, &mut trace);
    let o = cases::bytes(line, 1, &mut order);
    if cases::behind(line, 2, b"gives", 1, NO_ANSWER) == NO_ANSWER {
        listed(rt, line, &file[..f], &trace[..t], &order[..o])
    } else {
        asked(rt, setting, line, &file[..f], &trace[..t], &order[..o])
    }
}

// The line that starts at `from`, under the setting that starts at `start`.
fn case_at(rt: &impl Print, text: &[u8], start: usize, from: usize) -> Result<()> {
    let stop = cases::line_end(text, start);
    let end = cases::line_end(text, from);
    if start <= stop && from <= end && cases::is_case(&text[from..end]) {
        case(rt, &text[start..stop], &text[from..end])?;
    }
    Ok(())
}

fn lines(rt: &impl Print, text: &[u8]) -> Result<()> {
    let mut start: usize = 0;
    let mut from: usize = 0;
    while from < text.len() {
        if text[from] == b'=' {
            start = from;
        } else {
            case_at(rt, text, start, from)?;
        }
        from = cases::line_end(text, from) + 1;
    }
    Ok(())
}

fn main(rt: HostRuntime) -> Result<()> {
    let mut space = io::large_buffer();
    let n = io::read_full(0, &mut space);
    lines(&Output { to: &rt }, &space[..n])
}
