// Document 01, the trace: judged (refusal 22), and where the records of each core stand in it.
// Not here: the definitions and laws of a trace, and the record of what loading finds (crate `taskset`).
#![tactic(auto)]

ghost use Rattle.std.specs.Prelude.{◌≡◌, ◌*◌, ◌<◌, ◌≤◌};
ghost use Rattle.taskset.specs.Trace.{blank, trace_place, trace_refusal, count_of, first_of, load_trace_of, loaded_trace};
ghost use Rattle.verdict.specs.Refusals.{refusal_of};

use taskset::TraceLayout;
use verdict::Refusal;

// Where core k's count stands, k up to the number of cores.
fn trace_place(f: &[u8], t: &[u8], k: usize) -> usize
    requires { k ≤ 255 }
    ensures { (result ≡ trace_place f.now t.now k) × (result ≤ 5000000000 * k) }
{
    let mut p: usize = 0;
    for i in 0..k {
        let n = memory::word_at(t, p);
        p = p + 2 + n * (4 + memory::word_at(f, 5 + 6 * i + 2));
    }
    p
}

// Whether a trace has no bytes.
fn is_blank(t: &[u8]) -> bool
    ensures { result ≡ blank t.now }
{
    t.len() == 0
}

// The trace t of the task set file f. A trace of no bytes is sound: it means one record for every core.
pub fn judge_trace(f: &[u8], t: &[u8]) -> Result<(), Refusal>
    ensures { refusal_of result ≡ trace_refusal f.now t.now }
{
    if is_blank(t) {
        return Ok(());
    }
    if trace_place(f, t, memory::byte_at(f, 4) as usize) == t.len() {
        return Ok(());
    }
    Err(Refusal::BadTrace)
}

fn count_of(f: &[u8], t: &[u8], k: usize) -> u16
    requires { k < 4 }
    ensures { result ≡ count_of f.now t.now k }
{
    if memory::byte_at(f, 4) as usize <= k {
        return 0;
    }
    if is_blank(t) {
        return 1; // one record for every core
    }
    memory::word_at(t, trace_place(f, t, k)) as u16
}

fn first_of(f: &[u8], t: &[u8], k: usize) -> usize
    requires { k < 4 }
    ensures { result ≡ first_of f.now t.now k }
{
    if memory::byte_at(f, 4) as usize <= k {
        return 0;
    }
    trace_place(f, t, k) + 2
}

// Where the records of each core stand in a sound trace.
pub fn load_trace(f: &[u8], t: &[u8]) -> Result<TraceLayout, Refusal>
    ensures { loaded_trace result ≡ load_trace_of f.now t.now }
{
    judge_trace(f, t)?;
    let count = [
        count_of(f, t, 0),
        count_of(f, t, 1),
        count_of(f, t, 2),
        count_of(f, t, 3),
    ];
    let first = [
        first_of(f, t, 0),
        first_of(f, t, 1),
        first_of(f, t, 2),
        first_of(f, t, 3),
    ];
    Ok(TraceLayout { count, first })
}
