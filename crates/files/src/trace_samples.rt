// Traces of a file: where their records stand, and their cuts.
use super::printing::show;
use std::io;
use taskset::TraceLayout;
use verdict::refusal_of;

// The refusal of the first n bytes of a trace.
fn begin_trace(f: &[u8], t: &[u8], n: usize) -> u8 {
    if t.len() < n {
        return 99;
    }
    refusal_of(traces::judge_trace(f, &t[..n]))
}

fn trace_cuts(rt: &impl Print, f: &[u8], t: &[u8], n: usize) -> io::Result<()> {
    for i in 0..n {
        print!(rt; " {}", begin_trace(f, t, i))?;
    }
    println!(rt;)
}

// Of a refused trace there are no records.
pub fn trace(rt: &impl Print, f: &[u8], t: &[u8]) -> io::Result<()> {
    let loaded = traces::load_trace(f, t);
    show(rt, "trace", refusal_of(loaded) as usize)?;
    let none = TraceLayout {
        count: [0; 4],
        first: [0; 4],
    };
    let layout = loaded.unwrap_or(none);
    for k in 0..4 {
        show(rt, "records", layout.count[k] as usize)?;
        show(rt, "from", layout.first[k])?;
    }
    Ok(())
}

// A trace, then its cuts.
pub fn traced(rt: &impl Print, f: &[u8], t: &[u8], n: usize) -> io::Result<()> {
    trace(rt, f, t)?;
    trace_cuts(rt, f, t, n)
}
