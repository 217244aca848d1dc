// Texts of `cores` with known results: the refusals in their order, `long` before them, and runs; the listing of document 01, its first four
// steps, and JMP 0 with limit 1 among them.
#![tactic(auto)]

use output::Output;
use std::io::{Result, Write, writer};

// A label, and what `cores` prints of these three files: a text, or 21.
fn show(rt: &impl Print, label: &str, file: &[u8], trace: &[u8], order: &[u8]) -> Result<()> {
    println!(rt; "{label}:")?;
    let mut out = [0u8; console::TEXT];
    match console::output(file, trace, order, &mut out) {
        Ok(n) if n <= out.len() => writer(rt).write_all(&out[..n]),
        Ok(_) => Ok(()),
        Err(refusal) => println!(rt; "{}", refusal.number()),
    }
}

// Lent bytes that are one too few for a text, or just enough: 21 where it is refused, and what they hold afterwards.
fn show_room(
    rt: &impl Print,
    label: &str,
    file: &[u8],
    order: &[u8],
    out: &mut [u8],
) -> Result<()> {
    println!(rt; "{label}:")?;
    if let Err(refusal) = console::output(file, b"\x01\x00\x00\x00\x00\x00", order, out) {
        print!(rt; "{} ", refusal.number())?;
    }
    writer(rt).write_all(out)?;
    println!(rt;)
}

fn rooms(rt: &impl Print) -> Result<()> {
    let task = b"MCS1\x01\x01\x00\x00\x00\x01\x00\x00\x01\x00\x00";
    let mut few = [b'.'; 50];
    show_room(
        rt,
        "document 01's listing in 50 bytes",
        task,
        b"\x00\x00\x00\x00\x00",
        &mut few,
    )?;
    let mut enough = [b'.'; 51];
    show_room(
        rt,
        "document 01's listing in 51 bytes",
        task,
        b"\x00\x00\x00\x00\x00",
        &mut enough,
    )?;
    let mut ten = [b'.'; 10];
    show_room(rt, "refused 20 in 10 bytes", task, b"\x01", &mut ten)?;
    let mut eleven = [b'.'; 11];
    show_room(rt, "refused 20 in 11 bytes", task, b"\x01", &mut eleven)?;
    let long = [0u8; console::MOST_FILE + 1];
    let mut four = [b'.'; 4];
    show_room(rt, "long in 4 bytes", &long, b"", &mut four)?;
    let mut six = [b'.'; 6];
    show_room(rt, "long in 6 bytes", &long, b"", &mut six)
}

// ---- one core, whose code is RETURN, and one input record

fn one_core(rt: &impl Print, label: &str, trace: &[u8], order: &[u8]) -> Result<()> {
    show(
        rt,
        label,
        b"MCS1\x01\x01\x00\x00\x00\x01\x00\x00\x01\x00\x00",
        trace,
        order,
    )
}

fn one_record(rt: &impl Print, label: &str, order: &[u8]) -> Result<()> {
    one_core(rt, label, b"\x01\x00\x00\x00\x00\x00", order)
}

fn refusals(rt: &impl Print) -> Result<()> {
    show(rt, "missing task", b"", b"", b"")?;
    show(
        rt,
        "refused task before trace and order",
        b"MCS3",
        b"\x01",
        b"\x01",
    )?;
    one_core(rt, "missing trace", b"", b"")?;
    one_core(
        rt,
        "a first cycle with no trace",
        b"",
        b"\x00\x00\x00\x00\x00",
    )?;
    one_core(
        rt,
        "and no second one",
        b"",
        b"\x00\x00\x00\x00\x00\x00\x00",
    )?;
    one_core(rt, "trace before order", b"\x01", b"\x01")?;
    one_record(rt, "order names core 1", b"\x00\x01")
}

fn runs(rt: &impl Print) -> Result<()> {
    one_record(rt, "missing order", b"")?;
    one_record(rt, "document 01's listing", b"\x00\x00\x00\x00\x00")?;
    one_record(rt, "its first four steps", b"\x00\x00\x00\x00")?;
    show(
        rt,
        "JMP 0 with limit 1",
        b"MCS1\x01\x01\x00\x00\x00\x01\x00\x00\x03\x00\x01\x00\x00",
        b"\x01\x00\x00\x00\x00\x00",
        b"\x00\x00\x00\x00\x00",
    )?;
    // core 0 copies its input byte to a variable that core 1 reads; two records for core 0, one for core 1
    show(
        rt,
        "two cores in turn",
        b"MCS1\x02\x02\x00\x01\x00\x0A\x00\x01\x00\x00\x00\x0A\x00\x01\x00\x00\x01\x21\x01\x00\x00\x00\x00\x00\x00\x00\x08\x00\x07\x01\x00\x00\x00\x01\x00\x00\x01\x00\x00",
        b"\x02\x00\x01\x00\x00\x00\x05\x02\x00\x00\x00\x06\x01\x00\x00\x00\x00\x00",
        b"\x00\x01\x00\x01\x00\x01\x00\x01\x00\x01\x00\x01\x00\x01\x00\x01\x00\x01\x00\x01\x00\x01\x00\x01\x00\x01",
    )
}

// ---- the most bytes, and one more

fn lengths(rt: &impl Print) -> Result<()> {
    let file = [0u8; 82801];
    let longer = [0u8; 4097];
    let longest = [0u8; 4096];
    show(rt, "task of 82,801 bytes", &file, b"", b"")?;
    show(rt, "task of 82,800 bytes", &file[..82800], b"", b"")?;
    show(rt, "trace of 4,097 bytes, no task", b"", &longer, b"")?;
    show(rt, "order of 4,097 bytes, no task", b"", b"", &longer)?;
    one_core(rt, "trace of 4,096 bytes", &longest, b"")?;
    one_record(rt, "order of 4,096 bytes", &longest)
}

fn main(rt: HostRuntime) -> Result<()> {
    let rt = Output { to: &rt };
    refusals(&rt)?;
    runs(&rt)?;
    lengths(&rt)?;
    rooms(&rt)
}
