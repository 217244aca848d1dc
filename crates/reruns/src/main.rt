// Document 02, 2.13, rerun from the order of takings, with stored results. A case prints its name, the refusal number, the takings that are done, for each core
// its mode, cycles and flags, the semaphore's holder and how many are in line, then what the data buffer and the first shared bytes hold. Memory is lent with 9 in
// every byte, so that a refused case prints nines.
// Two cores: core 0 has two records and publishes NOT of what it reads, core 1 has one record and is stopped by its limit of one instruction.
#![tactic(auto)]

use output::Output;
use protocol::Registers;
use runner::RunAnswer;
use std::io;

// The first n bytes, 0 past the end.
fn bytes(rt: &impl Print, s: &[u8], n: usize) -> io::Result<()> {
    for place in 0..n {
        print!(rt; " {}", memory::byte_at(s, place))?;
    }
    Ok(())
}

fn core(rt: &impl Print, r: Registers) -> io::Result<()> {
    print!(rt; " ; {} {} {}", r.mode, r.cycles, r.flags)
}

fn show(
    rt: &impl Print,
    label: &str,
    x: RunAnswer,
    buffer: &[u8],
    shared: &[u8],
) -> io::Result<()> {
    print!(rt; "{label}: {} {}", x.refusal, x.taken)?;
    core(rt, x.state.cores[0])?;
    core(rt, x.state.cores[1])?;
    let semaphore = x.state.semaphore;
    print!(rt; " ; {} {} ;", semaphore.holder, semaphore.waiting)?;
    bytes(rt, buffer, 8)?;
    print!(rt; " ;")?;
    bytes(rt, shared, 4)?;
    println!(rt;)
}

fn rerun(
    rt: &impl Print,
    label: &str,
    file: &[u8],
    trace: &[u8],
    list: &[u8],
    buffer: &mut [u8],
    shared: &mut [u8],
) -> io::Result<()> {
    let x = rerun::rerun(file, trace, list, buffer, shared);
    show(rt, label, x, buffer, shared)
}

// The set of two cores, with lent memory of this content.
fn two(
    rt: &impl Print,
    label: &str,
    trace: &[u8],
    list: &[u8],
    buffer: &mut [u8],
    shared: &mut [u8],
) -> io::Result<()> {
    rerun(
        rt,
        label,
        b"MCS1\x02\x04\x00\x00\x00\x03\x00\x04\x00\x01\x00\x01\x00\x02\x00\x00\x01\x21\x01\x00\x01\x00\x00\x00\x00\x00\x01\x00\x01\x12\x02\x00\x02\x00\x00\x00\x00\x00\x07\x00\x1b\x00\x01\x00\x02\x00\x00\x03\x00\x01\x00\x00",
        trace,
        list,
        buffer,
        shared,
    )
}

fn on(rt: &impl Print, label: &str, trace: &[u8], list: &[u8]) -> io::Result<()> {
    let mut buffer = [9u8; 8];
    let mut shared = [9u8; 1024];
    two(rt, label, trace, list, &mut buffer, &mut shared)
}

fn case(rt: &impl Print, label: &str, list: &[u8]) -> io::Result<()> {
    on(
        rt,
        label,
        b"\x02\x00\x00\x00\x00\x00\x00\x00\x00\x00\x01\x00\x2a\x00\x00\x00\x05",
        list,
    )
}

// Lists that steps produce, one after the other longer.
fn produced(rt: &impl Print) -> io::Result<()> {
    case(rt, "empty", b"")?;
    case(rt, "reading of core 0", b"\x00")?;
    case(rt, "its writing", b"\x00\x10")?;
    case(rt, "reading of core 1, which stops", b"\x00\x10\x01")?;
    case(rt, "all takings", b"\x00\x10\x01\x00\x10")?;
    case(rt, "core 1 first", b"\x01\x00\x10\x00\x10")
}

// Lists that no order of steps produces.
fn unproduced(rt: &impl Print) -> io::Result<()> {
    case(rt, "writing before a reading", b"\x10")?;
    case(rt, "two readings", b"\x00\x00")?;
    case(rt, "two writings", b"\x00\x10\x10")?;
    case(rt, "writing of a stopped core", b"\x01\x11")?;
    case(rt, "reading of a stopped core", b"\x01\x01")?;
    case(rt, "records spent", b"\x00\x10\x00\x10\x00")?;
    case(rt, "core 2 of two", b"\x02")?;
    case(rt, "writing of core 2", b"\x12")?;
    case(rt, "byte 15", b"\x0f")?;
    case(rt, "byte 32", b"\x20")?;
    case(rt, "byte 255 at the end", b"\x00\x10\xff")
}

// The other refusals come first, each before the next: a byte too few is lent, or all is lent and the trace is wrong, or the list alone.
fn refused(rt: &impl Print) -> io::Result<()> {
    let mut buffer = [9u8; 7];
    let mut shared = [9u8; 1024];
    rerun(
        rt,
        "file, all else wrong too",
        b"MCS1\x05",
        b"\x00",
        b"\xff",
        &mut buffer,
        &mut shared,
    )?;
    two(
        rt,
        "data buffer",
        b"\x00",
        b"\xff",
        &mut buffer,
        &mut shared,
    )?;
    let mut whole = [9u8; 8];
    let mut less = [9u8; 1023];
    two(rt, "shared memory", b"\x00", b"\xff", &mut whole, &mut less)?;
    on(rt, "trace", b"\x00", b"\xff")?;
    case(rt, "list", b"\xff")
}

// A trace of no bytes has one record for each core.
fn blank(rt: &impl Print) -> io::Result<()> {
    on(rt, "no trace, second cycle", b"", b"\x00\x10\x00")?;
    on(rt, "no trace, first cycle", b"", b"\x00\x10")
}

fn main(rt: HostRuntime) -> io::Result<()> {
    let rt = Output { to: &rt };
    produced(&rt)?;
    unproduced(&rt)?;
    refused(&rt)?;
    blank(&rt)
}
