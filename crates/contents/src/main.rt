// What a run leaves in memory, for the examples: reads task.bin, trace.bin and order.bin as `cores` does, runs the order from the fresh
// state, and prints the data of each core and shared memory in lines of eight bytes, up to the last line that has a byte other than 0.
#![tactic(auto)]

use input_files::read_file;
use output::Output;
use std::io;
use taskset::Layout;

// ---- lines of eight bytes

// The place after the last byte that is not 0.
fn used(s: &[u8]) -> usize {
    s.iter().rposition(|b| *b != 0).map_or(0, |i| i + 1)
}

// Byte i, with the start and the end of its line.
fn show_byte(rt: &impl Print, label: &str, i: usize, b: u8) -> io::Result<()> {
    if i % 8 == 0 {
        print!(rt; "{label}{i}:")?;
    }
    print!(rt; " {b:02x}")?;
    if i % 8 == 7 {
        println!(rt;)?;
    }
    Ok(())
}

fn show_bytes(rt: &impl Print, label: &str, s: &[u8]) -> io::Result<()> {
    let end = used(s);
    for (i, b) in s.iter().enumerate() {
        if end <= i && i % 8 == 0 {
            return Ok(());
        }
        show_byte(rt, label, i, *b)?;
    }
    if s.len() % 8 != 0 {
        println!(rt;)?;
    }
    Ok(())
}

// ---- the memories

// The n bytes at a place of the data buffer.
fn show_part(rt: &impl Print, label: &str, s: &[u8], place: usize, n: usize) -> io::Result<()> {
    if n <= s.len() && place <= s.len() - n {
        show_bytes(rt, label, &s[place..place + n])?;
    }
    Ok(())
}

// A core that the file does not have has no data, and no lines.
fn show_memories(rt: &impl Print, layout: Layout, buffer: &[u8], shared: &[u8]) -> io::Result<()> {
    let labels = ["core 0 at ", "core 1 at ", "core 2 at ", "core 3 at "];
    for (label, c) in labels.iter().zip(&layout.core) {
        show_part(rt, label, buffer, c.base, c.size)?;
    }
    show_bytes(rt, "shared at ", shared)
}

// ---- the run

fn refused(rt: &impl Print, number: u8) -> io::Result<()> {
    println!(rt; "refused {number}")
}

fn show_run(
    rt: &impl Print,
    file: &[u8],
    trace: &[u8],
    order: &[u8],
    layout: Layout,
    buffer: &mut [u8],
    shared: &mut [u8],
    list: &mut [u8],
) -> io::Result<()> {
    let begun = machine::fresh(file, buffer, shared);
    if begun.refusal != 0 {
        return refused(rt, begun.refusal);
    }
    let ran = runs::run(file, trace, begun.state, buffer, shared, order, list);
    if ran.refusal != 0 {
        return refused(rt, ran.refusal);
    }
    show_memories(rt, layout, buffer, shared)
}

// With as much of the data buffer as the file asks for.
fn run_files(rt: &impl Print, file: &[u8], trace: &[u8], order: &[u8]) -> io::Result<()> {
    let layout = match file_loading::load_file(file) {
        Ok(layout) => layout,
        Err(refusal) => return refused(rt, refusal.number()),
    };
    let mut buffer = [0u8; 16384];
    let mut shared = [0u8; 1024];
    let mut list = [0u8; 4096];
    let size = machine::buffer_size(file);
    show_run(
        rt,
        file,
        trace,
        order,
        layout,
        &mut buffer[..size],
        &mut shared,
        &mut list,
    )
}

// A missing file counts as empty.
fn main(rt: HostRuntime) -> io::Result<()> {
    let mut file = [0u8; 82800];
    let mut trace = [0u8; 4096];
    let mut order = [0u8; 4096];
    let f = read_file(&rt, "task.bin", &mut file);
    let t = read_file(&rt, "trace.bin", &mut trace);
    let o = read_file(&rt, "order.bin", &mut order);
    run_files(&Output { to: &rt }, &file[..f], &trace[..t], &order[..o])
}
