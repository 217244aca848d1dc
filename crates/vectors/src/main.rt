// Runs every vector of the files in data/ through the typed commands and conversions: the published float vectors, comparisons of special floats,
// whole numbers at their limits, conversions between every two number types, and packed decimal. For each file and command it prints how many vectors were compared and how many differed.
// Not here: a line of a file (src/vector_line.rt); names of commands and types (src/names.rt); what a command gives (src/outcomes.rt); what is counted
// and printed (src/counts.rt).
#![tactic(auto)]

mod counts;
mod names;
mod outcomes;
mod vector_line;

ghost use Rattle.std.specs.Prelude.{◌<◌, ◌≤◌, length};

use counts::{count_lines, print_counts};
use output::Output;
use std::fs::File;
use std::io;
use std::io::Read;
use vector_line::fresh;

// The most reads of a file.
const READS: u32 = 1_000_000;

// Reads into the buffer; a read that fails counts as the end of the file.
fn read_some(file: &mut File, buffer: &mut [u8]) -> usize
    ensures { result ≤ length buffer.new }
{
    match file.read(buffer) {
        Ok(n) => n,
        Err(_) => 0,
    }
}

// Reads an open file whole and prints its counts. A proved loop has to end, and nothing says that a file does: so many reads at most.
fn count_file(rt: &impl Print, file: &mut File) -> io::Result<()> {
    let mut compared = [0u64; 64];
    let mut differed = [0u64; 64];
    let mut line = Some(fresh());
    for _ in 0..READS {
        let mut buffer = [0u8; 4096];
        let n = read_some(file, &mut buffer);
        if n == 0 {
            break;
        }
        line = count_lines(&buffer[..n], line, &mut compared, &mut differed);
    }
    print_counts(rt, &compared, &differed)
}

// The counts of a file; one that can't be opened is told on standard error.
fn examine(rt: &HostRuntime, path: &str) -> io::Result<()> {
    let out = Output { to: rt };
    println!(out; "{path}")?;
    match File::open(rt, path) {
        Ok(mut file) => count_file(&out, &mut file),
        Err(error) => {
            let _told = eprintln!(rt; "{path}: {error}");
            Ok(())
        }
    }
}

fn main(rt: HostRuntime) -> io::Result<()> {
    for path in [
        "float-vectors.txt",
        "float-specials.txt",
        "comparisons.txt",
        "whole-numbers.txt",
        "conversions.txt",
        "packed.txt",
    ] {
        examine(&rt, path)?;
    }
    Ok(())
}
