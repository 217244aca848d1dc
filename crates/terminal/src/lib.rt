// Reads the three files of `cores` from the folder that it runs in and writes what `console::output` makes of them. No contract can say what is
// read or written, so this is tried by runs: the program `cores` on document 01's example, and the programs beside it on files that are longer than
// the most or missing.
#![tactic(auto)]

use input_files::read_file;
use std::rt::Files;
use verdict::Refusal;

// One byte more than the most, so that a longer file is seen.
const FILE: usize = console::MOST_FILE + 1;

const TRACE: usize = console::MOST_TRACE + 1;

const ORDER: usize = console::MOST_ORDER + 1;

// The descriptor of standard output.
const OUTPUT: i32 = 1;

// The text that was written. There always is one: TEXT bytes hold any. By descriptor, since `print_cores` is lent the files alone and so has nothing that prints.
fn print(written: Result<usize, Refusal>, out: &[u8]) {
    if let Ok(n) = written {
        if n <= out.len() {
            io::write_all(OUTPUT, &out[..n]);
        }
    }
}

pub fn print_cores<R: Files>(rt: &R) {
    let mut file = [0u8; FILE];
    let mut trace = [0u8; TRACE];
    let mut order = [0u8; ORDER];
    let mut out = [0u8; console::TEXT];
    let f = read_file(rt, "task.bin", &mut file);
    let t = read_file(rt, "trace.bin", &mut trace);
    let o = read_file(rt, "order.bin", &mut order);
    let written = console::output(&file[..f], &trace[..t], &order[..o], &mut out);
    print(written, &out);
}
