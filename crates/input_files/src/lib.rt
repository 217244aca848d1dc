// The bytes of a file of the folder that a program runs in. No contract can say what is read, so this is tried by the programs' runs.
#![tactic(auto)]

ghost use Rattle.std.specs.Prelude.{◌≤◌, length};
ghost use Rattle.io.specs.Counts.{IsPrefixLen};

use std::fs;
use std::io::Read;
use std::rt::Files;

// Reads until `bytes` is full, the file ends or a read fails, and answers how many bytes came.
fn read_full<F: Read>(file: &mut F, bytes: &mut [u8]) -> usize
    ensures { result ≤ length bytes.new }
{
    let mut done: usize = 0;
    for _ in 0..bytes.len() {
        match file.read(&mut bytes[done..]) {
            Ok(n) => {
                if n == 0 {
                    return done;
                }
                done += n;
            }
            Err(_) => return done,
        }
    }
    done
}

// Reads a file from its start until `bytes` is full or the file ends, and answers how many bytes came: none of a missing file.
pub fn read_file<R: Files>(rt: &R, path: &str, bytes: &mut [u8]) -> usize
    ensures { IsPrefixLen result bytes.new }
{
    match fs::open(rt, path) {
        Ok(mut file) => read_full(&mut file, bytes),
        Err(_) => 0,
    }
}
