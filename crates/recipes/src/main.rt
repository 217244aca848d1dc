// Copies of recipe blocks (document 02, 2.5) of 64 bytes of data: lengths about one, two and three words, stretches that share no byte, one, or
// all but one, each way up and down, and stretches that leave the data. A line has the places and the count, the answer, and the data.
#![tactic(auto)]

use output::Output;
use std::{fmt, io};

// The data before each copy: byte i is 3 i + 1.
const DATA: [u8; 64] = [
    1, 4, 7, 10, 13, 16, 19, 22, 25, 28, 31, 34, 37, 40, 43, 46, 49, 52, 55, 58, 61, 64, 67, 70,
    73, 76, 79, 82, 85, 88, 91, 94, 97, 100, 103, 106, 109, 112, 115, 118, 121, 124, 127, 130, 133,
    136, 139, 142, 145, 148, 151, 154, 157, 160, 163, 166, 169, 172, 175, 178, 181, 184, 187, 190,
];

// Place and place of the two stretches, and how many bytes.
const CASES: [(u8, u8, u8); 24] = [
    (32, 0, 0),
    (32, 0, 1),
    (32, 0, 7),
    (32, 0, 8),
    (32, 0, 9),
    (0, 32, 15),
    (0, 32, 16),
    (0, 32, 17),
    (40, 0, 24),
    (0, 39, 25),
    (33, 2, 31),
    (32, 0, 32),
    (8, 0, 8),
    (0, 8, 8),
    (7, 0, 8),
    (0, 7, 8),
    (1, 0, 63),
    (0, 1, 63),
    (9, 9, 20),
    (16, 0, 17),
    (64, 0, 0),
    (65, 0, 0),
    (57, 0, 8),
    (0, 57, 8),
];

// The data as hex digits. A row is one print: a print of its own for each byte would take a buffer each.
#[derive(Clone, Copy)]
struct Row {
    bytes: [u8; 64],
}

impl fmt::Display for Row {
    fn fmt<W: fmt::Write>(&self, f: &mut fmt::Formatter<W>) -> fmt::Result {
        for b in self.bytes {
            write!(f, "{b:02x}")?;
        }
        Ok(())
    }
}

fn try_case(rt: &impl Print, to: u8, from: u8, count: u8) -> io::Result<()> {
    let mut d: [u8; 64] = DATA;
    let answer = copies::rikzord_copy_by_words(&mut d, to as usize, from as usize, count as usize);
    let data = Row { bytes: d };
    println!(rt; "{to} {from} {count} {answer} {data}")
}

fn main(rt: HostRuntime) -> io::Result<()> {
    let rt = Output { to: &rt };
    for (to, from, count) in CASES {
        try_case(&rt, to, from, count)?;
    }
    Ok(())
}
