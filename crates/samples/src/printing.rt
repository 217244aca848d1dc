// What is printed of a case: its name, an answer or a text, and whether the case says the same.

use std::io::{Result, Write, writer};

// No answer of a call.
pub const NO_ANSWER: u16 = 999;

pub fn told(rt: &impl Print, good: bool) -> Result<()> {
    println!(rt; " {}", if good { "ok" } else { "WRONG" })
}

pub fn named(rt: &impl Print, line: &[u8]) -> Result<()> {
    let n = cases::name_end(line);
    writer(rt).write_all(&line[..n])?;
    print!(rt; ":")
}

// The answer of a call, and whether the case gives the same, as it did of the calls before.
pub fn as_given(rt: &impl Print, before: bool, line: &[u8], nth: usize, came: u8) -> Result<bool> {
    print!(rt; " {came}")?;
    Ok(before && came as u16 == cases::behind(line, 2, b"gives", nth, NO_ANSWER))
}

// Whether the line's last field, behind a semicolon and a blank, is this text, with a stroke for the end of each line.
fn last_field_is(line: &[u8], text: &[u8]) -> bool {
    if line.len() < text.len() + 2 {
        return false;
    }
    let from = line.len() - text.len();
    if line[from - 2] != b';' {
        return false;
    }
    line[from..]
        .iter()
        .zip(text)
        .all(|(c, t)| c == t || *c == b'/' && *t == b'\n')
}

// The text of n bytes beside that of the case.
pub fn show(rt: &impl Print, line: &[u8], out: &[u8], n: usize) -> Result<()> {
    if out.len() < n {
        return Ok(());
    }
    writer(rt).write_all(&out[..n])?;
    named(rt, line)?;
    told(rt, last_field_is(line, &out[..n]))
}
