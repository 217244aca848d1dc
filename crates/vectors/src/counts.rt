// Vectors counted under the code byte of their command: how many were compared, and how many differed.
use super::names::{code_of, name_of};
use super::outcomes::agrees;
use super::vector_line::{Line, fresh, lengthen};
use std::io;

// Counts a whole line under its command's code byte.
fn count(l: Line, compared: &mut [u64; 64], differed: &mut [u64; 64]) {
    let code = code_of(l.op);
    let k = (code % 64) as usize;
    compared[k] = compared[k].wrapping_add(1);
    if !agrees(l, code) {
        differed[k] = differed[k].wrapping_add(1);
    }
}

// Counts the lines that end in s; the answer is what s has of the next one. The line is taken out of its option once, and not for each character. A comment, which is no
// line, is read to its end and not counted.
pub fn count_lines(
    s: &[u8],
    start: Option<Line>,
    compared: &mut [u64; 64],
    differed: &mut [u64; 64],
) -> Option<Line> {
    let mut counts = start.is_some();
    let mut line = start.unwrap_or(fresh());
    for c in s {
        if *c == b'\n' {
            if counts {
                count(line, compared, differed);
            }
            counts = true;
            line = fresh();
        } else if *c == b'#' {
            counts = false;
        } else {
            lengthen(&mut line, *c);
        }
    }
    if counts { Some(line) } else { None }
}

pub fn print_counts(rt: &impl Print, compared: &[u64; 64], differed: &[u64; 64]) -> io::Result<()> {
    for k in 0..64 {
        if 0 < compared[k] {
            println!(rt;
                "{}: {} compared, {} differed",
                name_of(k),
                compared[k],
                differed[k]
            )?;
        }
    }
    Ok(())
}
