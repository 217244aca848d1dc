// The refusal of a file, or of its beginning.
use super::printing::show;
use std::io;
use verdict::refusal_of;

// The refusal of a whole file.
pub fn file(rt: &impl Print, label: &str, f: &[u8]) -> io::Result<()> {
    show(rt, label, refusal_of(file_judging::judge_file(f)) as usize)
}

// The refusal of the first n bytes.
pub fn begin(f: &[u8], n: usize) -> u8 {
    if f.len() < n {
        return 99;
    }
    refusal_of(file_judging::judge_file(&f[..n]))
}
