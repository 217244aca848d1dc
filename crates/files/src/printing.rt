// What is printed: a labelled line of one number.
use std::io;

pub fn show(rt: &impl Print, label: &str, n: usize) -> io::Result<()> {
    println!(rt; "{label} {n}")
}
