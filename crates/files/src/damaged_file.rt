// A file damaged byte by byte, and cut at each place.
use super::changes::{put, put_all};
use super::judging::begin;
use std::io;

// The refusal of the first n bytes with b at place p.
fn damage(rt: &impl Print, f: &mut [u8], n: usize, p: usize, b: u8) -> io::Result<()> {
    let old = memory::byte_at(f, p);
    put(f, p, b);
    print!(rt; "{}", begin(f, n))?;
    put(f, p, old);
    Ok(())
}

// Five other values of the byte at p.
fn five(rt: &impl Print, f: &mut [u8], n: usize, p: usize) -> io::Result<()> {
    let old = memory::byte_at(f, p);
    for b in [0, 255, old ^ 1, old ^ 8, old ^ 128] {
        damage(rt, f, n, p, b)?;
    }
    Ok(())
}

fn damages(rt: &impl Print, f: &mut [u8], n: usize) -> io::Result<()> {
    for p in 0..n {
        five(rt, f, n, p)?;
        if p % 10 == 9 {
            println!(rt;)?;
        } else {
            print!(rt; " ")?;
        }
    }
    println!(rt;)
}

fn cuts(rt: &impl Print, f: &[u8], n: usize) -> io::Result<()> {
    for i in 0..n {
        print!(rt; "{}", begin(f, i))?;
    }
    println!(rt;)
}

pub fn damaged(rt: &impl Print, f: &[u8], n: usize) -> io::Result<()> {
    let mut g = [0u8; 512];
    put_all(&mut g, f);
    damages(rt, &mut g, n)?;
    cuts(rt, &g, n)
}
