// Bounds: one core with a data size, and code of a length that is all RETURN.
use super::changes::{put_all, put_word};
use super::judging::begin;
use super::printing::show;
use std::io;

fn one_core(size: u16, length: u16) -> u8 {
    let mut f = [0u8; 8207];
    put_all(&mut f, b"MCS1\x01\x00\x00\x00\x00\x01\x00\x00");
    put_word(&mut f, 5, size);
    put_word(&mut f, 12, length);
    begin(&f, 14 + length as usize)
}

pub fn bounds(rt: &impl Print) -> io::Result<()> {
    show(rt, "data 0", one_core(0, 1) as usize)?;
    show(rt, "data 4096", one_core(4096, 1) as usize)?;
    show(rt, "data 4097", one_core(4097, 1) as usize)?;
    show(rt, "code 0", one_core(1, 0) as usize)?;
    show(rt, "code 8192", one_core(1, 8192) as usize)?;
    show(rt, "code 8193", one_core(1, 8193) as usize)
}
