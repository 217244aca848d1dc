// The largest file: four cores, 64 variables of eight bytes, code of 8,192 bytes each.
ghost use Rattle.std.specs.Prelude.{◌≤◌};

use super::changes::{put, put_all, put_word};
use super::judging::begin;
use super::printing::show;
use std::io;

fn power(k: usize) -> u8
    ensures { result ≤ 8 }
{
    match k {
        0 => 1,
        1 => 2,
        2 => 4,
        _ => 8,
    }
}

// Variable i: written by core i mod 4, read by the next one.
fn put_variable(f: &mut [u8], i: usize) {
    if i < 65 {
        let p = 30 + 12 * i;
        let w = i % 4;
        let r = (i + 1) % 4;
        put_word(f, p, (16 * i) as u16);
        put(f, p + 2, 8);
        put(f, p + 3, power(w) + 16 * power(r));
        put_word(f, p + 4 + 2 * w, (2048 + 8 * i) as u16);
        put_word(f, p + 4 + 2 * r, (2048 + 8 * i) as u16);
    }
}

fn put_variables(f: &mut [u8]) {
    for i in 0..64 {
        put_variable(f, i);
    }
}

fn largest() -> [u8; 33600] {
    let mut f = [0u8; 33600];
    put_all(
        &mut f,
        b"MCS1\x04\x00\x10\x00\x08\x01\x00\x00\x10\x00\x08\x01\x00\x00\x10\x00\x08\x01\x00\x00\x10\x00\x08\x01\x00\x40",
    );
    put_variables(&mut f);
    put_word(&mut f, 798, 8192);
    put_word(&mut f, 8992, 8192);
    put_word(&mut f, 17186, 8192);
    put_word(&mut f, 25380, 8192);
    f
}

// ADD I48 in all but the last eight bytes of each code.
fn put_adds(f: &mut [u8]) {
    for i in 0..4092 {
        let p = 800 + 8194 * (i / 1023) + 8 * (i % 1023);
        put(f, p, 16);
        put(f, p + 1, 3);
    }
}

pub fn large(rt: &impl Print) -> io::Result<()> {
    let mut f = largest();
    show(rt, "largest", begin(&f, 33574) as usize)?;
    show(rt, "largest cut", begin(&f, 33573) as usize)?;
    show(rt, "largest and one", begin(&f, 33575) as usize)?;
    put(&mut f, 29, 65);
    show(rt, "65 variables", begin(&f, 33574) as usize)?;
    put(&mut f, 29, 63);
    show(rt, "63 of 64 variables", begin(&f, 33574) as usize)?;
    put(&mut f, 29, 64);
    put_word(&mut f, 30 + 12 * 63, 1001);
    show(rt, "last pair apart", begin(&f, 33574) as usize)?;
    put_word(&mut f, 30 + 12 * 63, 999);
    show(rt, "last pair overlaps", begin(&f, 33574) as usize)?;
    put_word(&mut f, 30 + 12 * 63, 1008);
    put_adds(&mut f);
    show(rt, "largest of ADD", begin(&f, 33574) as usize)?;
    put(&mut f, 33573, 17);
    show(rt, "last byte cut", begin(&f, 33574) as usize)
}
