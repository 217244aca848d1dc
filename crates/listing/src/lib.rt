// What the program `cores` prints, written into lent bytes that can hold it; into fewer nothing is written (21).
//
// The writers of parts answer the place after their part. Past the end of the lent bytes they write nothing and count on, so that with
// no bytes at all they measure.
#![tactic(auto)]

ghost use Rattle.std.specs.Prelude.{◌≡◌, ◌∷◌, [], map, ◌+◌, ◌*◌, ◌<◌, ◌≤◌, min, length, take};
ghost use Rattle.memory.specs.Memory.{splice, flat};
ghost use Rattle.listing.specs.Listing.{decimal, column, core_line, core_lines, kind_letter, taking_text, head, listing, refused_text, long_text};
ghost use Rattle.listing.specs.Writers.{text_left, text_call};

use protocol::Registers;
use states::{Held, table_of};
use verdict::Refusal;

const LINE_FEED: u8 = b'\n';

const SPACE: u8 = b' ';

const FIRST_WRITING: u8 = 16; // the order list's bytes of writings, from here on

const CORES: usize = 4; // of a state

// ---- bytes and numbers

fn put_byte(out: &mut [u8], at: usize, byte: u8) -> usize
    requires { at < 18446744073709551615 }
    ensures { (out.new ≡ splice out.old at (byte ∷ [])) × (result ≡ at + 1) }
{
    if at < out.len() {
        out[at] = byte;
    }
    at + 1
}

fn write_text(out: &mut [u8], at: usize, text: &[u8]) -> usize
    requires { at + length text.now < 18446744073709551615 }
    ensures { (out.new ≡ splice out.old at text.now) × (result ≡ at + length text.now) }
{
    let mut next = at;
    for &byte in text {
        next = put_byte(out, next, byte);
    }
    next
}

// In base ten, at most five digits.
fn write_decimal(out: &mut [u8], at: usize, value: u16) -> usize
    requires { at + 5 < 18446744073709551615 }
    ensures { (out.new ≡ splice out.old at (decimal value)) × (result ≡ at + length (decimal value)) × (result ≤ at + 5) }
{
    if value < 10 {
        return put_byte(out, at, b'0' + value as u8);
    }
    let last = write_decimal(out, at, value / 10);
    put_byte(out, last, b'0' + (value % 10) as u8)
}

// A number and the byte that ends it.
fn write_column(out: &mut [u8], at: usize, value: u16, end: u8) -> usize
    requires { at + 6 < 18446744073709551615 }
    ensures { (out.new ≡ splice out.old at (column value end)) × (result ≡ at + length (column value end)) × (result ≤ at + 6) }
{
    let next = write_decimal(out, at, value);
    put_byte(out, next, end)
}

// ---- the core table

fn write_line(out: &mut [u8], at: usize, k: usize, r: Registers) -> usize
    requires { (at + 30 < 18446744073709551615) × (k < 4) }
    ensures { (out.new ≡ splice out.old at (core_line k r)) × (result ≡ at + length (core_line k r)) × (result ≤ at + 30) }
{
    let core = k as u16;
    let mode = r.mode as u16;
    let cycles = r.cycles;
    let flags = r.flags as u16;
    let second = write_column(out, at, core, SPACE);
    let third = write_column(out, second, mode, SPACE);
    let fourth = write_column(out, third, cycles, SPACE);
    let fifth = write_column(out, fourth, flags, SPACE);
    write_column(out, fifth, r.count, LINE_FEED)
}

// The lines of the first n cores.
fn write_lines(out: &mut [u8], at: usize, s: Held, n: usize) -> usize
    requires { at + 120 < 18446744073709551615 }
    ensures { (out.new ≡ splice out.old at (core_lines 0 (take n s.cores))) × (result ≡ at + length (core_lines 0 (take n s.cores))) × (result ≤ at + 120) }
{
    let cores = table_of(s);
    let mut next = at;
    for k in 0..n.min(CORES) {
        next = write_line(out, next, k, cores[k]);
    }
    next
}

// ---- the takings

fn kind_of(byte: u8) -> u8
    ensures { result ≡ kind_letter byte }
{
    if byte < FIRST_WRITING { b'r' } else { b'w' }
}

fn write_taking(out: &mut [u8], at: usize, byte: u8) -> usize
    requires { at + 3 < 18446744073709551615 }
    ensures { (out.new ≡ splice out.old at (taking_text byte)) × (result ≡ at + 3) }
{
    let core = put_byte(out, at, SPACE);
    let kind = put_byte(out, core, b'0' + byte % FIRST_WRITING);
    put_byte(out, kind, kind_of(byte))
}

// The first `taken` bytes of the order list.
fn write_takings(out: &mut [u8], at: usize, list: &[u8], taken: usize) -> usize
    requires { at + 3 * min taken (length list.now) < 18446744073709551615 }
    ensures { (out.new ≡ splice out.old at (flat (map taking_text (take taken list.now))))
        × (result ≡ at + length (flat (map taking_text (take taken list.now)))) × (result ≡ at + 3 * min taken (length list.now)) }
{
    let takings = &list[..taken.min(list.len())];
    let mut next = at;
    for &byte in takings {
        next = write_taking(out, next, byte);
    }
    next
}

// ---- the three texts: each writer answers the length of its text, or a refusal

// What comes before the takings.
fn write_head(out: &mut [u8], s: Held, n: usize) -> usize
    ensures { (out.new ≡ splice out.old 0 (head n s)) × (result ≡ length (head n s)) × (result ≤ 154) }
{
    let lines = write_text(out, 0, b"core mode cycles flags count\n");
    let order = write_lines(out, lines, s, n);
    write_text(out, order, b"order")
}

// The listing of n cores in the state s and of the first `taken` takings of the order list.
pub fn write_listing(
    s: Held,
    n: usize,
    list: &[u8],
    taken: usize,
    out: &mut [u8],
) -> Result<usize, Refusal>
    ensures { text_left result out.new ≡ text_call (listing n s (take taken list.now)) out.old }
{
    let mut nothing = [0u8; 0];
    let before = write_head(&mut nothing, s, n);
    if out.len() <= before {
        return Err(Refusal::BadLengths);
    }
    let takings = taken.min(list.len());
    if (out.len() - before - 1) / 3 < takings {
        return Err(Refusal::BadLengths);
    }
    let from = write_head(out, s, n);
    let end = write_takings(out, from, list, taken);
    Ok(put_byte(out, end, LINE_FEED))
}

fn write_number(out: &mut [u8], number: u8) -> usize
    ensures { (out.new ≡ splice out.old 0 (refused_text number)) × (result ≡ length (refused_text number)) }
{
    let at = write_text(out, 0, b"refused ");
    write_column(out, at, number as u16, LINE_FEED)
}

// The refusal with its number: of any number, as `refused_text` has it.
pub fn write_refused(number: u8, out: &mut [u8]) -> Result<usize, Refusal>
    ensures { text_left result out.new ≡ text_call (refused_text number) out.old }
{
    let mut nothing = [0u8; 0];
    if out.len() < write_number(&mut nothing, number) {
        return Err(Refusal::BadLengths);
    }
    Ok(write_number(out, number))
}

// A file was longer than the program reads.
pub fn write_long(out: &mut [u8]) -> Result<usize, Refusal>
    ensures { text_left result out.new ≡ text_call long_text out.old }
{
    if out.len() < 5 {
        return Err(Refusal::BadLengths);
    }
    Ok(write_text(out, 0, b"long\n"))
}
