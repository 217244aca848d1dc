// The operands of an instruction: the places of its addresses, and whether they lie beyond the data.
// Not here: what the instructions do with them (crate `execution`); what an address stands for, as a definition (crate `processor`).
#![tactic(auto)]

ghost use Rattle.std.specs.Prelude.{◌≡◌, ◌+◌, ◌<◌, ◌≤◌, true, length, nat_lt};
ghost use Rattle.memory.specs.Memory.{word};
ghost use Rattle.verdict.specs.Verdict.{pick};
ghost use Rattle.values.specs.Commands.{beyond, any_beyond};
ghost use Rattle.processor.specs.Processor.{place_of};
ghost use Rattle.processor.specs.Typed.{operands_at, Low};

use commands::Operands;
use protocol::Registers;

// From here on an address is absolute.
const ABSOLUTE: u16 = 32768;

// What the sum with an address wraps at: it takes 32,768 away.
const BACK: u64 = u64::MAX - 32767;

// What an address is added to.
fn base(offset: u16, address: u16) -> u64
    ensures { result ≡ pick (nat_lt address 32768) offset 18446744073709518848 }
{
    if address < ABSOLUTE {
        return offset as u64;
    }
    BACK
}

// The place of an address, for a core with this data offset. One sum for both kinds of address: of a sum and a difference the compiler makes both.
fn place(offset: u16, address: u16) -> usize
    ensures { (result ≡ place_of offset address) × (result < 98304) }
{
    std::num::wrapping_add_u64(base(offset, address), address as u64) as usize
}

// The place of the address that stands in the code at `at`.
pub fn operand(offset: u16, code: &[u8], at: usize) -> usize
    requires { at + 2 ≤ length code.now }
    ensures { (result ≡ place_of offset (word code.now at)) × (result < 98304) }
{
    place(offset, code::word(code, at))
}

// Whether an operand is beyond the data.
pub fn is_beyond(size: usize, place: usize, width: usize) -> bool
    requires { (place < 1000000) × (width < 65536) }
    ensures { result ≡ beyond size place width }
{
    size < place + width
}

// Whether one of two operands is, of n bytes at p and of m bytes at q.
pub fn any_beyond(size: usize, p: usize, n: usize, q: usize, m: usize) -> bool
    requires { (p < 1000000) × (n < 65536) × (q < 1000000) × (m < 65536) }
    ensures { result ≡ any_beyond size p n q m }
{
    if is_beyond(size, p, n) {
        return true;
    }
    is_beyond(size, q, m)
}

// The operands of a command with three addresses. Mostly none of them is absolute: then the data offset is added to each.
pub fn operands(r: Registers, code: &[u8]) -> Operands
    requires { (r.counter + 8 ≤ length code.now) × (length code.now ≤ 8192) }
    ensures { (result ≡ operands_at 6 code.now r) × Low result }
{
    let p = r.counter as usize;
    let kind = code[p + 1];
    let to = code::word(code, p + 2);
    let first = code::word(code, p + 4);
    let second = code::word(code, p + 6);
    if (to < ABSOLUTE) & (first < ABSOLUTE) & (second < ABSOLUTE) {
        let offset = r.offset as usize;
        return Operands {
            kind,
            to: offset + to as usize,
            first: offset + first as usize,
            second: offset + second as usize,
        };
    }
    Operands {
        kind,
        to: place(r.offset, to),
        first: place(r.offset, first),
        second: place(r.offset, second),
    }
}

// Those of NOT, which has two, and of 44 and 45: the one source stands for both.
pub fn single(r: Registers, code: &[u8]) -> Operands
    requires { (r.counter + 6 ≤ length code.now) × (length code.now ≤ 8192) }
    ensures { (result ≡ operands_at 4 code.now r) × Low result }
{
    let p = r.counter as usize;
    let source = operand(r.offset, code, p + 4);
    Operands {
        kind: code[p + 1],
        to: operand(r.offset, code, p + 2),
        first: source,
        second: source,
    }
}
