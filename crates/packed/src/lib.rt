// Document 02, 2.8: packed decimal for panel switches, four bits to a digit.
// In order: digits one by one; at a width; from memory to memory. A width w is in bytes.
#![tactic(auto)]

ghost use Rattle.std.specs.Prelude.{◌≡◌, ◌+◌, ◌*◌, ◌/◌, ◌^◌, ◌≤◌, ◌<◌};
ghost use Rattle.conversions.specs.Data.{ended};
ghost use Rattle.packed.specs.Packed.{packed_digits, unpacked_digits, digits_below, packed_at, unpacked_at};
ghost use Rattle.packed.specs.Data.{packing, unpacking};

use values::Value;
use verdict::Fault;

// The weight of the digit i from the end, where each has four bits.
fn weight_at(i: usize) -> u64
    requires { i < 16 }
    ensures { result ≡ 2 ^ (4 * i) }
{
    1 << (4 * i)
}

// The lowest d decimal digits of n, four bits each, and what is left of n.
#[derive(Clone, Copy)]
struct Digits {
    pub packed: u64,
    pub rest: u64,
}

fn pack(d: usize, n: u64) -> Digits
    requires { d ≤ 16 }
    ensures { (result.packed ≡ packed_digits d n) × (result.rest ≡ n / 10 ^ d) }
{
    let mut packed = 0;
    let mut rest = n;
    for i in 0..d {
        packed += rest % 10 * weight_at(i);
        rest /= 10;
    }
    Digits { packed, rest }
}

// Whether the lowest d fours of bits are decimal digits.
fn all_digits(d: usize, p: u64) -> bool
    ensures { result ≡ digits_below 16 10 d p }
{
    let mut rest = p;
    for _ in 0..d {
        if 9 < rest % 16 {
            return false;
        }
        rest /= 16;
    }
    true
}

// The number of d digits of four bits.
fn unpack(d: usize, p: u64) -> u64
    requires { d ≤ 16 }
    ensures { result ≡ unpacked_digits d p }
{
    let mut n = 0;
    for i in (0..d).rev() {
        n = n * 10 + p / weight_at(i) % 16;
    }
    n
}

// Whole to packed decimal at w bytes, none where there are too many digits.
pub fn to_packed(w: usize, n: u64) -> Option<Value>
    requires { w ≤ 8 }
    ensures { result ≡ packed_at w n }
{
    let d = pack(2 * w, n);
    if d.rest == 0 {
        Some(Value::Unsigned(d.packed))
    } else {
        None
    }
}

// Packed decimal to whole at w bytes, none where a digit is above 9.
pub fn from_packed(w: usize, p: u64) -> Option<Value>
    requires { w ≤ 8 }
    ensures { result ≡ unpacked_at w p }
{
    if all_digits(2 * w, p) {
        Some(Value::Unsigned(unpack(2 * w, p)))
    } else {
        None
    }
}

// Codes 44 and 45 differ in the function that they call: one function over a parameter would say that function's contract in its own, and be longer than both.
// 44: the addresses are tried first, then the digits.
pub fn pack_at(d: &mut [u8], t: u8, destination: usize, source: usize) -> Result<(), Fault>
    requires { (t < 12) × (destination < 98304) × (source < 98304) }
    ensures { ended result d.new ≡ packing t d.old destination source }
{
    let w = values::width_of(t);
    if conversions::either_beyond(d.len(), destination, w, source, w) {
        return Err(Fault::Address);
    }
    let n = memory::load(d, source, w);
    conversions::settle(d, t, destination, to_packed(w, n))
}

// 45
pub fn unpack_at(d: &mut [u8], t: u8, destination: usize, source: usize) -> Result<(), Fault>
    requires { (t < 12) × (destination < 98304) × (source < 98304) }
    ensures { ended result d.new ≡ unpacking t d.old destination source }
{
    let w = values::width_of(t);
    if conversions::either_beyond(d.len(), destination, w, source, w) {
        return Err(Fault::Address);
    }
    let p = memory::load(d, source, w);
    conversions::settle(d, t, destination, from_packed(w, p))
}
