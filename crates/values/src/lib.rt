// The typed values of document 01: the twelve types, reading by type, and whole numbers at a width.
// In order: the types; what a value holds; floats and their patterns; whole numbers and their patterns; sums, products and quotients;
// bits; a value from memory, and the pattern of a value. A width w is in bytes.
#![tactic(auto)]

ghost use Rattle.std.specs.Prelude.{◌≡◌, ◌+◌, ◌-◌, ◌*◌, ◌%◌, ◌^◌, ◌<◌, ◌≤◌, length, pos, negsuc, ◌+ℤ◌, ◌-ℤ◌, ◌*ℤ◌, neg_ℤ, ◌≢◌, int_div};
ghost use Rattle.std.specs.Float.Ieee as Ieee;
ghost use Rattle.std.specs.Float.{binary32, binary64};
ghost use Rattle.values.specs.Types.{width_of};
ghost use Rattle.values.specs.Width.{Width, pattern, signed, wrap, signed_remainder, unsigned_remainder, flipped, shift_left, shift_right, turned, rotate_left, rotate_right};
ghost use Rattle.values.specs.Values.{pattern_of, read_value, truth_in, signed_in, unsigned_in, real_in, lreal_in};

// A typed operand: a truth value, a signed or unsigned whole number, a REAL or an LREAL.
#[derive(Clone, Copy)]
pub enum Value {
    Bool(bool),
    Signed(i64),
    Unsigned(u64),
    Real(f32),
    Lreal(f64),
}

// The bytes of a type. A `match`, since a constant table would be built anew at each use.
pub fn width_of(t: u8) -> usize
    requires { t < 12 }
    ensures { result ≡ width_of t }
{
    match t {
        0 => 1,
        1 => 1,
        2 => 1,
        3 => 2,
        4 => 2,
        5 => 4,
        6 => 4,
        7 => 8,
        8 => 8,
        9 => 4,
        10 => 8,
        _ => 4,
    }
}

// What a value holds if it is of that kind; else false, 0 or NaN. A function for each kind: one over all would need a trait with an impl for each.
pub fn truth_in(v: Value) -> bool
    ensures { result ≡ truth_in v }
{
    match v {
        Value::Bool(x) => x,
        _ => false,
    }
}

pub fn signed_in(v: Value) -> i64
    ensures { result ≡ signed_in v }
{
    match v {
        Value::Signed(x) => x,
        _ => 0,
    }
}

pub fn unsigned_in(v: Value) -> u64
    ensures { result ≡ unsigned_in v }
{
    match v {
        Value::Unsigned(x) => x,
        _ => 0,
    }
}

pub fn real_in(v: Value) -> f32
    ensures { result ≡ real_in v }
{
    match v {
        Value::Real(x) => x,
        _ => f32::NAN,
    }
}

pub fn lreal_in(v: Value) -> f64
    ensures { result ≡ lreal_in v }
{
    match v {
        Value::Lreal(x) => x,
        _ => f64::NAN,
    }
}

// The float of a pattern. Those above infinity's are NaN. A function for each format: the library has no trait over `from_bits` of both.
fn real_of(p: u32) -> f32
    ensures { result ≡ Ieee.of_bits binary32 p }
{
    if 0x7f80_0000 < p % 0x8000_0000 {
        f32::NAN
    } else {
        f32::from_bits(p)
    }
}

fn lreal_of(p: u64) -> f64
    ensures { result ≡ Ieee.of_bits binary64 p }
{
    if 0x7ff0_0000_0000_0000 < p % 0x8000_0000_0000_0000 {
        f64::NAN
    } else {
        f64::from_bits(p)
    }
}

// The pattern of a float. Every NaN has the same.
fn real_bits(x: f32) -> u32
    ensures { result ≡ Ieee.to_bits binary32 x }
{
    if x.is_nan() { 0x7fc0_0000 } else { x.to_bits() }
}

fn lreal_bits(x: f64) -> u64
    ensures { result ≡ Ieee.to_bits binary64 x }
{
    if x.is_nan() {
        0x7ff8_0000_0000_0000
    } else {
        x.to_bits()
    }
}

// The 64 bits of a signed number.
fn bits_of(x: i64) -> u64
    ensures { result ≡ pattern 64 x }
{
    x.cast_unsigned()
}

// The low w bytes of p.
fn low_bytes(w: usize, p: u64) -> u64
    requires { w ≤ 8 }
    ensures { result ≡ p % 2 ^ (8 * w) }
{
    if w < 8 { p % (1u64 << (8 * w)) } else { p }
}

// The lowest pattern of w bytes that stands for a negative number, and the first number that they do not hold as a positive one.
pub fn half_of(w: usize) -> u64
    requires { (0 < w) × (w ≤ 8) }
    ensures { result ≡ 2 ^ (8 * w - 1) }
{
    1u64 << (8 * w - 1)
}

// -1 - k
pub fn below_zero(k: u64) -> i64
    requires { k < 2 ^ 63 }
    ensures { result ≡ negsuc k }
{
    -1 - (k as i64)
}

// The pattern p of w bytes, read in two's complement. Below eight bytes without a branch, so that a load extends the sign itself.
fn signed_of(w: usize, p: u64) -> i64
    requires { (0 < w) × (w ≤ 8) × (p < 2 ^ (8 * w)) }
    ensures { result ≡ signed (8 * w) p }
{
    let half = half_of(w);
    if w < 8 {
        return (low_bytes(w, p + half) as i64) - (half as i64);
    }
    if p < half {
        p as i64
    } else {
        below_zero(half - 1 - (p - half))
    }
}

// z brought into the range of w bytes.
fn wrap_signed(w: usize, z: i64) -> i64
    requires { (0 < w) × (w ≤ 8) }
    ensures { result ≡ wrap (8 * w) z }
{
    signed_of(w, low_bytes(w, bits_of(z)))
}

// Sums, differences and products at w bytes. Sums and differences by the supplied operation of each width, as document 01 names the form.
pub fn add_unsigned(w: usize, x: u64, y: u64) -> u64
    requires { Width w }
    ensures { result ≡ (x + y) % 2 ^ (8 * w) }
{
    match w {
        1 => ((x % 256) as u8).wrapping_add((y % 256) as u8) as u64,
        2 => ((x % 65536) as u16).wrapping_add((y % 65536) as u16) as u64,
        4 => ((x % 4294967296) as u32).wrapping_add((y % 4294967296) as u32) as u64,
        _ => x.wrapping_add(y),
    }
}

pub fn sub_unsigned(w: usize, x: u64, y: u64) -> u64
    requires { Width w }
    ensures { result ≡ pattern (8 * w) (pos x -ℤ pos y) }
{
    match w {
        1 => ((x % 256) as u8).wrapping_sub((y % 256) as u8) as u64,
        2 => ((x % 65536) as u16).wrapping_sub((y % 65536) as u16) as u64,
        4 => ((x % 4294967296) as u32).wrapping_sub((y % 4294967296) as u32) as u64,
        _ => x.wrapping_sub(y),
    }
}

pub fn mul_unsigned(w: usize, x: u64, y: u64) -> u64
    requires { w ≤ 8 }
    ensures { result ≡ (x * y) % 2 ^ (8 * w) }
{
    low_bytes(w, x.wrapping_mul(y))
}

pub fn add_signed(w: usize, x: i64, y: i64) -> i64
    requires { Width w }
    ensures { result ≡ wrap (8 * w) (x +ℤ y) }
{
    signed_of(w, add_unsigned(w, bits_of(x), bits_of(y)))
}

pub fn sub_signed(w: usize, x: i64, y: i64) -> i64
    requires { Width w }
    ensures { result ≡ wrap (8 * w) (x -ℤ y) }
{
    signed_of(w, sub_unsigned(w, bits_of(x), bits_of(y)))
}

pub fn mul_signed(w: usize, x: i64, y: i64) -> i64
    requires { Width w }
    ensures { result ≡ wrap (8 * w) (x *ℤ y) }
{
    signed_of(w, mul_unsigned(w, bits_of(x), bits_of(y)))
}

fn neg_signed(w: usize, x: i64) -> i64
    requires { Width w }
    ensures { result ≡ wrap (8 * w) (neg_ℤ x) }
{
    signed_of(w, low_bytes(w, bits_of(x).wrapping_neg()))
}

// The quotient at w bytes, cut toward zero; the lowest by -1 is the lowest.
pub fn div_signed(w: usize, x: i64, y: i64) -> i64
    requires { Width w × (y ≢ pos 0) }
    ensures { result ≡ wrap (8 * w) (int_div x y) }
{
    if y == -1 {
        neg_signed(w, x)
    } else {
        wrap_signed(w, x / y)
    }
}

// The remainder, with the dividend's sign; by 0 it is 0; the lowest by -1 leaves 0.
pub fn mod_signed(x: i64, y: i64) -> i64
    ensures { result ≡ signed_remainder x y }
{
    if y == 0 {
        return 0; // MOD by 0
    }
    if y == -1 { 0 } else { x % y }
}

pub fn mod_unsigned(x: u64, y: u64) -> u64
    ensures { result ≡ unsigned_remainder x y }
{
    if y == 0 { 0 } else { x % y }
}

// Each bit of w bytes turned over.
pub fn flip(w: usize, x: u64) -> u64
    requires { w ≤ 8 }
    ensures { result ≡ flipped (8 * w) x }
{
    low_bytes(w, u64::MAX - x)
}

// Shifts by n places; by the width or more: 0.
pub fn shift_left(w: usize, x: u64, n: u8) -> u64
    requires { w ≤ 8 }
    ensures { result ≡ shift_left (8 * w) x n }
{
    let places = n as usize;
    if 8 * w <= places {
        return 0;
    }
    low_bytes(w, x << places)
}

pub fn shift_right(w: usize, x: u64, n: u8) -> u64
    requires { w ≤ 8 }
    ensures { result ≡ shift_right (8 * w) x n }
{
    let places = n as usize;
    if 8 * w <= places {
        return 0;
    }
    x >> places
}

// The bits of w bytes turned round: the highest ones, as many as places, come in below.
fn rotated(w: usize, x: u64, places: usize) -> u64
    requires { (w ≤ 8) × (0 < places) × (places < 8 * w) }
    ensures { result ≡ turned (8 * w) x places }
{
    let kept = 8 * w - places;
    let low = x % (1u64 << kept);
    let high = (x >> kept) % (1u64 << places);
    (low << places) + high
}

pub fn rotate_left(w: usize, x: u64, n: u8) -> u64
    requires { (0 < w) × (w ≤ 8) }
    ensures { result ≡ rotate_left (8 * w) x n }
{
    let places = (n as usize) % (8 * w);
    if places == 0 {
        return low_bytes(w, x);
    }
    rotated(w, x, places)
}

pub fn rotate_right(w: usize, x: u64, n: u8) -> u64
    requires { (0 < w) × (w ≤ 8) }
    ensures { result ≡ rotate_right (8 * w) x n }
{
    let places = (n as usize) % (8 * w);
    if places == 0 {
        return low_bytes(w, x);
    }
    rotated(w, x, 8 * w - places)
}

// The value of type t at a place. Each arm has its width as a constant, so that a load is one instruction.
pub fn read_value(d: &[u8], t: u8, at: usize) -> Value
    requires { (t < 12) × (at + width_of t ≤ length d.now) }
    ensures { result ≡ read_value d.now t at }
{
    match t {
        0 => Value::Bool(memory::load(d, at, 1) != 0),
        1 => Value::Signed(signed_of(1, memory::load(d, at, 1))),
        2 => Value::Unsigned(memory::load(d, at, 1)),
        3 => Value::Signed(signed_of(2, memory::load(d, at, 2))),
        4 => Value::Unsigned(memory::load(d, at, 2)),
        5 => Value::Signed(signed_of(4, memory::load(d, at, 4))),
        6 => Value::Unsigned(memory::load(d, at, 4)),
        7 => Value::Signed(signed_of(8, memory::load(d, at, 8))),
        8 => Value::Unsigned(memory::load(d, at, 8)),
        9 => Value::Real(real_of(memory::load(d, at, 4) as u32)),
        10 => Value::Lreal(lreal_of(memory::load(d, at, 8))),
        _ => Value::Signed(signed_of(4, memory::load(d, at, 4))),
    }
}

// The pattern of a value in w bytes.
pub fn pattern_of(w: usize, v: Value) -> u64
    requires { w ≤ 8 }
    ensures { result ≡ pattern_of w v }
{
    match v {
        Value::Bool(x) => x as u64,
        Value::Signed(x) => low_bytes(w, bits_of(x)),
        Value::Unsigned(x) => low_bytes(w, x),
        Value::Real(x) => real_bits(x) as u64,
        Value::Lreal(x) => lreal_bits(x),
    }
}
