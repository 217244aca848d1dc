// Document 02, 2.3: conversions between the number types 1 to 10.
// In order: rounding to the nearest whole number; a float's pattern taken apart; to a whole type; to REAL
// and LREAL; by type number; from memory to memory. A width w is in bytes. No float arithmetic: results are rounded as whole numbers, once.
#![tactic(auto)]

ghost use Rattle.std.specs.Prelude.{◌≡◌, ◌+◌, ◌-◌, ◌*◌, ◌/◌, ◌%◌, ◌^◌, ◌<◌, ◌≤◌, Bool, true, false, length, if◌then◌else◌};
ghost use Rattle.std.specs.Float.Ieee as Ieee;
ghost use Rattle.std.specs.Float.{binary32, binary64};
ghost use Rattle.std.specs.Float.Ieee.Nearest.{closest};
ghost use Rattle.values.specs.Types.{width_of};
ghost use Rattle.values.specs.Commands.{any_beyond};
ghost use Rattle.conversions.specs.Conversions.{with_sign, held_in, nearest_whole, to_whole, narrow, to_real, to_lreal, to_type, result_as};
ghost use Rattle.conversions.specs.Digits.{digits_in, shift_in};
ghost use Rattle.conversions.specs.Data.{ended, settled, converting};

use values::Value;
use verdict::Fault;

// m / (2 * half) to the nearest whole number, a tie to the even one.
fn nearest_by_half(m: u64, half: u64) -> u64
    requires { (0 < half) × (half < 2 ^ 63) }
    ensures { result ≡ closest m (half * 2) }
{
    let q = m / (half * 2);
    let rest = m % (half * 2);
    if rest < half {
        q
    } else if half < rest {
        q + 1
    } else {
        q + q % 2
    }
}

// m / 2^k to the nearest whole number, a tie to the even one.
fn nearest_shift(m: u64, k: u64) -> u64
    ensures { result ≡ closest m (2 ^ k) }
{
    if k == 0 {
        m
    } else if k < 64 {
        nearest_by_half(m, 1 << (k - 1))
    } else if k == 64 {
        if 0x8000_0000_0000_0000 < m { 1 } else { 0 }
    } else {
        0
    }
}

// m * 2^j / 2^l to the nearest whole number, a tie to the even one.
fn nearest_scaled(m: u64, j: u64, l: u64) -> u64
    requires { (j - l < 64) × (m * 2 ^ (j - l) < 2 ^ 64) }
    ensures { result ≡ closest (m * 2 ^ j) (2 ^ l) }
{
    if l <= j {
        m << (j - l)
    } else {
        nearest_shift(m, l - j)
    }
}

// The digits of an LREAL's pattern, the leading one included.
fn digits_of(p: u64) -> u64
    ensures { result ≡ digits_in binary64 p }
{
    let t = p % 0x10_0000_0000_0000;
    if p % 0x8000_0000_0000_0000 / 0x10_0000_0000_0000 == 0 {
        t
    } else {
        t + 0x10_0000_0000_0000
    }
}

// By how many binary places an LREAL's digits stand above its smallest value.
fn shift_of(p: u64) -> u64
    ensures { result ≡ shift_in binary64 p }
{
    let e = p % 0x8000_0000_0000_0000 / 0x10_0000_0000_0000;
    if e == 0 { 0 } else { e - 1 }
}

// The whole number of a sign and a magnitude, none where w bytes can't hold it: signed, unsigned, and either.
fn signed_at(w: usize, negative: bool, n: u64) -> Option<Value>
    requires { (0 < w) × (w ≤ 8) }
    ensures { result ≡ held_in true w (with_sign negative n) }
{
    if n == 0 {
        return Some(Value::Signed(0));
    }
    let half = values::half_of(w);
    if negative {
        if n - 1 < half {
            Some(Value::Signed(values::below_zero(n - 1)))
        } else {
            None
        }
    } else {
        if n < half {
            Some(Value::Signed(n as i64))
        } else {
            None
        }
    }
}

fn unsigned_at(w: usize, negative: bool, number: u64) -> Option<Value>
    requires { (0 < w) × (w ≤ 8) }
    ensures { result ≡ held_in false w (with_sign negative number) }
{
    if number == 0 {
        return Some(Value::Unsigned(0));
    }
    if negative {
        return None;
    }
    if number / 2 < values::half_of(w) {
        Some(Value::Unsigned(number))
    } else {
        None
    }
}

fn held_at(signed: bool, w: usize, negative: bool, n: u64) -> Option<Value>
    requires { (0 < w) × (w ≤ 8) }
    ensures { result ≡ held_in signed w (with_sign negative n) }
{
    if signed {
        signed_at(w, negative, n)
    } else {
        unsigned_at(w, negative, n)
    }
}

// The whole number nearest to x, none where w bytes can't hold it.
fn nearest_whole(signed: bool, w: usize, x: f64) -> Option<Value>
    requires { (0 < w) × (w ≤ 8) }
    ensures { result ≡ nearest_whole signed w x }
{
    if x != x {
        return None;
    }
    let p = f64::to_bits(x);
    let j = shift_of(p);
    if 1085 < j {
        return None;
    }
    let n = nearest_scaled(digits_of(p), j, 1074);
    held_at(signed, w, 0x8000_0000_0000_0000 <= p, n)
}

// The REAL nearest to m * 2^j / 2^1074, with a sign.
fn round_real(negative: bool, m: u64, j: u64) -> f32
    requires { j ≤ 4096 }
    ensures { result ≡ Ieee.round binary32 negative (m * 2 ^ j) (2 ^ 1074) }
{
    f32::from_bits(round_bits(negative, m, j))
}

// The weight of a REAL's sign in its pattern.
fn sign_weight(negative: bool) -> u64
    ensures { result ≡ (if negative then 2 ^ 31 else 0) }
{
    if negative { 0x8000_0000 } else { 0 }
}

// The pattern of the REAL nearest to m * 2^j / 2^1074, with a sign.
fn round_bits(negative: bool, m: u64, j: u64) -> u32
    requires { j ≤ 4096 }
    ensures { result ≡ Ieee.to_bits binary32 (Ieee.round binary32 negative (m * 2 ^ j) (2 ^ 1074)) }
{
    let sign = sign_weight(negative);
    if m == 0 {
        return sign as u32;
    }
    let k = dropped(m, j);
    let q = nearest_scaled(m, j, 925 + k);
    let b = k * 0x80_0000 + q;
    if b < 0x7f80_0000 {
        (sign + b) as u32
    } else {
        (sign + 0x7f80_0000) as u32
    }
}

// How many binary places of m * 2^j / 2^925 a REAL drops.
fn dropped(m: u64, j: u64) -> u64
    requires { (0 < m) × (j ≤ 4096) }
    ensures { result ≡ Ieee.size (m * 2 ^ j * 2 ^ 149 / 2 ^ 1074) - 24 }
{
    let z = 64 - (u64::leading_zeros(m) as u64) + j;
    if 949 < z { z - 949 } else { 0 }
}

// An LREAL as a REAL, rounded once.
fn narrowed(x: f64) -> f32
    ensures { result ≡ narrow x }
{
    if x != x {
        return 0.0 / 0.0;
    }
    let p = f64::to_bits(x);
    let j = shift_of(p);
    if j == 2046 {
        if p < 0x8000_0000_0000_0000 {
            f32::from_bits(0x7f80_0000)
        } else {
            f32::from_bits(0xff80_0000)
        }
    } else {
        round_real(0x8000_0000_0000_0000 <= p, digits_of(p), j)
    }
}

// A typed operand as a whole number, none where w bytes can't hold it.
fn to_whole(signed: bool, w: usize, v: Value) -> Option<Value>
    requires { (0 < w) × (w ≤ 8) }
    ensures { result ≡ to_whole signed w v }
{
    match v {
        Value::Bool(_) => None,
        Value::Signed(z) => held_at(signed, w, z < 0, z.unsigned_abs()),
        Value::Unsigned(n) => held_at(signed, w, false, n),
        Value::Real(x) => nearest_whole(signed, w, std::num::f32_to_f64_with_nan(x)),
        Value::Lreal(x) => nearest_whole(signed, w, x),
    }
}

// The whole number n with a sign as a REAL: n is n * 2^1074 / 2^1074. Never through LREAL, which would round twice.
fn whole_real(negative: bool, n: u64) -> f32
    ensures { result ≡ Ieee.round binary32 negative (n * 2 ^ 1074) (2 ^ 1074) }
{
    round_real(negative, n, 1074)
}

// A typed operand as a REAL.
fn to_real(v: Value) -> f32
    ensures { result ≡ to_real v }
{
    match v {
        Value::Bool(_) => 0.0 / 0.0,
        Value::Signed(z) => whole_real(z < 0, z.unsigned_abs()),
        Value::Unsigned(n) => whole_real(false, n),
        Value::Real(x) => x,
        Value::Lreal(x) => narrowed(x),
    }
}

// A typed operand as an LREAL.
fn to_lreal(v: Value) -> f64
    ensures { result ≡ to_lreal v }
{
    match v {
        Value::Bool(_) => 0.0 / 0.0,
        Value::Signed(z) => std::num::nearest_i64_to_f64(z),
        Value::Unsigned(n) => std::num::nearest_u64_to_f64(n),
        Value::Real(x) => std::num::f32_to_f64_with_nan(x),
        Value::Lreal(x) => x,
    }
}

// A typed operand as one of type t, none where that type can't hold it. The code that asks for this names a type from 1 to 10.
pub fn convert(t: u8, v: Value) -> Option<Value>
    ensures { result ≡ to_type t v }
{
    match t {
        1 => to_whole(true, 1, v),
        2 => to_whole(false, 1, v),
        3 => to_whole(true, 2, v),
        4 => to_whole(false, 2, v),
        5 => to_whole(true, 4, v),
        6 => to_whole(false, 4, v),
        7 => to_whole(true, 8, v),
        8 => to_whole(false, 8, v),
        9 => Some(Value::Real(to_real(v))),
        10 => Some(Value::Lreal(to_lreal(v))),
        _ => None,
    }
}

// From memory to memory. Whether one of two operands is beyond the data: n bytes at p, m bytes at q.
pub fn either_beyond(size: usize, p: usize, n: usize, q: usize, m: usize) -> bool
    requires { (p + n < 2 ^ 64) × (q + m < 2 ^ 64) }
    ensures { result ≡ any_beyond size p n q m }
{
    size < p + n || size < q + m
}

// Stores a result of type t, if it is held.
pub fn settle(d: &mut [u8], t: u8, to: usize, c: Option<Value>) -> Result<(), Fault>
    requires { (t < 12) × (to + width_of t ≤ length d.old) }
    ensures { ended result d.new ≡ settled t d.old to (result_as t c) }
{
    match c {
        Some(v) => {
            let w = values::width_of(t);
            commands::store_pattern(d, w, to, values::pattern_of(w, v));
            Ok(())
        }
        None => Err(Fault::Conversion),
    }
}

// Code 43: the addresses are tried first, then whether the destination can hold the result.
pub fn convert_at(
    d: &mut [u8],
    from: u8,
    to: u8,
    destination: usize,
    source: usize,
) -> Result<(), Fault>
    requires { (from < 12) × (to < 12) × (destination < 98304) × (source < 98304) }
    ensures { ended result d.new ≡ converting from to d.old destination source }
{
    if either_beyond(
        d.len(),
        destination,
        values::width_of(to),
        source,
        values::width_of(from),
    ) {
        return Err(Fault::Address);
    }
    let v = values::read_value(d, from, source);
    settle(d, to, destination, convert(to, v))
}
