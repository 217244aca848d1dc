// What the command of a line gives on memory, and whether the line says the same.
ghost use Rattle.commands.specs.Attempts.{OperandsGiven};

use super::names::type_of;
use super::vector_line::Line;
use commands::Operands;
use verdict::Fault;

// The typed command with this code byte.
fn perform(code: u8, d: &mut [u8], o: Operands) -> Result<(), Fault>
    requires { OperandsGiven code o }
{
    match code {
        27 => dispatch::not_at(d, o),
        _ => dispatch::typed_at(d, code, o),
    }
}

// What a command gives that reads a at 0 and b at 8 and stores its result at 16.
fn on_memory<F: FnOnce(&mut [u8]) -> Result<(), Fault>>(
    a: u64,
    b: u64,
    command: F,
) -> Result<u64, Fault>
    requires { F.IsAlwaysCallable command }
{
    let mut d = [0u8; 24];
    memory::store(&mut d, 0, 8, a);
    memory::store(&mut d, 8, 8, b);
    let ended = command(&mut d);
    ended.map(|()| memory::load(&d, 16, 8))
}

// A typed command. None where it does not take the type.
fn run(code: u8, t: u8, a: u64, b: u64) -> Option<Result<u64, Fault>> {
    if !code::takes_type(code, t) {
        return None;
    }
    let o = Operands {
        kind: t,
        to: 16,
        first: 0,
        second: 8,
    };
    Some(on_memory(a, b, |d| perform(code, d, o)))
}

// A conversion. None where there is no such type.
fn converted(from: u8, to: u64, a: u64) -> Option<Result<u64, Fault>> {
    if 11 < from || 11 < to {
        return None;
    }
    Some(on_memory(a, 0, |d| {
        conversions::convert_at(d, from, to as u8, 16, 0)
    }))
}

// Whole to packed, and packed to whole.
fn to_packed(t: u8, a: u64) -> Option<Result<u64, Fault>> {
    if 11 < t {
        return None;
    }
    Some(on_memory(a, 0, |d| packed::pack_at(d, t, 16, 0)))
}

fn from_packed(t: u8, a: u64) -> Option<Result<u64, Fault>> {
    if 11 < t {
        return None;
    }
    Some(on_memory(a, 0, |d| packed::unpack_at(d, t, 16, 0)))
}

fn outcome_of(l: Line, code: u8) -> Option<Result<u64, Fault>> {
    let t = type_of(l.kind);
    match code {
        43 => converted(t, l.b, l.a),
        44 => to_packed(t, l.a),
        45 => from_packed(t, l.a),
        _ => run(code, t, l.a, l.b),
    }
}

// Whether the command gives what the line says.
pub fn agrees(l: Line, code: u8) -> bool {
    match outcome_of(l, code) {
        Some(Ok(result)) => l.result == Some(result),
        Some(Err(Fault::Divisor | Fault::Conversion)) => l.result.is_none(),
        _ => false,
    }
}
