// A typed command, whichever it is: reading its sources by the type, and storing what it gives of them.
ghost use Rattle.std.specs.Prelude.{◌≡◌, ℕ, true, false, ◌+◌, ◌≤◌, ◌<◌, length};
ghost use Rattle.memory.specs.Memory.{read_le};
ghost use Rattle.values.specs.Types.{width_of, takes};
ghost use Rattle.values.specs.Width.{Width};
ghost use Rattle.values.specs.Values.{typed};
ghost use Rattle.values.specs.declared.Value.{Value};
ghost use Rattle.values.specs.Commands.{result, result_width, second_width, command, zero_divisor};
ghost use Rattle.commands.specs.Attempts.{divided, attempted, Inside};

use crate::{Operands, Source, ZeroDivisor, store_pattern};
use values::{Value, pattern_of, read_value};

// A command of document 01's list that has a type byte.
pub trait Command {
    // Its second source: a value of the command's type, a count, or none.
    type Second: Source;

    const CODE: u8;

    ghost CODE: { ℕ };

    // The sources that it has a result for: all, unless a command says otherwise.
    ghost can: { Value → Self.Second → Type 0 } = { λ a b. Unit {0} };

    // The result of two sources at a width in bytes.
    ghost gives: { ℕ → Value → Self.Second → Value };

    fn apply(w: usize, a: Value, b: Self::Second) -> Value
        requires { Width w × can a b }
        ensures { result ≡ gives w a b };

    // The second source has the bytes that the list gives it.
    ghost second_is: { (t : ℕ) → Self.Second.width t ≡ second_width CODE t };

    // Each divisor that is no fault has a result.
    ghost can_be: { (t p q : ℕ) → takes CODE t ≡ true → zero_divisor CODE t q ≡ false → can (typed t p) (Self.Second.stands_for t q) };

    // The result is the list's.
    ghost gives_is: { (t p q : ℕ) → gives (width_of t) (typed t p) (Self.Second.stands_for t q) ≡ result CODE (width_of t) (typed t p) (typed t q) q };
}

// The bytes of a command's result: a BOOL's for a comparison.
fn result_width(op: u8, t: u8) -> usize
    requires { takes op t ≡ true }
    ensures { result ≡ result_width op t }
{
    if op < 32 { values::width_of(t) } else { 1 }
}

// Whether a command at this type has a zero divisor at a place: DIV of whole numbers alone can.
fn zero_divisor(op: u8, t: u8, d: &[u8], at: usize) -> bool
    requires { (takes op t ≡ true) × (at + second_width op t ≤ length d.now) }
    ensures { result ≡ zero_divisor op t (read_le d.now at (second_width op t)) }
{
    if op == 19 && 1 <= t && t <= 8 {
        memory::load(d, at, values::width_of(t)) == 0
    } else {
        false
    }
}

// The pattern of the result at type t, whose sources are read by it.
#[inline(always)]
fn pattern_in<C: Command>(d: &[u8], t: u8, a: usize, b: usize) -> u64
    requires { (takes C.CODE t ≡ true) × (a + width_of t ≤ length d.now) × (b + second_width C.CODE t ≤ length d.now) × (zero_divisor C.CODE t (read_le d.now b (second_width C.CODE t)) ≡ false) }
    ensures { result ≡ command C.CODE t (read_le d.now a (width_of t)) (read_le d.now b (second_width C.CODE t)) }
{
    pattern_of(
        result_width(C::CODE, t),
        C::apply(
            values::width_of(t),
            read_value(d, t, a),
            C::Second::read(d, t, b),
        ),
    )
}

// The same, by an arm with a constant for each type: where t is constant, the compiler keeps that arm alone. Of a body that reads by the type that it is given it does not (docs/PERFORMANCE.md).
fn pattern<C: Command>(d: &[u8], t: u8, a: usize, b: usize) -> u64
    requires { (takes C.CODE t ≡ true) × (a + width_of t ≤ length d.now) × (b + second_width C.CODE t ≤ length d.now) × (zero_divisor C.CODE t (read_le d.now b (second_width C.CODE t)) ≡ false) }
    ensures { result ≡ command C.CODE t (read_le d.now a (width_of t)) (read_le d.now b (second_width C.CODE t)) }
{
    match t {
        0 => pattern_in::<C>(d, 0, a, b),
        1 => pattern_in::<C>(d, 1, a, b),
        2 => pattern_in::<C>(d, 2, a, b),
        3 => pattern_in::<C>(d, 3, a, b),
        4 => pattern_in::<C>(d, 4, a, b),
        5 => pattern_in::<C>(d, 5, a, b),
        6 => pattern_in::<C>(d, 6, a, b),
        7 => pattern_in::<C>(d, 7, a, b),
        8 => pattern_in::<C>(d, 8, a, b),
        9 => pattern_in::<C>(d, 9, a, b),
        10 => pattern_in::<C>(d, 10, a, b),
        _ => pattern_in::<C>(d, 11, a, b),
    }
}

// The command at type t on the data, none of whose operands is beyond it: the divisor is tried, and the result is stored.
pub fn typed<C: Command>(d: &mut [u8], t: u8, o: Operands) -> Result<(), ZeroDivisor>
    requires { (o.kind ≡ t) × (takes C.CODE t ≡ true) × Inside C.CODE o d.old }
    ensures { divided result d.new ≡ attempted C.CODE o d.old }
{
    if zero_divisor(C::CODE, t, d, o.second) {
        return Err(ZeroDivisor);
    }
    store_pattern(
        d,
        result_width(C::CODE, t),
        o.to,
        pattern::<C>(d, t, o.first, o.second),
    );
    Ok(())
}
