// Whether an operand of a typed command is beyond the data, by the command and its type.
// Not here: what the command does where none is (crates `dispatch`, `arithmetic`, `comparisons` and `bitwise`).
#![tactic(auto)]

ghost use Rattle.std.specs.Prelude.{◌≡◌, ◌+◌, ◌-◌, ◌^◌, ◌<◌};
ghost use Rattle.verdict.specs.Verdict.{either};
ghost use Rattle.values.specs.Types.{width_of};
ghost use Rattle.values.specs.Commands.{beyond, any_beyond, typed_beyond};
ghost use Rattle.commands.specs.Attempts.{OperandsGiven, ThreeOperands};

use commands::Operands;

// Whether one of the operands is beyond the data: the result of n bytes, the sources of m and k bytes.
fn beyond(size: usize, o: Operands, n: usize, m: usize, k: usize) -> bool
    requires { (o.to + n < 2 ^ 64) × (o.first + m < 2 ^ 64) × (o.second + k < 2 ^ 64) }
    ensures { result ≡ either (beyond size o.to n) (any_beyond size o.first m o.second k) }
{
    if size < o.to + n {
        return true;
    }
    if size < o.first + m {
        return true;
    }
    size < o.second + k
}

// How many places have eight bytes of the data from them on.
fn places_of_eight(size: usize) -> usize
    ensures { result ≡ size - 7 }
{
    if size < 8 {
        return 0;
    }
    size - 7
}

// Whether one of the operands has less than eight bytes of the data. Where none has, no type leads beyond the data, and no width is looked up.
fn near_end(size: usize, o: Operands) -> bool
    ensures { result ≡ either (beyond size o.to 8) (any_beyond size o.first 8 o.second 8) }
{
    let places = places_of_eight(size);
    if places <= o.to {
        return true;
    }
    if places <= o.first {
        return true;
    }
    if places <= o.second {
        return true;
    }
    false
}

// Whether one of the operands is beyond the data, by the command and its type.
pub fn typed_beyond(size: usize, op: u8, o: Operands) -> bool
    requires { ThreeOperands op × OperandsGiven op o }
    ensures { result ≡ typed_beyond op o.kind size o.to o.first o.second }
{
    if near_end(size, o) {
        let width = values::width_of(o.kind);
        if op < 28 {
            return beyond(size, o, width, width, width);
        }
        if op < 32 {
            return beyond(size, o, width, width, 1);
        }
        return beyond(size, o, 1, width, width);
    }
    false
}

// The same of NOT, which has one source.
pub fn single_beyond(size: usize, o: Operands) -> bool
    requires { (o.kind < 12) × (o.to < 98304) × (o.first < 98304) × (o.second < 98304) }
    ensures { result ≡ either (beyond size o.to (width_of o.kind)) (any_beyond size o.first (width_of o.kind) o.second 0) }
{
    if near_end(size, o) {
        let w = values::width_of(o.kind);
        return beyond(size, o, w, w, 0);
    }
    false
}
