// ADD SUB MUL DIV MOD: whole numbers wrap at the width, floats round once.
// Not here: the other typed commands (crates `comparisons` and `bitwise`); what all of them share (crate `commands`).
#![tactic(auto, unfolding(values::specs::Commands::on_kinds, values::specs::Commands::ADD, values::specs::Commands::SUB, values::specs::Commands::MUL, values::specs::Commands::DIV, values::specs::Commands::MOD))]

ghost use Rattle.std.specs.Prelude.{◌≡◌, false, refl};
ghost use Rattle.values.specs.Commands.{ADD, SUB, MUL, DIV, MOD, by_zero};
ghost use Rattle.commands.proofs.Laws.{two_sources, no_fault, add_listed, sub_listed, mul_listed, div_listed, mod_listed};

use commands::Command;
use values::Value;

pub struct Addition;

impl Command for Addition {
    type Second = Value;

    const CODE: u8 = 16;

    ghost CODE = { 16 };

    ghost gives = { ADD };

    fn apply(w: usize, a: Value, b: Value) -> Value {
        match a {
            Value::Bool(x) => Value::Bool(x),
            Value::Signed(x) => Value::Signed(values::add_signed(w, x, values::signed_in(b))),
            Value::Unsigned(x) => Value::Unsigned(values::add_unsigned(
                w,
                x,
                values::unsigned_in(b),
            )),
            Value::Real(x) => Value::Real(x + values::real_in(b)),
            Value::Lreal(x) => Value::Lreal(x + values::lreal_in(b)),
        }
    }

    ghost second_is = { λ t. two_sources 16 t refl refl };

    ghost can_be = { λ t p q taken whole. record {} };

    ghost gives_is = { λ t p q. add_listed _ _ _ _ };
}

pub struct Subtraction;

impl Command for Subtraction {
    type Second = Value;

    const CODE: u8 = 17;

    ghost CODE = { 17 };

    ghost gives = { SUB };

    fn apply(w: usize, a: Value, b: Value) -> Value {
        match a {
            Value::Bool(x) => Value::Bool(x),
            Value::Signed(x) => Value::Signed(values::sub_signed(w, x, values::signed_in(b))),
            Value::Unsigned(x) => Value::Unsigned(values::sub_unsigned(
                w,
                x,
                values::unsigned_in(b),
            )),
            Value::Real(x) => Value::Real(x - values::real_in(b)),
            Value::Lreal(x) => Value::Lreal(x - values::lreal_in(b)),
        }
    }

    ghost second_is = { λ t. two_sources 17 t refl refl };

    ghost can_be = { λ t p q taken whole. record {} };

    ghost gives_is = { λ t p q. sub_listed _ _ _ _ };
}

pub struct Multiplication;

impl Command for Multiplication {
    type Second = Value;

    const CODE: u8 = 18;

    ghost CODE = { 18 };

    ghost gives = { MUL };

    fn apply(w: usize, a: Value, b: Value) -> Value {
        match a {
            Value::Bool(x) => Value::Bool(x),
            Value::Signed(x) => Value::Signed(values::mul_signed(w, x, values::signed_in(b))),
            Value::Unsigned(x) => Value::Unsigned(values::mul_unsigned(
                w,
                x,
                values::unsigned_in(b),
            )),
            Value::Real(x) => Value::Real(x * values::real_in(b)),
            Value::Lreal(x) => Value::Lreal(x * values::lreal_in(b)),
        }
    }

    ghost second_is = { λ t. two_sources 18 t refl refl };

    ghost can_be = { λ t p q taken whole. record {} };

    ghost gives_is = { λ t p q. mul_listed _ _ _ _ };
}

// Cut toward zero.
pub struct Division;

impl Command for Division {
    type Second = Value;

    const CODE: u8 = 19;

    ghost CODE = { 19 };

    ghost can = { λ a b. by_zero a b ≡ false };

    ghost gives = { DIV };

    fn apply(w: usize, a: Value, b: Value) -> Value {
        match a {
            Value::Bool(x) => Value::Bool(x),
            Value::Signed(x) => Value::Signed(values::div_signed(w, x, values::signed_in(b))),
            Value::Unsigned(x) => Value::Unsigned(x / values::unsigned_in(b)),
            Value::Real(x) => Value::Real(x / values::real_in(b)),
            Value::Lreal(x) => Value::Lreal(x / values::lreal_in(b)),
        }
    }

    ghost second_is = { λ t. two_sources 19 t refl refl };

    ghost can_be = { no_fault };

    ghost gives_is = { λ t p q. div_listed _ _ _ _ };
}

// MOD: with the dividend's sign; by 0 it is 0. No width plays a part in it, so its function on values asks for none.
pub fn modulo(a: Value, b: Value) -> Value
    ensures { result ≡ MOD a b }
{
    match a {
        Value::Bool(x) => Value::Bool(x),
        Value::Signed(x) => Value::Signed(values::mod_signed(x, values::signed_in(b))),
        Value::Unsigned(x) => Value::Unsigned(values::mod_unsigned(x, values::unsigned_in(b))),
        Value::Real(x) => Value::Real(x),
        Value::Lreal(x) => Value::Lreal(x),
    }
}

pub struct Remainder;

impl Command for Remainder {
    type Second = Value;

    const CODE: u8 = 20;

    ghost CODE = { 20 };

    ghost gives = { λ w. MOD };

    fn apply(_w: usize, a: Value, b: Value) -> Value {
        modulo(a, b)
    }

    ghost second_is = { λ t. two_sources 20 t refl refl };

    ghost can_be = { λ t p q taken whole. record {} };

    ghost gives_is = { λ t p q. mod_listed _ _ _ _ };
}
