// AND OR XOR NOT.
#![tactic(auto, unfolding(values::specs::Commands::on_kinds, values::specs::Commands::on_bits, values::specs::Commands::AND, values::specs::Commands::OR, values::specs::Commands::XOR, values::specs::Commands::NOT))]

ghost use Rattle.std.specs.Prelude.{refl};
ghost use Rattle.values.specs.Commands.{AND, OR, XOR, NOT};
ghost use Rattle.commands.proofs.Laws.{two_sources, no_second, and_listed, or_listed, xor_listed, not_listed};

use super::logic_on_values::{and, or, xor};
use commands::Command;
use values::Value;

pub struct And;

impl Command for And {
    type Second = Value;

    const CODE: u8 = 24;

    ghost CODE = { 24 };

    ghost gives = { λ w. AND };

    fn apply(_w: usize, a: Value, b: Value) -> Value {
        and(a, b)
    }

    ghost second_is = { λ t. two_sources 24 t refl refl };

    ghost can_be = { λ t p q taken whole. record {} };

    ghost gives_is = { λ t p q. and_listed _ _ _ _ };
}

pub struct Or;

impl Command for Or {
    type Second = Value;

    const CODE: u8 = 25;

    ghost CODE = { 25 };

    ghost gives = { λ w. OR };

    fn apply(_w: usize, a: Value, b: Value) -> Value {
        or(a, b)
    }

    ghost second_is = { λ t. two_sources 25 t refl refl };

    ghost can_be = { λ t p q taken whole. record {} };

    ghost gives_is = { λ t p q. or_listed _ _ _ _ };
}

pub struct Xor;

impl Command for Xor {
    type Second = Value;

    const CODE: u8 = 26;

    ghost CODE = { 26 };

    ghost gives = { λ w. XOR };

    fn apply(_w: usize, a: Value, b: Value) -> Value {
        xor(a, b)
    }

    ghost second_is = { λ t. two_sources 26 t refl refl };

    ghost can_be = { λ t p q taken whole. record {} };

    ghost gives_is = { λ t p q. xor_listed _ _ _ _ };
}

pub struct Not;

impl Command for Not {
    type Second = ();

    const CODE: u8 = 27;

    ghost CODE = { 27 };

    ghost gives = { λ w a b. NOT w a };

    fn apply(w: usize, a: Value, _b: ()) -> Value {
        match a {
            Value::Bool(x) => Value::Bool(!x),
            Value::Signed(x) => Value::Signed(x),
            Value::Unsigned(x) => Value::Unsigned(values::flip(w, x)),
            Value::Real(x) => Value::Real(x),
            Value::Lreal(x) => Value::Lreal(x),
        }
    }

    ghost second_is = { λ t. no_second 27 t refl refl };

    ghost can_be = { λ t p q taken whole. record {} };

    ghost gives_is = { λ t p q. not_listed _ _ _ _ };
}
