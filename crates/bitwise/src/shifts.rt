// SHL SHR ROL ROR, by a BYTE count. Each says its own operation, and that alone: all else is the trait's.
#![tactic(auto, unfolding(values::specs::Commands::on_bits, values::specs::Commands::SHL, values::specs::Commands::SHR, values::specs::Commands::ROL, values::specs::Commands::ROR))]

ghost use Rattle.std.specs.Prelude.{refl};
ghost use Rattle.values.specs.Commands.{SHL, SHR, ROL, ROR};
ghost use Rattle.commands.proofs.Laws.{a_count, shl_listed, shr_listed, rol_listed, ror_listed};

use commands::Command;
use values::Value;

pub struct ShiftLeft;

impl Command for ShiftLeft {
    type Second = u8;

    const CODE: u8 = 28;

    ghost CODE = { 28 };

    ghost gives = { SHL };

    fn apply(w: usize, a: Value, count: u8) -> Value {
        match a {
            Value::Bool(x) => Value::Bool(x),
            Value::Signed(x) => Value::Signed(x),
            Value::Unsigned(x) => Value::Unsigned(values::shift_left(w, x, count)),
            Value::Real(x) => Value::Real(x),
            Value::Lreal(x) => Value::Lreal(x),
        }
    }

    ghost second_is = { λ t. a_count 28 t refl };

    ghost can_be = { λ t p q taken whole. record {} };

    ghost gives_is = { λ t p q. shl_listed _ _ _ _ };
}

pub struct ShiftRight;

impl Command for ShiftRight {
    type Second = u8;

    const CODE: u8 = 29;

    ghost CODE = { 29 };

    ghost gives = { SHR };

    fn apply(w: usize, a: Value, count: u8) -> Value {
        match a {
            Value::Bool(x) => Value::Bool(x),
            Value::Signed(x) => Value::Signed(x),
            Value::Unsigned(x) => Value::Unsigned(values::shift_right(w, x, count)),
            Value::Real(x) => Value::Real(x),
            Value::Lreal(x) => Value::Lreal(x),
        }
    }

    ghost second_is = { λ t. a_count 29 t refl };

    ghost can_be = { λ t p q taken whole. record {} };

    ghost gives_is = { λ t p q. shr_listed _ _ _ _ };
}

pub struct RotateLeft;

impl Command for RotateLeft {
    type Second = u8;

    const CODE: u8 = 30;

    ghost CODE = { 30 };

    ghost gives = { ROL };

    fn apply(w: usize, a: Value, count: u8) -> Value {
        match a {
            Value::Bool(x) => Value::Bool(x),
            Value::Signed(x) => Value::Signed(x),
            Value::Unsigned(x) => Value::Unsigned(values::rotate_left(w, x, count)),
            Value::Real(x) => Value::Real(x),
            Value::Lreal(x) => Value::Lreal(x),
        }
    }

    ghost second_is = { λ t. a_count 30 t refl };

    ghost can_be = { λ t p q taken whole. record {} };

    ghost gives_is = { λ t p q. rol_listed _ _ _ _ };
}

pub struct RotateRight;

impl Command for RotateRight {
    type Second = u8;

    const CODE: u8 = 31;

    ghost CODE = { 31 };

    ghost gives = { ROR };

    fn apply(w: usize, a: Value, count: u8) -> Value {
        match a {
            Value::Bool(x) => Value::Bool(x),
            Value::Signed(x) => Value::Signed(x),
            Value::Unsigned(x) => Value::Unsigned(values::rotate_right(w, x, count)),
            Value::Real(x) => Value::Real(x),
            Value::Lreal(x) => Value::Lreal(x),
        }
    }

    ghost second_is = { λ t. a_count 31 t refl };

    ghost can_be = { λ t p q taken whole. record {} };

    ghost gives_is = { λ t p q. ror_listed _ _ _ _ };
}
