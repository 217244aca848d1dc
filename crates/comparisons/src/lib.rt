// GT GE EQ LE LT NE. False is below true; with NaN only NE is true.
// Not here: the other typed commands (crates `arithmetic` and `bitwise`); what all of them share (crate `commands`).
#![tactic(auto, unfolding(values::specs::Commands::compared, values::specs::Commands::GT, values::specs::Commands::GE, values::specs::Commands::EQ, values::specs::Commands::Le, values::specs::Commands::Lt, values::specs::Commands::NE))]

ghost use Rattle.std.specs.Prelude.{◌≡◌, refl};
ghost use Rattle.values.specs.Commands.{GT, GE, EQ, Le, Lt, NE};
ghost use Rattle.values.specs.declared.Value.TheVariants.{Bool};
ghost use Rattle.commands.proofs.Laws.{two_sources, gt_listed, ge_listed, eq_listed, le_listed, lt_listed, ne_listed};

use commands::Command;
use values::Value;

pub fn gt(a: Value, b: Value) -> bool
    ensures { result ≡ GT a b }
{
    match a {
        Value::Bool(x) => x & !values::truth_in(b),
        Value::Signed(x) => x > values::signed_in(b),
        Value::Unsigned(x) => x > values::unsigned_in(b),
        Value::Real(x) => x > values::real_in(b),
        Value::Lreal(x) => x > values::lreal_in(b),
    }
}

pub struct Greater;

impl Command for Greater {
    type Second = Value;

    const CODE: u8 = 32;

    ghost CODE = { 32 };

    ghost gives = { λ w a b. Bool (GT a b) };

    fn apply(_w: usize, a: Value, b: Value) -> Value {
        Value::Bool(gt(a, b))
    }

    ghost second_is = { λ t. two_sources 32 t refl refl };

    ghost can_be = { λ t p q taken whole. record {} };

    ghost gives_is = { λ t p q. gt_listed _ _ _ _ };
}

pub fn ge(a: Value, b: Value) -> bool
    ensures { result ≡ GE a b }
{
    match a {
        Value::Bool(x) => x | !values::truth_in(b),
        Value::Signed(x) => x >= values::signed_in(b),
        Value::Unsigned(x) => x >= values::unsigned_in(b),
        Value::Real(x) => x >= values::real_in(b),
        Value::Lreal(x) => x >= values::lreal_in(b),
    }
}

pub struct GreaterOrEqual;

impl Command for GreaterOrEqual {
    type Second = Value;

    const CODE: u8 = 33;

    ghost CODE = { 33 };

    ghost gives = { λ w a b. Bool (GE a b) };

    fn apply(_w: usize, a: Value, b: Value) -> Value {
        Value::Bool(ge(a, b))
    }

    ghost second_is = { λ t. two_sources 33 t refl refl };

    ghost can_be = { λ t p q taken whole. record {} };

    ghost gives_is = { λ t p q. ge_listed _ _ _ _ };
}

pub fn eq(a: Value, b: Value) -> bool
    ensures { result ≡ EQ a b }
{
    match a {
        Value::Bool(x) => x == values::truth_in(b),
        Value::Signed(x) => x == values::signed_in(b),
        Value::Unsigned(x) => x == values::unsigned_in(b),
        Value::Real(x) => x == values::real_in(b),
        Value::Lreal(x) => x == values::lreal_in(b),
    }
}

pub struct Equal;

impl Command for Equal {
    type Second = Value;

    const CODE: u8 = 34;

    ghost CODE = { 34 };

    ghost gives = { λ w a b. Bool (EQ a b) };

    fn apply(_w: usize, a: Value, b: Value) -> Value {
        Value::Bool(eq(a, b))
    }

    ghost second_is = { λ t. two_sources 34 t refl refl };

    ghost can_be = { λ t p q taken whole. record {} };

    ghost gives_is = { λ t p q. eq_listed _ _ _ _ };
}

pub fn le(a: Value, b: Value) -> bool
    ensures { result ≡ Le a b }
{
    match a {
        Value::Bool(x) => !x | values::truth_in(b),
        Value::Signed(x) => x <= values::signed_in(b),
        Value::Unsigned(x) => x <= values::unsigned_in(b),
        Value::Real(x) => x <= values::real_in(b),
        Value::Lreal(x) => x <= values::lreal_in(b),
    }
}

pub struct LessOrEqual;

impl Command for LessOrEqual {
    type Second = Value;

    const CODE: u8 = 35;

    ghost CODE = { 35 };

    ghost gives = { λ w a b. Bool (Le a b) };

    fn apply(_w: usize, a: Value, b: Value) -> Value {
        Value::Bool(le(a, b))
    }

    ghost second_is = { λ t. two_sources 35 t refl refl };

    ghost can_be = { λ t p q taken whole. record {} };

    ghost gives_is = { λ t p q. le_listed _ _ _ _ };
}

pub fn lt(a: Value, b: Value) -> bool
    ensures { result ≡ Lt a b }
{
    match a {
        Value::Bool(x) => !x & values::truth_in(b),
        Value::Signed(x) => x < values::signed_in(b),
        Value::Unsigned(x) => x < values::unsigned_in(b),
        Value::Real(x) => x < values::real_in(b),
        Value::Lreal(x) => x < values::lreal_in(b),
    }
}

pub struct Less;

impl Command for Less {
    type Second = Value;

    const CODE: u8 = 36;

    ghost CODE = { 36 };

    ghost gives = { λ w a b. Bool (Lt a b) };

    fn apply(_w: usize, a: Value, b: Value) -> Value {
        Value::Bool(lt(a, b))
    }

    ghost second_is = { λ t. two_sources 36 t refl refl };

    ghost can_be = { λ t p q taken whole. record {} };

    ghost gives_is = { λ t p q. lt_listed _ _ _ _ };
}

pub fn ne(a: Value, b: Value) -> bool
    ensures { result ≡ NE a b }
{
    match a {
        Value::Bool(x) => x != values::truth_in(b),
        Value::Signed(x) => x != values::signed_in(b),
        Value::Unsigned(x) => x != values::unsigned_in(b),
        Value::Real(x) => x != values::real_in(b),
        Value::Lreal(x) => x != values::lreal_in(b),
    }
}

pub struct NotEqual;

impl Command for NotEqual {
    type Second = Value;

    const CODE: u8 = 37;

    ghost CODE = { 37 };

    ghost gives = { λ w a b. Bool (NE a b) };

    fn apply(_w: usize, a: Value, b: Value) -> Value {
        Value::Bool(ne(a, b))
    }

    ghost second_is = { λ t. two_sources 37 t refl refl };

    ghost can_be = { λ t p q taken whole. record {} };

    ghost gives_is = { λ t p q. ne_listed _ _ _ _ };
}
