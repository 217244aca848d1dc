// AND OR XOR on values. No width plays a part in them, so these functions ask for none. Apart from the commands (src/logic.rt), as two items of one file may not differ in capitals alone.
#![tactic(auto, unfolding(values::specs::Commands::on_kinds, values::specs::Commands::on_bits, values::specs::Commands::AND, values::specs::Commands::OR, values::specs::Commands::XOR))]

ghost use Rattle.std.specs.Prelude.{◌≡◌};
ghost use Rattle.values.specs.Commands.{AND, OR, XOR};

use values::Value;

pub fn and(a: Value, b: Value) -> Value
    ensures { result ≡ AND a b }
{
    match a {
        Value::Bool(x) => Value::Bool(x & values::truth_in(b)),
        Value::Signed(x) => Value::Signed(x),
        Value::Unsigned(x) => Value::Unsigned(x & values::unsigned_in(b)),
        Value::Real(x) => Value::Real(x),
        Value::Lreal(x) => Value::Lreal(x),
    }
}

pub fn or(a: Value, b: Value) -> Value
    ensures { result ≡ OR a b }
{
    match a {
        Value::Bool(x) => Value::Bool(x | values::truth_in(b)),
        Value::Signed(x) => Value::Signed(x),
        Value::Unsigned(x) => Value::Unsigned(x | values::unsigned_in(b)),
        Value::Real(x) => Value::Real(x),
        Value::Lreal(x) => Value::Lreal(x),
    }
}

pub fn xor(a: Value, b: Value) -> Value
    ensures { result ≡ XOR a b }
{
    match a {
        Value::Bool(x) => Value::Bool(x != values::truth_in(b)),
        Value::Signed(x) => Value::Signed(x),
        Value::Unsigned(x) => Value::Unsigned(x ^ values::unsigned_in(b)),
        Value::Real(x) => Value::Real(x),
        Value::Lreal(x) => Value::Lreal(x),
    }
}
