// The second source of a typed command.
ghost use Rattle.std.specs.Prelude.{◌≡◌, ℕ, ◌+◌, ◌≤◌, ◌<◌, length};
ghost use Rattle.memory.specs.Memory.{read_le};
ghost use Rattle.values.specs.Types.{width_of};
ghost use Rattle.values.specs.Values.{typed};

use values::Value;

// What a command reads at its second place, by its type.
pub trait Source {
    // How many bytes it has at a type.
    ghost width: { ℕ → ℕ };

    // What a pattern of these bytes stands for at a type.
    ghost stands_for: { ℕ → ℕ → Self };

    fn read(d: &[u8], t: u8, at: usize) -> Self
        requires { (t < 12) × (at + width t ≤ length d.now) }
        ensures { result ≡ stands_for t (read_le d.now at (width t)) };
}

// A value of the command's own type.
impl Source for Value {
    ghost width = { width_of };

    ghost stands_for = { typed };

    fn read(d: &[u8], t: u8, at: usize) -> Value {
        values::read_value(d, t, at)
    }
}

// A BYTE count, as the shifts have, whatever their type.
impl Source for u8 {
    ghost width = { λ t. 1 };

    ghost stands_for = { λ t q. q };

    fn read(d: &[u8], _t: u8, at: usize) -> u8 {
        d[at]
    }
}

// None, as for NOT.
impl Source for () {
    ghost width = { λ t. 0 };

    ghost stands_for = { λ t q. record {} };

    fn read(_d: &[u8], _t: u8, _at: usize) {}
}
