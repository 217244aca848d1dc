// What the typed commands of document 01 share: their operands, and the one function that reads the sources and stores the result of each. What each does to the data is in specs/.
// Not here: the commands themselves (crates `arithmetic`, `comparisons` and `bitwise`); the jump to one of them (crate `dispatch`).
#![tactic(auto)]

ghost use Rattle.std.specs.Prelude.{◌≡◌};
ghost use Rattle.verdict.specs.declared.Fault.TheVariants.{Divisor};

mod command;
mod source;
mod storing;

pub use command::{Command, typed};
pub use source::Source;
pub use storing::store_pattern;
use verdict::Fault;

// The operands of a typed command: its type, the place of the result, and those of the sources. NOT has one source, which stands for both.
#[derive(Clone, Copy)]
pub struct Operands {
    pub kind: u8,
    pub to: usize,
    pub first: usize,
    pub second: usize,
}

// Why a command is not done whose operands lie inside the data. The one reason has a type of its own, so that the answer is one byte (docs/PERFORMANCE.md).
#[derive(Clone, Copy)]
pub struct ZeroDivisor;

impl From<ZeroDivisor> for Fault {
    ghost from_gives = { λ z f. f ≡ Divisor };

    fn from(_: ZeroDivisor) -> Fault {
        Fault::Divisor
    }
}
