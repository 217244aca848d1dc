// AND OR XOR NOT, and SHL SHR ROL ROR by a BYTE count.
// Not here: the other typed commands (crates `arithmetic` and `comparisons`); what all of them share (crate `commands`).

mod logic;
mod logic_on_values;
mod shifts;

pub use logic::{And, Not, Or, Xor};
pub use logic_on_values::{and, or, xor};
pub use shifts::{RotateLeft, RotateRight, ShiftLeft, ShiftRight};
