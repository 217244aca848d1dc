// Document 02, 2.13: a byte of an order list, the core that it names, and whether that has it to do.
// Not here: what it makes of the state (crate `rerun`).
#![tactic(auto)]

ghost use Rattle.std.specs.Prelude.{◌≡◌};
ghost use Rattle.takings.specs.Takings.{named_core, due_by};

use protocol::Registers;

// A byte of the list from here on is a writing.
pub const WRITINGS: usize = 16;

// The core that it names.
pub fn named_core(b: usize) -> usize
    ensures { result ≡ named_core b }
{
    if b < WRITINGS {
        return b;
    }
    b - WRITINGS
}

// Whether a core with these registers and so many records has it to do.
pub fn is_due(b: usize, r: Registers, count: usize) -> bool
    ensures { result ≡ due_by b r count }
{
    if b < WRITINGS {
        if r.mode != protocol::BETWEEN {
            return false;
        }
        return (r.cycles as usize) < count;
    }
    r.mode == protocol::WAITING
}
