// What a run of the steps of an order leaves, and a stretch of one core's instructions or a single one in it. The definitions are in specs/, their laws in proofs/.
// Not here: the functions that run a core (crate `core_runs`) and an order (crate `order_runs`).
#![tactic(auto)]

use protocol::Registers;
use states::Held;

// What a call that moves the machine answers: the refusal number, 0 for none; how many takings it wrote; the state.
#[derive(Clone, Copy)]
pub struct RunAnswer {
    pub refusal: u8,
    pub taken: usize,
    pub state: Held,
}

// What a stretch of instructions leaves: the step after them, and what they change of the registers. A copied structure waits for narrow stores.
#[derive(Clone, Copy)]
pub struct Reached {
    pub step: usize,
    pub mode: u8,
    pub counter: u16,
    pub offset: u16,
    pub depth: u8,
    pub count: u16,
    pub flags: u8,
}

// What a single instruction leaves of the registers: mostly the next place alone, and one more counted.
#[derive(Clone, Copy)]
pub enum Single {
    Advanced(u16),
    Otherwise(Registers),
}
