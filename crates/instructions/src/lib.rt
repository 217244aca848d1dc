// Document 01, "One step of a core", mode 2: one instruction of core k, on the code and the data that are its own.
// Not here: what a step in any other mode does (crate `steps`); the instructions themselves (crate `execution`).
#![tactic(auto)]

ghost use Rattle.std.specs.Prelude.{◌≡◌, true, false, ◌+◌, ◌<◌};
ghost use Rattle.memory.specs.Memory.{byte};
ghost use Rattle.code.specs.Commands.{three};
ghost use Rattle.taskset.specs.Judge.{code_of};
ghost use Rattle.processor.specs.Typed.{outcome_of};
ghost use Rattle.processor.specs.Executable.{frequent};
ghost use Rattle.steps.specs.Effects.{InstructsIn};
ghost use Rattle.steps.specs.Moving.{AtInstruction, InstructionGiven};

use protocol::{Outcome, Registers};
use states::CoreTask;
use verdict::Fault;

// The code byte of the instruction at the program counter.
pub fn command_of(counter: u16, k: usize, c: CoreTask, file: &[u8], trace: &[u8]) -> u8
    requires { AtInstruction file.now trace.now k c counter }
    ensures { (result ≡ byte (code_of file.now k) counter) × (result < 64) }
{
    let a = c.layout.code;
    let e = a + c.layout.length;
    execution::command_at(counter, &file[a..e])
}

// Mode 2, below the limit: a typed command with three addresses, and how it ended.
pub fn typed_of(
    op: u8,
    r: Registers,
    k: usize,
    c: CoreTask,
    file: &[u8],
    trace: &[u8],
    buffer: &mut [u8],
) -> Result<(), Fault>
    requires { InstructionGiven file.now trace.now k c r buffer.old op × (three op ≡ true) }
    ensures { InstructsIn file.now trace.now k r buffer.old (outcome_of (r.counter + 8) result) buffer.new }
{
    let a = c.layout.code;
    let e = a + c.layout.length;
    let b = c.layout.base;
    let f = b + c.layout.size;
    execution::execute_typed(op, r, &file[a..e], &mut buffer[b..f])
}

// The same of any other command, and what it answers.
pub fn other_of(
    op: u8,
    r: Registers,
    k: usize,
    c: CoreTask,
    file: &[u8],
    trace: &[u8],
    buffer: &mut [u8],
) -> Outcome
    requires { InstructionGiven file.now trace.now k c r buffer.old op × (three op ≡ false) }
    ensures { InstructsIn file.now trace.now k r buffer.old result buffer.new }
{
    let a = c.layout.code;
    let e = a + c.layout.length;
    let b = c.layout.base;
    let f = b + c.layout.size;
    execution::execute_other(op, r, &file[a..e], &mut buffer[b..f])
}

// The same of a frequent command, for steps of cores in turn.
pub fn frequent_of(
    op: u8,
    r: Registers,
    k: usize,
    c: CoreTask,
    file: &[u8],
    trace: &[u8],
    buffer: &mut [u8],
) -> Outcome
    requires { InstructionGiven file.now trace.now k c r buffer.old op × (frequent op ≡ true) }
    ensures { InstructsIn file.now trace.now k r buffer.old result buffer.new }
{
    let a = c.layout.code;
    let e = a + c.layout.length;
    let b = c.layout.base;
    let f = b + c.layout.size;
    execution::execute_frequent(op, r, &file[a..e], &mut buffer[b..f])
}
