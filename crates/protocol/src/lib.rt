// Document 01, "One step of a core": a core's registers and call stack, and each change that a step makes to the registers.
// The definitions of specs/ speak of these very structs; the machine applies these functions.
#![tactic(auto)]

ghost use Rattle.std.specs.Prelude.{◌≡◌, ◌<◌};
ghost use Rattle.protocol.specs.Registers.{read_acquired, byte_copied, read_released, write_acquired, write_released, advanced, called, returned, cycle_ended, faulted};

// The modes of a core. Bytes, since a lent record in C's layout can hold any: one above 5 is refused, not ruled out.
pub const BETWEEN: u8 = 0; // between two cycles

pub const READING: u8 = 1; // in its reading exchange

pub const EXECUTING: u8 = 2;

pub const WAITING: u8 = 3; // to write

pub const WRITING: u8 = 4; // in its writing exchange

pub const STOPPED: u8 = 5;

// The flag bits that a fault sets, and the cold-start bit.
pub const INDEX: u8 = 0;

pub const LIMIT: u8 = 1;

pub const COLD_START: u8 = 2;

pub const DIVISOR: u8 = 3;

pub const ADDRESS: u8 = 4;

pub const CALL: u8 = 5;

pub const CONVERSION: u8 = 6;

// A core's registers, in C's layout for the lent core table. The call stack stands beside them, so that a step moves no array.
#[repr(C)]
#[derive(Clone, Copy, PartialEq, Eq)]
pub struct Registers {
    pub mode: u8,
    pub counter: u16, // program counter
    pub offset: u16, // data offset
    pub depth: u8, // open calls
    pub count: u16, // instruction count of the cycle
    pub exchange: u16, // exchange number: bytes copied
    pub cycles: u16,
    pub flags: u8,
    pub time: u32, // of the cycle's input record
}

// Sixteen return places and the data offsets that go with them; entries from the depth on are 0.
#[derive(Clone, Copy)]
pub struct Stack {
    pub places: [u16; 16],
    pub offsets: [u16; 16],
}

// What one instruction answers: a fault with its flag bit; the place where execution goes on; a call with the place after it, its
// target and its data offset; RETURN.
#[derive(Clone, Copy)]
pub enum Outcome {
    Fault(u8),
    Next(u16),
    Call(u16, u16, u16),
    Return,
}

// Mode 0 to 1: the semaphore is taken for a reading.
pub fn read_acquired(r: Registers, time: u32) -> Registers
    ensures { result ≡ read_acquired time r }
{
    Registers {
        mode: READING,
        exchange: 0,
        time,
        ..r
    }
}

// One byte of an exchange is copied, and bytes are left.
pub fn byte_copied(r: Registers) -> Registers
    requires { r.exchange < 65535 }
    ensures { result ≡ byte_copied r }
{
    Registers {
        exchange: r.exchange + 1,
        ..r
    }
}

// Mode 1 to 2: the reading releases the semaphore, and execution begins.
pub fn read_released(r: Registers) -> Registers
    ensures { result ≡ read_released r }
{
    Registers {
        mode: EXECUTING,
        counter: 0,
        offset: 0,
        depth: 0,
        count: 0,
        exchange: 0,
        ..r
    }
}

// Mode 3 to 4: the semaphore is taken for a writing.
pub fn write_acquired(r: Registers) -> Registers
    ensures { result ≡ write_acquired r }
{
    Registers {
        mode: WRITING,
        exchange: 0,
        ..r
    }
}

// Mode 4 to 0: the writing releases the semaphore, and the cycle is over.
pub fn write_released(r: Registers) -> Registers
    requires { r.cycles < 65535 }
    ensures { result ≡ write_released r }
{
    Registers {
        mode: BETWEEN,
        exchange: 0,
        cycles: r.cycles + 1,
        flags: r.flags & !(1u8 << COLD_START),
        ..r
    }
}

// What an instruction leaves is written field by field, as in the definitions: a copy of the whole would copy the bytes between the fields too.

// An instruction that goes on at `place`.
pub fn advanced(r: Registers, place: u16) -> Registers
    requires { r.count < 65535 }
    ensures { result ≡ advanced place r }
{
    Registers {
        mode: r.mode,
        counter: place,
        offset: r.offset,
        depth: r.depth,
        count: r.count + 1,
        exchange: r.exchange,
        cycles: r.cycles,
        flags: r.flags,
        time: r.time,
    }
}

// A call; the caller keeps the return place and the data offset on the call stack.
pub fn called(r: Registers, target: u16, offset: u16) -> Registers
    requires { (r.count < 65535) × (r.depth < 255) }
    ensures { result ≡ called target offset r }
{
    Registers {
        mode: r.mode,
        counter: target,
        offset,
        depth: r.depth + 1,
        count: r.count + 1,
        exchange: r.exchange,
        cycles: r.cycles,
        flags: r.flags,
        time: r.time,
    }
}

// RETURN from a call, to the place and the data offset of the call stack.
pub fn returned(r: Registers, place: u16, offset: u16) -> Registers
    requires { (r.count < 65535) × (0 < r.depth) }
    ensures { result ≡ returned place offset r }
{
    Registers {
        mode: r.mode,
        counter: place,
        offset,
        depth: r.depth - 1,
        count: r.count + 1,
        exchange: r.exchange,
        cycles: r.cycles,
        flags: r.flags,
        time: r.time,
    }
}

// Mode 2 to 3: RETURN at depth 0.
pub fn cycle_ended(r: Registers) -> Registers
    requires { r.count < 65535 }
    ensures { result ≡ cycle_ended r }
{
    Registers {
        mode: WAITING,
        counter: r.counter, // unmoved
        offset: r.offset,
        depth: r.depth,
        count: r.count + 1,
        exchange: r.exchange,
        cycles: r.cycles,
        flags: r.flags,
        time: r.time,
    }
}

// Mode 2 to 5: a fault sets its flag bit.
pub fn faulted(r: Registers, bit: u8) -> Registers
    requires { bit < 8 }
    ensures { result ≡ faulted bit r }
{
    Registers {
        mode: STOPPED,
        counter: r.counter,
        offset: r.offset,
        depth: r.depth,
        count: r.count,
        exchange: r.exchange,
        cycles: r.cycles,
        flags: r.flags | (1u8 << bit),
        time: r.time,
    }
}
