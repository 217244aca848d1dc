// Document 01, "Types and commands": the instruction set, and what one instruction is judged by: its length, its operands, and whether the profile
// carries it (document 02, 2.10). All definitions of the judging of a core's code stand in specs/Code.
// Not here: the table of lengths (src/length_table.rt), an instruction's length where its operands are accepted (src/accepted_lengths.rt); the pass over a core's code (crate `code_judging`).
#![tactic(auto)]

mod accepted_lengths;
mod length_table;

ghost use Rattle.std.specs.Prelude.{◌≡◌, true, ◌+◌, ◌<◌, ◌≤◌, length};
ghost use Rattle.verdict.specs.Verdict.{within};
ghost use Rattle.memory.specs.Memory.{read_le};
ghost use Rattle.values.specs.Types.{takes};
ghost use Rattle.code.specs.Commands.{Lengths};
ghost use Rattle.code.specs.Instructions.{instruction_length};
ghost use Rattle.code.specs.Profiles.{wide, types_at, carries};
ghost use Rattle.code.specs.Code.{is_width, element_ok, instruction_ok, is_start};

pub use accepted_lengths::accepted_length;
pub use length_table::LENGTHS;

// The table as a value: a `const` is rebuilt at each use, so a walk that looks for a place makes it once and lends it.
fn lengths() -> [u8; 256]
    ensures { Lengths result }
{
    LENGTHS
}

// The 16-bit number at `place`.
pub fn word(s: &[u8], place: usize) -> u16
    requires { place + 2 ≤ length s.now }
    ensures { result ≡ read_le s.now place 2 }
{
    let low = s[place] as u16;
    let high = s[place + 1] as u16;
    low + 256 * high
}

// What the machine that loads a file carries: all of document 01, or data of 1,024 bytes at most, no 64-bit numbers and no floats.
#[derive(Clone, Copy)]
pub enum Profile {
    Full,
    Small,
}

// ---- instructions

// An instruction as the definitions have it (`instruction_at`). Judging and stepping read their operands where they stand, and make none.
#[derive(Clone, Copy)]
pub enum Instruction {
    Return,
    // T
    Jump(u16),
    // the tested byte's address, T
    JumpZero(u16, u16),
    JumpNotZero(u16, u16),
    // instance, T
    CallInstance(u16, u16),
    // T
    CallFunction(u16),
    // destination, n; the n bytes stand four places after the instruction's start
    MoveConstant(u16, u8),
    // destination, source, n
    CopyMemory(u16, u16, u16),
    // variable, array, index, element size, count
    ReadElement(u16, u16, u16, u8, u16),
    WriteElement(u16, u16, u16, u8, u16),
    // code byte, type, destination, a, b; NOT's one operand stands for b too; b is a shift's address of its count
    Typed(u8, u8, u16, u16, u16),
    // destination
    CycleTime(u16),
    FlagByte(u16),
    // from-type, to-type, destination, source
    Convert(u8, u8, u16, u16),
    // type, destination, source: whole to packed, packed to whole
    Pack(u8, u16, u16),
    Unpack(u8, u16, u16),
    Unknown,
}

fn inside(low: u8, high: u8, x: u8) -> bool
    ensures { result ≡ within low high x }
{
    if x < low {
        return false;
    }
    x <= high
}

// ---- one instruction, judged

// Whether the command with this code byte is typed and takes type t.
pub fn takes_type(code: u8, t: u8) -> bool
    ensures { result ≡ takes code t }
{
    if inside(16, 17, code) {
        return inside(1, 11, t);
    }
    if inside(18, 19, code) {
        return inside(1, 10, t);
    }
    if code == 20 {
        return inside(1, 8, t);
    }
    if inside(24, 27, code) {
        if 8 < t {
            return false;
        }
        return t % 2 == 0;
    }
    if inside(28, 31, code) {
        if !inside(2, 8, t) {
            return false;
        }
        return t % 2 == 0;
    }
    if inside(32, 37, code) {
        return t <= 11;
    }
    false
}

// A width of 1, 2, 4 or 8 bytes.
pub fn is_width(w: u8) -> bool
    ensures { result ≡ is_width w }
{
    if w == 1 {
        return true;
    }
    if w == 2 {
        return true;
    }
    if w == 4 {
        return true;
    }
    w == 8
}

// An element size and a count.
fn element_ok(size: u8, count: u16) -> bool
    ensures { result ≡ element_ok size count }
{
    if !is_width(size) {
        return false;
    }
    if count < 1 {
        return false;
    }
    count <= 4096
}

// The length of the instruction at p, by the lent table.
fn instruction_length(code: &[u8], lengths: &[u8; 256], p: usize) -> usize
    requires { (p < length code.now) × Lengths lengths.now }
    ensures { result ≡ instruction_length code.now p }
{
    let b = code[p];
    let n = lengths[b as usize] as usize;
    if b == 6 {
        return n + memory::byte_at(code, p + 3) as usize;
    }
    n
}

// ---- one instruction, by the profile

// LINT, LWORD, REAL and LREAL.
fn is_wide(t: u8) -> bool
    ensures { result ≡ wide t }
{
    inside(7, 10, t)
}

// Whether the small profile carries the accepted instruction at p.
fn is_small(code: &[u8], p: usize) -> bool
    requires { (p < length code.now) × (instruction_ok code.now p ≡ true) }
    ensures { result ≡ carries Profile.Small (types_at code.now p) }
{
    let b = code[p];
    if b < 16 {
        return true; // no command before ADD names a type
    }
    if inside(41, 42, b) {
        return true; // nor do the cycle time and the flag byte
    }
    if is_wide(code[p + 1]) {
        return false;
    }
    if b == 43 {
        return !is_wide(code[p + 2]);
    }
    true
}

pub fn is_carried(profile: Profile, code: &[u8], p: usize) -> bool
    requires { (p < length code.now) × (instruction_ok code.now p ≡ true) }
    ensures { result ≡ carries profile (types_at code.now p) }
{
    match profile {
        Profile::Full => true,
        Profile::Small => is_small(code, p),
    }
}

// ---- the starts of instructions

// Whether an instruction starts at `place`, of any code.
pub fn is_start(code: &[u8], place: usize) -> bool
    ensures { result ≡ is_start code.now place }
{
    if code.len() <= place {
        return false;
    }
    let table = lengths();
    let mut p: usize = 0;
    while p < place {
        let n = instruction_length(code, &table, p);
        if n == 0 {
            return false;
        }
        if place - p < n {
            return false;
        }
        p = p + n;
    }
    true
}
