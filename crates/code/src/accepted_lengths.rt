// One instruction, judged: its length where it is accepted, 0 where it is refused. In order: the entries of the table; a function for each form of
// operands; an arm for each code.
// Not here: the table of lengths (src/length_table.rt), the rules of types and widths, the judging of a core's code (src/lib.rt).
ghost use Rattle.std.specs.Prelude.{◌≡◌, true, ◌+◌, ◌<◌, ◌≤◌, length};
ghost use Rattle.memory.specs.Memory.{byte, read_le};
ghost use Rattle.values.specs.Types.{takes};
ghost use Rattle.code.specs.Instructions.{instruction_at};
ghost use Rattle.code.specs.Code.{element_ok, convertible, packable, operands_ok, accepted_length};
ghost use Rattle.code.specs.Judging.{LengthKnown};

use super::{LENGTHS, element_ok, inside, takes_type, word};

// The entries that the arms of a judging pass use. An arm that adds a constant goes ahead on the predicted branch; a pass that adds a number read
// from the table waits for two loads at each instruction.
const RETURN: usize = LENGTHS[0] as usize;

const JMP: usize = LENGTHS[1] as usize;

const JZ: usize = LENGTHS[2] as usize;

const JNZ: usize = LENGTHS[3] as usize;

const CALB: usize = LENGTHS[4] as usize;

const CALF: usize = LENGTHS[5] as usize;

const MCD: usize = LENGTHS[6] as usize;

const MEMCP: usize = LENGTHS[7] as usize;

const ELEMENT: usize = LENGTHS[8] as usize;

const THREE_OPERANDS: usize = LENGTHS[16] as usize;

const NOT: usize = LENGTHS[27] as usize;

const CYCLE_TIME: usize = LENGTHS[41] as usize;

const FLAG_BYTE: usize = LENGTHS[42] as usize;

const CONVERT: usize = LENGTHS[43] as usize;

const PACKED: usize = LENGTHS[44] as usize;

// ---- the length of the instruction at p where it is accepted, 0 where it is refused

// An instruction of n bytes, whatever its operands.
fn plain_length(code: &[u8], p: usize, n: usize) -> usize
    requires { (p < length code.now) × (0 < n) × LengthKnown code.now p n × (operands_ok (instruction_at code.now p) ≡ true) }
    ensures { result ≡ accepted_length code.now p }
{
    if code.len() - p < n {
        return 0;
    }
    n
}

// MCD.
fn constant_length(code: &[u8], p: usize) -> usize
    requires { (p < length code.now) × (byte code.now p ≡ 6) }
    ensures { result ≡ accepted_length code.now p }
{
    let left = code.len() - p;
    if left < MCD {
        return 0;
    }
    let n = code[p + 3];
    if !inside(1, 8, n) {
        return 0;
    }
    let all = MCD + n as usize;
    if left < all {
        return 0;
    }
    all
}

// AURD and AUWD.
fn element_length(code: &[u8], p: usize) -> usize
    requires { (p < length code.now) × LengthKnown code.now p 10 × (operands_ok (instruction_at code.now p) ≡ element_ok (byte code.now (p + 7)) (read_le code.now (p + 8) 2)) }
    ensures { result ≡ accepted_length code.now p }
{
    if code.len() - p < ELEMENT {
        return 0;
    }
    if element_ok(code[p + 7], word(code, p + 8)) {
        return ELEMENT;
    }
    0
}

// A typed command of n bytes, or an unknown code byte.
fn typed_length(code: &[u8], p: usize, n: usize) -> usize
    requires { (p < length code.now) × (2 ≤ n) × LengthKnown code.now p n × (operands_ok (instruction_at code.now p) ≡ takes (byte code.now p) (byte code.now (p + 1))) }
    ensures { result ≡ accepted_length code.now p }
{
    if code.len() - p < n {
        return 0;
    }
    if takes_type(code[p], code[p + 1]) {
        return n;
    }
    0
}

// 43.
fn conversion_length(code: &[u8], p: usize) -> usize
    requires { (p < length code.now) × LengthKnown code.now p 7 × (operands_ok (instruction_at code.now p) ≡ convertible (byte code.now (p + 1)) (byte code.now (p + 2))) }
    ensures { result ≡ accepted_length code.now p }
{
    if code.len() - p < CONVERT {
        return 0;
    }
    if !inside(1, 10, code[p + 1]) {
        return 0;
    }
    if !inside(1, 10, code[p + 2]) {
        return 0;
    }
    CONVERT
}

// BYTE, WORD, DWORD or LWORD.
fn is_packable(t: u8) -> bool
    ensures { result ≡ packable t }
{
    if !inside(2, 8, t) {
        return false;
    }
    t % 2 == 0
}

// 44 and 45.
fn packed_length(code: &[u8], p: usize) -> usize
    requires { (p < length code.now) × LengthKnown code.now p 6 × (operands_ok (instruction_at code.now p) ≡ packable (byte code.now (p + 1))) }
    ensures { result ≡ accepted_length code.now p }
{
    if code.len() - p < PACKED {
        return 0;
    }
    if is_packable(code[p + 1]) {
        return PACKED;
    }
    0
}

// By the code byte; what is none of the others is a typed command with three addresses, or unknown.
pub fn accepted_length(code: &[u8], p: usize) -> usize
    requires { p < length code.now }
    ensures { result ≡ accepted_length code.now p }
{
    let b = code[p];
    match b {
        0 => plain_length(code, p, RETURN),
        1 => plain_length(code, p, JMP),
        2 => plain_length(code, p, JZ),
        3 => plain_length(code, p, JNZ),
        4 => plain_length(code, p, CALB),
        5 => plain_length(code, p, CALF),
        6 => constant_length(code, p),
        7 => plain_length(code, p, MEMCP),
        8 => element_length(code, p),
        9 => element_length(code, p),
        27 => typed_length(code, p, NOT),
        41 => plain_length(code, p, CYCLE_TIME),
        42 => plain_length(code, p, FLAG_BYTE),
        43 => conversion_length(code, p),
        44 => packed_length(code, p),
        45 => packed_length(code, p),
        16 => typed_length(code, p, THREE_OPERANDS),
        17 => typed_length(code, p, THREE_OPERANDS),
        18 => typed_length(code, p, THREE_OPERANDS),
        19 => typed_length(code, p, THREE_OPERANDS),
        20 => typed_length(code, p, THREE_OPERANDS),
        24 => typed_length(code, p, THREE_OPERANDS),
        25 => typed_length(code, p, THREE_OPERANDS),
        26 => typed_length(code, p, THREE_OPERANDS),
        28 => typed_length(code, p, THREE_OPERANDS),
        29 => typed_length(code, p, THREE_OPERANDS),
        30 => typed_length(code, p, THREE_OPERANDS),
        31 => typed_length(code, p, THREE_OPERANDS),
        32 => typed_length(code, p, THREE_OPERANDS),
        33 => typed_length(code, p, THREE_OPERANDS),
        34 => typed_length(code, p, THREE_OPERANDS),
        35 => typed_length(code, p, THREE_OPERANDS),
        36 => typed_length(code, p, THREE_OPERANDS),
        37 => typed_length(code, p, THREE_OPERANDS),
        _ => typed_length(code, p, THREE_OPERANDS),
    }
}
