// Document 01, "A state is unfit if ..", the rules of an execution, one function a rule. In order: its places; its offsets and depth; freed entries; all of them.
// Not here: the other rules (crate `fitness`); the definitions and their laws (crate `states`).
#![tactic(auto)]

ghost use Rattle.std.specs.Prelude.{◌≡◌, true, ◌<◌, ltb};
ghost use Rattle.code.specs.Code.{is_start};
ghost use Rattle.states.specs.Fit.{entry, places_fit, offsets_fit, depth_fit, freed_at, freed_fit, execution_fit};
ghost use Rattle.states.specs.Places.{AcceptedCode, MapOrNone};

use protocol::Registers;
use states::CoreTask;

const STACK_ENTRIES: usize = 16; // of a call stack

const CALLS: u8 = 16; // that may be open

const CLEARED: usize = 2048; // bytes of code that a walk passes over while a map of starts is cleared

// An instruction starts at a place of accepted code: by its map of starts, or by a walk where the map is empty. Place 0 is the start of the first.
fn starts_at(code: &[u8], marks: &[u8], place: u16) -> bool
    requires { (is_start code.now 0 ≡ true) × MapOrNone code.now marks.now }
    ensures { result ≡ is_start code.now place }
{
    if place == 0 {
        return true;
    }
    if marks.len() == 0 {
        return code::is_start(code, place as usize);
    }
    memory::byte_at(marks, place as usize) == 1
}

// Program counter and return places start instructions.
fn places_start(code: &[u8], marks: &[u8], r: Registers, places: &[u16; 64], k: usize) -> bool
    requires { (is_start code.now 0 ≡ true) × MapOrNone code.now marks.now × (k < 4) }
    ensures { result ≡ places_fit code.now r (entry places.now k) }
{
    if !starts_at(code, marks, r.counter) {
        return false;
    }
    for i in 0..STACK_ENTRIES {
        if !starts_at(code, marks, places[STACK_ENTRIES * k + i]) {
            return false;
        }
    }
    true
}

// The bytes before a place.
fn bytes_before(place: u16) -> u32
    ensures { (result ≡ place) × (result < 65536) }
{
    place as u32
}

// The bytes that walks to the places of core k pass over, all together. Where no call is open the return places of a fit core are 0.
fn walked(r: Registers, places: &[u16; 64], k: usize) -> u32
    requires { k < 4 }
    ensures { result < 1200000 }
{
    let mut sum = bytes_before(r.counter);
    if r.depth == 0 {
        return sum;
    }
    for i in 0..STACK_ENTRIES {
        sum += bytes_before(places[STACK_ENTRIES * k + i]);
    }
    sum
}

// By walks where they pass over little, and else by a map, which one pass over the code makes: a byte of a walk takes up to twice the time of a byte of the
// pass, and the map is to be cleared.
fn places_fit(code: &[u8], r: Registers, places: &[u16; 64], k: usize) -> bool
    requires { AcceptedCode code.now × (k < 4) }
    ensures { result ≡ places_fit code.now r (entry places.now k) }
{
    if 2 * walked(r, places, k) as usize <= code.len() + CLEARED {
        let none = [0u8; 1];
        return places_start(code, &none[..0], r, places, k);
    }
    let marks = code_judging::starts(code);
    places_start(code, &marks, r, places, k)
}

// An offset doesn't reach the data size.
fn below(offset: u16, size: usize) -> bool
    ensures { result ≡ ltb offset size }
{
    (offset as usize) < size
}

// No offset does.
fn offsets_fit(size: usize, r: Registers, offsets: &[u16; 64], k: usize) -> bool
    requires { k < 4 }
    ensures { result ≡ offsets_fit size r (entry offsets.now k) }
{
    if !below(r.offset, size) {
        return false;
    }
    for i in 0..STACK_ENTRIES {
        if !below(offsets[STACK_ENTRIES * k + i], size) {
            return false;
        }
    }
    true
}

// The depth is at most 16, and 0 outside modes 2 and 5.
fn depth_fit(r: Registers) -> bool
    ensures { result ≡ depth_fit r }
{
    if r.mode == protocol::EXECUTING {
        return r.depth <= CALLS;
    }
    if r.mode == protocol::STOPPED {
        return r.depth <= CALLS;
    }
    r.depth == 0
}

// A stack entry from the depth on is 0.
fn entry_freed(depth: u8, i: usize, place: u16, offset: u16) -> bool
    ensures { result ≡ freed_at depth i place offset }
{
    if i < depth as usize {
        return true;
    }
    if place != 0 {
        return false;
    }
    offset == 0
}

pub fn freed_fit(r: Registers, places: &[u16; 64], offsets: &[u16; 64], k: usize) -> bool
    requires { k < 4 }
    ensures { result ≡ freed_fit r (entry places.now k) (entry offsets.now k) }
{
    for i in 0..STACK_ENTRIES {
        let at = STACK_ENTRIES * k + i;
        if !entry_freed(r.depth, i, places[at], offsets[at]) {
            return false;
        }
    }
    true
}

// The rules of execution.
pub fn execution_fit(
    code: &[u8],
    task: CoreTask,
    r: Registers,
    places: &[u16; 64],
    offsets: &[u16; 64],
    k: usize,
) -> bool
    requires { AcceptedCode code.now × (k < 4) }
    ensures { result ≡ execution_fit code.now task.layout.size task.layout.limit r (entry places.now k) (entry offsets.now k) }
{
    if protocol::STOPPED < r.mode {
        return false;
    }
    if !places_fit(code, r, places, k) {
        return false;
    }
    if !offsets_fit(task.layout.size, r, offsets, k) {
        return false;
    }
    if !depth_fit(r) {
        return false;
    }
    r.count <= task.layout.limit
}
