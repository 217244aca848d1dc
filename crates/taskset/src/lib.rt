// Document 01, "The task set file": its marks, and where everything stands in it and in a trace, as types of the code. The definitions, which refusal a file
// gets among them (refusals 1..7, 31 and 24; under the small profile 27 too), are in specs/, their laws in proofs/.
// Not here: the functions that judge a file (crate `file_judging`), load it (crate `file_loading`), and judge and load a trace (crate `traces`).
#![tactic(auto)]

ghost use Rattle.std.specs.Prelude.{◌≡◌};
ghost use Rattle.taskset.specs.Layout.{no_core};

// ---- the file

// The mark of a file of the old form, and that of the new form, which has start values after the code.
pub const OLD_MARK: [u8; 4] = *b"MCS1";

pub const NEW_MARK: [u8; 4] = *b"MCS2";

// Where a core's data stand in the data buffer, and its code in the file.
#[derive(Clone, Copy)]
pub struct CoreLayout {
    pub size: usize, // of the data
    pub inputs: usize, // bytes of an input record, the first of the data
    pub limit: u16, // instructions of a cycle
    pub base: usize, // of the data in the data buffer
    pub code: usize, // place in the file
    pub length: usize, // of the code
}

#[derive(Clone, Copy)]
pub struct Layout {
    pub cores: usize,
    pub variables: usize,
    pub first: usize, // place of the first variable's record
    pub core: [CoreLayout; 4], // the first `cores` count: memory is fixed
}

// All zeros.
pub fn no_core() -> CoreLayout
    ensures { result ≡ no_core }
{
    CoreLayout {
        size: 0,
        inputs: 0,
        limit: 0,
        base: 0,
        code: 0,
        length: 0,
    }
}

// ---- the trace

// Where a trace has its records: record i of core k stands at first[k] + i * (4 + inputs of core k).
#[derive(Clone, Copy)]
pub struct TraceLayout {
    pub count: [u16; 4],
    pub first: [usize; 4],
}
