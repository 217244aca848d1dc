// The machine that users call, by value. No call requires anything: each gives the refusal of document 01 that fits, in the order
// file, 21, 22, 23, 20, and then changes no lent byte. `load_lent` and `judge_call` have this order for all of them.
// Not here: the judging of a call (src/judging.rt); the fresh state (src/fresh_state.rt); a run and a step (crate `runs`).
#![tactic(auto)]

mod fresh_state;
mod judging;

ghost use Rattle.std.specs.Prelude.{◌≡◌, ◌≤◌};
ghost use Rattle.verdict.specs.Refusals.{refusal_of, numbered};
ghost use Rattle.taskset.specs.Judge.{judge_for, judge};
ghost use Rattle.machine.specs.Calls.{buffer_size, set_refusal, answer_of, next_call, next_says, next_said};

use code::Profile;
pub use fresh_state::{fresh, fresh_for, fresh_judged, idle_table};
pub use judging::{Judgement, judge_call, load_lent};
use runner::RunAnswer;
use states::Held;
use verdict::Refusal;

// Bytes of shared memory.
pub const SHARED: usize = 1024;

// ---- checks

// A task set file alone, under the profile that the caller names.
pub fn check_file_for(profile: Profile, file: &[u8]) -> Result<(), Refusal>
    ensures { refusal_of result ≡ judge_for profile file.now }
{
    file_judging::judge_file_for(profile, file)
}

// Under the full profile.
pub fn check_file(file: &[u8]) -> Result<(), Refusal>
    ensures { refusal_of result ≡ judge file.now }
{
    check_file_for(Profile::Full, file)
}

// A state, with its file and trace.
pub fn check_state(file: &[u8], trace: &[u8], s: Held) -> Result<(), Refusal>
    ensures { refusal_of result ≡ set_refusal file.now trace.now s }
{
    let named = [0u8; 0];
    let loaded = file_loading::load_file(file);
    judge_call(file, trace, loaded, s, &named)?;
    Ok(())
}

// ---- lent memory

// The bytes of the data buffer of a task set; none where the file is refused: a caller may ask before any check (`buffer_size` of specs/Calls).
pub fn buffer_size(file: &[u8]) -> usize
    ensures { (result ≡ buffer_size file.now) × (result ≤ 16384) }
{
    match file_loading::load_file(file) {
        Ok(layout) => file_loading::sum_of_sizes(file, layout),
        Err(_) => 0,
    }
}

// ---- the core table

// The first core after a given one, round the ring and that one last, whose step would change something; none, where every core is stopped or out of records.
pub fn next_core(file: &[u8], trace: &[u8], s: Held, given: u8) -> Result<Option<u8>, Refusal>
    ensures { (numbered result ≡ next_call file.now trace.now s given) × (next_says (numbered result) ≡ next_said file.now trace.now s given) }
{
    let named = [given];
    let loaded = file_loading::load_file(file);
    let judged = judge_call(file, trace, loaded, s, &named)?;
    let cores = judged.layout.cores;
    Ok(table::next_moving(file, trace, judged.tasks, cores, s, given))
}

// ---- the answer

// What a call answers that steps no core.
pub fn answer(number: u8, s: Held) -> RunAnswer
    ensures { result ≡ answer_of number s }
{
    RunAnswer {
        refusal: number,
        taken: 0,
        state: s,
    }
}
