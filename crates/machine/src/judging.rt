// The judging of a call, each thing once: the file, lent memory (21), trace and state (22, 23), the cores that it names (20).
ghost use Rattle.std.specs.Prelude.{◌≡◌};
ghost use Rattle.verdict.specs.Refusals.{refused_number, known, where_accepted};
ghost use Rattle.taskset.specs.Judge.{judge_for, judge};
ghost use Rattle.taskset.specs.Layout.{layout_of};
ghost use Rattle.runner.specs.Runs.{all_below};
ghost use Rattle.machine.specs.Judging.{lent_refusal, LaidOut, JudgedAs};
ghost use Rattle.machine.specs.Calls.{lent_fits};

use super::SHARED;
use code::Profile;
use states::{CoreTask, Held};
use taskset::Layout;
use verdict::{Refusal, Refused};

// ---- file and lent memory

// Whether data buffer and shared memory have their sizes.
fn lent_fits(file: &[u8], layout: Layout, buffer: usize, shared: usize) -> bool
    requires { (judge file.now ≡ 0) × (layout ≡ layout_of file.now) }
    ensures { result ≡ lent_fits file.now buffer shared }
{
    if buffer == file_loading::sum_of_sizes(file, layout) {
        return shared == SHARED;
    }
    false
}

// The file, under a profile, then lent memory of these sizes and whether the order list has room. The layout of an accepted file is known beside memory
// that does not fit too.
pub fn load_lent(
    profile: Profile,
    file: &[u8],
    buffer: usize,
    shared: usize,
    room: bool,
) -> Result<Layout, Refused<Layout>>
    ensures { (refused_number result ≡ lent_refusal profile file.now buffer shared room) × (known result ≡ where_accepted (judge_for profile file.now) (layout_of file.now)) }
{
    let layout = file_loading::load_file_for(profile, file)?;
    if room {
        if lent_fits(file, layout, buffer, shared) {
            return Ok(layout);
        }
    }
    Err(Refused {
        refusal: Refusal::BadLengths,
        known: Some(layout),
    })
}

// ---- the call, after what loading refused

// What a call goes on with that is not refused.
#[derive(Clone, Copy)]
pub struct Judgement {
    pub layout: Layout,
    pub tasks: [CoreTask; 4],
}

// Whether an order names no core from n on: its largest byte says it, found by a loop that never ends early.
fn all_below(order: &[u8], n: usize) -> bool
    ensures { result ≡ all_below n order.now }
{
    let mut most: u8 = 0;
    for core in order {
        most = most.max(*core);
    }
    if order.is_empty() {
        return true;
    }
    (most as usize) < n
}

// The error of loading, of whatever type the caller has, then what trace and state are refused for, then the cores that an order names.
pub fn judge_call<E: Copy + From<Refusal>>(
    file: &[u8],
    trace: &[u8],
    loaded: Result<Layout, E>,
    s: Held,
    order: &[u8],
) -> Result<Judgement, E>
    requires { LaidOut file.now loaded }
    ensures { JudgedAs E.from_gives file.now trace.now loaded s order.now result }
{
    let layout = loaded?;
    let tasks = match fitness::prepare(file, trace, layout, s) {
        Ok(tasks) => tasks,
        Err(refused) => return Err(E::from(refused.refusal)),
    };
    if !all_below(order, layout.cores) {
        return Err(E::from(Refusal::NoSuchCore));
    }
    Ok(Judgement { layout, tasks })
}
