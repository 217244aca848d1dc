// Document 01, "The task set file": where everything stands in an accepted file.
// Not here: whether it is accepted (crate `file_judging`); the definitions and their laws (crate `taskset`).
#![tactic(auto)]

ghost use Rattle.std.specs.Prelude.{◌≡◌, ◌<◌, ◌≤◌};
ghost use Rattle.memory.specs.Memory.{total};
ghost use Rattle.taskset.specs.Judge.{code_place, judge};
ghost use Rattle.taskset.specs.Layout.{base_place, core_layout, layout_of, load_for, load_of, loaded_as};
ghost use Rattle.taskset.specs.Task.{sizes_of};

use code::Profile;
use file_judging::judge_file_for;
use taskset::{CoreLayout, Layout, no_core};
use verdict::Refusal;

fn base_place(f: &[u8], k: usize) -> usize
    requires { k < 4 }
    ensures { result ≡ base_place f.now k }
{
    let mut b = 0;
    for i in 0..k {
        b = b + memory::word_at(f, 5 + 6 * i);
    }
    b
}

// Where the length of core k's code stands; at the number of cores, where the code of the last one ends.
pub fn code_place(f: &[u8], k: usize) -> usize
    requires { k ≤ 4 }
    ensures { (result ≡ code_place f.now k) × (result < 400000) }
{
    let n = memory::byte_at(f, 4) as usize;
    let m = memory::byte_at(f, 5 + 6 * n);
    let mut p = records::record_place(f, m);
    for _ in 0..k {
        p = p + 2 + memory::word_at(f, p);
    }
    p
}

fn core_layout(f: &[u8], k: usize) -> CoreLayout
    requires { k < 4 }
    ensures { result ≡ core_layout f.now k }
{
    if memory::byte_at(f, 4) as usize <= k {
        return no_core();
    }
    let q = 5 + 6 * k;
    let p = code_place(f, k);
    CoreLayout {
        size: memory::word_at(f, q),
        inputs: memory::word_at(f, q + 2),
        limit: memory::word_at(f, q + 4) as u16,
        base: base_place(f, k),
        code: p + 2,
        length: memory::word_at(f, p),
    }
}

fn layout_of(f: &[u8]) -> Layout
    ensures { result ≡ layout_of f.now }
{
    let n = memory::byte_at(f, 4) as usize;
    let c0 = core_layout(f, 0);
    let c1 = core_layout(f, 1);
    let c2 = core_layout(f, 2);
    let c3 = core_layout(f, 3);
    let core = [c0, c1, c2, c3];
    Layout {
        cores: n,
        variables: memory::byte_at(f, 5 + 6 * n) as usize,
        first: records::record_place(f, 0),
        core,
    }
}

// Where everything stands in a file that a profile accepts.
pub fn load_file_for(profile: Profile, f: &[u8]) -> Result<Layout, Refusal>
    ensures { loaded_as result ≡ load_for profile f.now }
{
    judge_file_for(profile, f)?;
    Ok(layout_of(f))
}

// Under the full profile.
pub fn load_file(f: &[u8]) -> Result<Layout, Refusal>
    ensures { loaded_as result ≡ load_of f.now }
{
    load_file_for(Profile::Full, f)
}

// The sum of the data sizes, at most 4 times 4,096.
pub fn sum_of_sizes(f: &[u8], layout: Layout) -> usize
    requires { (judge f.now ≡ 0) × (layout ≡ layout_of f.now) }
    ensures { (result ≡ total (sizes_of f.now)) × (result ≤ 16384) }
{
    let core = layout.core;
    core[0].size + core[1].size + core[2].size + core[3].size
}
