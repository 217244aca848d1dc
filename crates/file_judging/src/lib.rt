// Document 01, "The task set file": judged front to back (refusals 1..7, 31 and 24; under the small profile 27 too).
// Not here: the refusals of a file's parts (src/refusals.rt); the definitions and their laws (crate `taskset`).
#![tactic(auto)]

mod refusals;

ghost use Rattle.std.specs.Prelude.{◌≡◌, ◌≤◌, length};
ghost use Rattle.verdict.specs.Refusals.{refusal_of};
ghost use Rattle.taskset.specs.Judge.{has_mark, is_old, is_new, judge_for, judge};

use code::Profile;
use refusals::{judge_codes, judge_head, judge_variable_section};
use taskset::{NEW_MARK, OLD_MARK};
use verdict::Refusal;

// Whether a file begins with this mark.
fn has_mark(f: &[u8], mark: &[u8; 4]) -> bool
    requires { 4 ≤ length f.now }
    ensures { result ≡ has_mark mark.now f.now }
{
    if f[0] != mark[0] {
        return false;
    }
    if f[1] != mark[1] {
        return false;
    }
    if f[2] != mark[2] {
        return false;
    }
    f[3] == mark[3]
}

pub fn is_old(f: &[u8]) -> bool
    requires { 4 ≤ length f.now }
    ensures { result ≡ is_old f.now }
{
    let mark = OLD_MARK;
    has_mark(f, &mark)
}

pub fn is_new(f: &[u8]) -> bool
    requires { 4 ≤ length f.now }
    ensures { result ≡ is_new f.now }
{
    let mark = NEW_MARK;
    has_mark(f, &mark)
}

// A task set file under a profile.
pub fn judge_file_for(profile: Profile, f: &[u8]) -> Result<(), Refusal>
    ensures { refusal_of result ≡ judge_for profile f.now }
{
    judge_head(profile, f)?;
    judge_variable_section(f)?;
    let n = memory::byte_at(f, 4) as usize;
    let m = memory::byte_at(f, 5 + 6 * n);
    judge_codes(profile, f, n, records::record_place(f, m))
}

// Under the full profile.
pub fn judge_file(f: &[u8]) -> Result<(), Refusal>
    ensures { refusal_of result ≡ judge f.now }
{
    judge_file_for(Profile::Full, f)
}
