// The fresh state: memories zero but for the start values of the file, every core between cycles, the semaphore free.
ghost use Rattle.std.specs.Prelude.{◌≡◌, []};
ghost use Rattle.protocol.specs.State.{cleared as cleared_to};
ghost use Rattle.runner.specs.Runs.{left_as};
ghost use Rattle.machine.specs.Judging.{LentTo};
ghost use Rattle.machine.specs.Calls.{table_of, fresh_call_for, fresh_call};

use super::answer;
use super::judging::load_lent;
use code::Profile;
use protocol::Registers;
use runner::RunAnswer;
use semaphore::Semaphore;
use states::Held;
use taskset::Layout;

// The flag byte of a fresh core: the cold-start bit.
const FRESH_FLAGS: u8 = 4;

// Registers of a core between cycles, all 0 but the flags.
fn idle_core(flags: u8) -> Registers
    ensures { result ≡ cleared_to 0 flags }
{
    Registers {
        mode: protocol::BETWEEN,
        counter: 0,
        offset: 0,
        depth: 0,
        count: 0,
        exchange: 0,
        cycles: 0,
        flags,
        time: 0,
    }
}

// A table of n cores with these flags, all else 0: the semaphore free, and nobody in line.
pub fn idle_table(n: u8, flags: u8) -> Held
    ensures { result ≡ table_of n flags }
{
    let core = idle_core(flags);
    let cores = [core, core, core, core];
    let places = [0u16; 64];
    let offsets = [0u16; 64];
    let line = [0u8; 4];
    let semaphore = Semaphore {
        holder: 0,
        waiting: 0,
        line,
    };
    Held {
        count: n,
        semaphore,
        cores,
        places,
        offsets,
    }
}

// The fresh state of an accepted file, in memories of its sizes: zero but for the start values.
pub fn fresh_judged(file: &[u8], layout: Layout, buffer: &mut [u8], shared: &mut [u8]) -> RunAnswer
    requires { LentTo file.now layout buffer.old shared.old }
    ensures { left_as result buffer.new shared.new [] ≡ fresh_call file.now buffer.old shared.old }
{
    starts::fill(file, layout, buffer, shared);
    answer(0, idle_table(layout.cores as u8, FRESH_FLAGS))
}

// The fresh state of a file that is loaded under a profile: memories zero but for the start values, mode 0, registers 0, flags 4, semaphore free, nobody
// in line. A refused call gives a table of no cores.
pub fn fresh_for(profile: Profile, file: &[u8], buffer: &mut [u8], shared: &mut [u8]) -> RunAnswer
    ensures { left_as result buffer.new shared.new [] ≡ fresh_call_for profile file.now buffer.old shared.old }
{
    match load_lent(profile, file, buffer.len(), shared.len(), true) {
        Ok(layout) => fresh_judged(file, layout, buffer, shared),
        Err(refused) => answer(refused.refusal.number(), idle_table(0, 0)),
    }
}

// Under the full profile.
pub fn fresh(file: &[u8], buffer: &mut [u8], shared: &mut [u8]) -> RunAnswer
    ensures { left_as result buffer.new shared.new [] ≡ fresh_call file.now buffer.old shared.old }
{
    fresh_for(Profile::Full, file, buffer, shared)
}
