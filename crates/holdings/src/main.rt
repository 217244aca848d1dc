// Document 02, 2.11, with stored results: each number, their order, and the windows. A case prints its name, the number that came, and the
// sixteen bytes lent for the answers, which are AA hex before the call; as many of them are lent as the case says. A run's records are six
// bytes each, a TIME and an INT.
// Not here: one case (src/one_case.rt); numbers 28, 29 and 30 (src/refusal_numbers.rt); which records a window holds (src/held_records.rt); the ends of the
// TIME range (src/time_range.rt).
#![tactic(auto)]

mod held_records;
mod one_case;
mod refusal_numbers;
mod time_range;

use held_records::windows;
use output::Output;
use refusal_numbers::{precedence, refusals};
use std::io;
use time_range::ends;

fn main(rt: HostRuntime) -> io::Result<()> {
    let rt = Output { to: &rt };
    refusals(&rt)?;
    precedence(&rt)?;
    windows(&rt)?;
    ends(&rt)
}
