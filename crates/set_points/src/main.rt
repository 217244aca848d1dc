// Document 02, 2.12, with stored results. The plant has two cores: core 0 with six bytes of data, the first an input byte; core 1 with eight. Core 0 writes a word
// from its place 2 to shared place 10, core 1 reads it to its place 4. Both codes are RETURN. In a file of the new form the start values follow them.
// Not here: numbers of files (src/file_numbers.rt); the fresh state (src/fresh_states.rt); what a reader sees before the first writing (src/first_readings.rt);
// the converters (src/converters.rt); what is printed (src/printing.rt).
#![tactic(auto)]

mod converters;
mod file_numbers;
mod first_readings;
mod fresh_states;
mod printing;

use converters::{news, not_made_new, not_made_old, olds};
use file_numbers::{before_leftovers, before_the_cut, beyond, ends, numbers, rising};
use first_readings::readings;
use fresh_states::{starts, zeros};
use output::Output;
use std::io;

fn main(rt: HostRuntime) -> io::Result<()> {
    let rt = Output { to: &rt };
    numbers(&rt)?;
    beyond(&rt)?;
    rising(&rt)?;
    ends(&rt)?;
    before_the_cut(&rt)?;
    before_leftovers(&rt)?;
    starts(&rt)?;
    zeros(&rt)?;
    readings(&rt)?;
    news(&rt)?;
    not_made_new(&rt)?;
    olds(&rt)?;
    not_made_old(&rt)
}
