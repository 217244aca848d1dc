// Document 02, 2.7, with stored results. A case prints its name, the refusal number, the lengths of data buffer, shared memory and core table, four counts
// and four depths. The stored numbers were found by a walk of every path.
// Not here: one case (src/one_case.rt); accepted files (src/accepted_files.rt); refusals 25 and 26 (src/refused_files.rt); files drawn at random
// (src/drawn_files.rt); outputs in lent places (src/lent_outputs.rt).
#![tactic(auto)]

mod accepted_files;
mod drawn_files;
mod lent_outputs;
mod one_case;
mod refused_files;

use accepted_files::accepted;
use drawn_files::{drawn, more_drawn};
use lent_outputs::outputs;
use output::Output;
use refused_files::{in_turn, refused};
use std::io;

fn main(rt: HostRuntime) -> io::Result<()> {
    let rt = Output { to: &rt };
    accepted(&rt)?;
    refused(&rt)?;
    in_turn(&rt)?;
    drawn(&rt)?;
    more_drawn(&rt)?;
    outputs(&rt)
}
