// Document 02, 2.10, with stored results. A case prints its name and a file's number under the full and under the small profile; a row of types prints the
// number under the small profile of each type from 0 to 11. The files have one core, no inputs, no variables and the instruction limit 9.
// Not here: files of one core (src/one_core_file.rt); data sizes (src/data_sizes.rt); rows of types (src/typed_rows.rt, src/conversion_rows.rt,
// src/packed_rows.rt); instructions that name no type (src/untyped_instructions.rt); which number comes first (src/number_order.rt); runs (src/both_profiles.rt);
// what is printed (src/printing.rt).
#![tactic(auto)]

mod both_profiles;
mod conversion_rows;
mod data_sizes;
mod number_order;
mod one_core_file;
mod packed_rows;
mod printing;
mod typed_rows;
mod untyped_instructions;

use both_profiles::{run_under, wide_under};
use code::Profile;
use conversion_rows::conversion_rows;
use data_sizes::{sizes_about_1024, sizes_about_4096};
use number_order::{types_and_3, types_and_6, types_and_7};
use output::Output;
use packed_rows::packed_rows;
use std::io;
use typed_rows::typed_rows;
use untyped_instructions::{moves, others};

fn main(rt: HostRuntime) -> io::Result<()> {
    let rt = Output { to: &rt };
    sizes_about_1024(&rt)?;
    sizes_about_4096(&rt)?;
    typed_rows(&rt)?;
    conversion_rows(&rt)?;
    packed_rows(&rt)?;
    moves(&rt)?;
    others(&rt)?;
    types_and_6(&rt)?;
    types_and_7(&rt)?;
    types_and_3(&rt)?;
    run_under(&rt, "a run under the full profile", Profile::Full)?;
    run_under(&rt, "a run under the small profile", Profile::Small)?;
    wide_under(&rt, "a wide type under the full profile", Profile::Full)?;
    wide_under(&rt, "a wide type under the small profile", Profile::Small)
}
