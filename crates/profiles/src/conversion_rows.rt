// Rows of types: the conversion, from each type to each.
use super::one_core_file::judged;
use super::printing::row;
use code::Profile;
use std::io;

// 43 with these types, then RETURN.
fn conversion(from: u8, to: u8) -> u8 {
    let c = [43, from, to, 0, 0, 8, 0, 0];
    judged(Profile::Small, 64, &c)
}

pub fn conversion_rows(rt: &impl Print) -> io::Result<()> {
    for from in 0..12 {
        row(rt, "conversion from", from, |to| conversion(from, to))?;
    }
    Ok(())
}
