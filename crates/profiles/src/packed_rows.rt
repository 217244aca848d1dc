// Rows of types: packed decimal, from whole numbers and to them.
use super::one_core_file::judged;
use super::printing::row;
use code::Profile;
use std::io;

// 44 or 45 with this type, then RETURN.
fn packed(code: u8, t: u8) -> u8 {
    let c = [code, t, 0, 0, 8, 0, 0];
    judged(Profile::Small, 64, &c)
}

pub fn packed_rows(rt: &impl Print) -> io::Result<()> {
    for code in [44, 45] {
        row(rt, "packed", code, |t| packed(code, t))?;
    }
    Ok(())
}
