// Rows of types: the typed commands, which have one type.
use super::one_core_file::judged;
use super::printing::row;
use code::Profile;
use std::io;

// A typed command of this type, then RETURN.
fn typed(code: u8, t: u8) -> u8 {
    if code == 27 {
        let c = [code, t, 0, 0, 8, 0, 0];
        return judged(Profile::Small, 64, &c);
    }
    let c = [code, t, 0, 0, 8, 0, 16, 0, 0];
    judged(Profile::Small, 64, &c)
}

// Arithmetic, logic, shifts and comparisons.
pub fn typed_rows(rt: &impl Print) -> io::Result<()> {
    for code in [
        16, 17, 18, 19, 20, 24, 25, 26, 27, 28, 29, 30, 31, 32, 33, 34, 35, 36, 37,
    ] {
        row(rt, "command", code, |t| typed(code, t))?;
    }
    Ok(())
}
