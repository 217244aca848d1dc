// Instructions that name no type: both profiles have them.
use super::one_core_file::both;
use std::io;

pub fn moves(rt: &impl Print) -> io::Result<()> {
    both(
        rt,
        "MCD of eight bytes",
        64,
        b"\x06\x00\x00\x08\x07\x07\x07\x07\x07\x07\x07\x07\x00",
    )?;
    both(
        rt,
        "MEMCP of eight bytes",
        64,
        b"\x07\x00\x00\x08\x00\x08\x00\x00",
    )?;
    both(
        rt,
        "AURD of eight bytes",
        64,
        b"\x08\x00\x00\x08\x00\x30\x00\x08\x04\x00\x00",
    )?;
    both(
        rt,
        "AUWD of eight bytes",
        64,
        b"\x09\x00\x00\x08\x00\x30\x00\x08\x04\x00\x00",
    )
}

pub fn others(rt: &impl Print) -> io::Result<()> {
    both(
        rt,
        "cycle time and flag byte",
        64,
        b"\x29\x07\x07\x2A\x08\x08\x00",
    )?;
    both(rt, "JZ to RETURN", 64, b"\x02\x08\x08\x05\x00\x00")
}
