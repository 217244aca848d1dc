// The order of the numbers: a type that the small profile does not have, beside what numbers 3, 6 and 7 refuse.
use super::one_core_file::both;
use std::io;

pub fn types_and_6(rt: &impl Print) -> io::Result<()> {
    both(
        rt,
        "a type, then an unknown code",
        64,
        b"\x10\x07\x00\x00\x08\x00\x10\x00\x63",
    )?;
    both(
        rt,
        "an unknown code, then a type",
        64,
        b"\x63\x10\x07\x00\x00\x08\x00\x10\x00\x00",
    )?;
    both(
        rt,
        "a type that its command does not take",
        64,
        b"\x14\x09\x00\x00\x08\x00\x10\x00\x00",
    )?;
    both(
        rt,
        "a type in an instruction that is cut",
        64,
        b"\x10\x07\x00\x00\x08",
    )
}

pub fn types_and_7(rt: &impl Print) -> io::Result<()> {
    both(
        rt,
        "a type, and a target that starts no instruction",
        64,
        b"\x10\x07\x00\x00\x08\x00\x10\x00\x01\x01\x00",
    )?;
    both(
        rt,
        "a type, and a last instruction that is no end",
        64,
        b"\x10\x07\x00\x00\x08\x00\x10\x00",
    )?;
    both(
        rt,
        "no such type, and the same target",
        64,
        b"\x10\x05\x00\x00\x08\x00\x10\x00\x01\x01\x00",
    )
}

pub fn types_and_3(rt: &impl Print) -> io::Result<()> {
    both(
        rt,
        "data of 1,025 bytes, and a type",
        1025,
        b"\x10\x07\x00\x00\x08\x00\x10\x00\x00",
    )?;
    both(
        rt,
        "a type behind RETURN",
        64,
        b"\x00\x10\x07\x00\x00\x08\x00\x10\x00\x00",
    )
}
