// Data sizes at the bounds of both profiles.
use super::one_core_file::both;
use std::io;

pub fn sizes_about_1024(rt: &impl Print) -> io::Result<()> {
    both(rt, "data of 1 byte", 1, b"\x00")?;
    both(rt, "data of 1,024 bytes", 1024, b"\x00")?;
    both(rt, "data of 1,025 bytes", 1025, b"\x00")
}

pub fn sizes_about_4096(rt: &impl Print) -> io::Result<()> {
    both(rt, "data of 4,096 bytes", 4096, b"\x00")?;
    both(rt, "data of 4,097 bytes", 4097, b"\x00")?;
    both(rt, "no data", 0, b"\x00")
}
