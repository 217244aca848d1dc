// What is printed: bytes, and both memories.
use std::io;

pub fn bytes(rt: &impl Print, s: &[u8]) -> io::Result<()> {
    for b in s {
        print!(rt; " {b}")?;
    }
    Ok(())
}

pub fn memories(rt: &impl Print, buffer: &[u8], shared: &[u8]) -> io::Result<()> {
    print!(rt; "data")?;
    bytes(rt, buffer)?;
    print!(rt; "\nshared 9 to 12")?;
    for place in 9..13 {
        print!(rt; " {}", memory::byte_at(shared, place))?;
    }
    println!(rt;)
}
