// A reading before the first writing, and a first reading of inputs, on a trace of no bytes.
use super::printing::memories;
use std::io;

fn ran(rt: &impl Print, label: &str, order: &[u8]) -> io::Result<()> {
    let file =
        b"MCS2\x02\x06\x00\x01\x00\x09\x00\x08\x00\x00\x00\x09\x00\x01\x0A\x00\x02\x21\x02\x00\x04\x00\x00\x00\x00\x00\x01\x00\x00\x01\x00\x00\x04\x00\x00\x00\x07\x02\x00\x2C\x03\x00\x01\x05\x00\x09\x02\x00\x04\x00\x03\x07\x00\x08";
    let mut buffer = [0u8; 14];
    let mut shared = [0u8; 1024];
    let mut list = [0u8; 8];
    let made = machine::fresh(file, &mut buffer, &mut shared);
    let done = runs::run(
        file,
        b"",
        made.state,
        &mut buffer,
        &mut shared,
        order,
        &mut list,
    );
    println!(rt; "{label}: {} {}", done.refusal, done.taken)?;
    memories(rt, &buffer, &shared)
}

pub fn readings(rt: &impl Print) -> io::Result<()> {
    ran(rt, "core 1 reads first", b"\x01\x01\x01")?;
    ran(rt, "core 0 takes its inputs", b"\x00")
}
