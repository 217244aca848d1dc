// Lent outputs: one more place for the lengths than there are, and places for two cores.
use std::io;

fn lent(rt: &impl Print, label: &str, file: &[u8]) -> io::Result<()> {
    let mut lengths = [7usize; 4];
    let mut counts = [8u32; 2];
    let mut depths = [9u32; 2];
    let refusal = verdict::refusal_of(bounds::takes_to(
        file,
        &mut lengths,
        &mut counts,
        &mut depths,
    ));
    print!(rt; "{label}: {refusal}")?;
    for n in lengths {
        print!(rt; " {n}")?;
    }
    for n in counts {
        print!(rt; " {n}")?;
    }
    for n in depths {
        print!(rt; " {n}")?;
    }
    println!(rt;)
}

pub fn outputs(rt: &impl Print) -> io::Result<()> {
    lent(
        rt,
        "lent, one core",
        b"\x4D\x43\x53\x31\x01\x0A\x00\x00\x00\x01\x00\x00\x05\x00\x05\x04\x00\x00\x00",
    )?;
    lent(
        rt,
        "lent, 21 for four cores",
        b"\x4D\x43\x53\x31\x04\x0A\x00\x00\x00\x01\x00\x0B\x00\x00\x00\x01\x00\x0C\x00\x00\x00\x01\x00\x00\x10\x00\x00\x01\x00\x00\x01\x00\x00\x05\x00\x05\x04\x00\x00\x00\x16\x00\x02\x00\x00\x09\x00\x05\x15\x00\x00\x29\x00\x00\x29\x00\x00\x29\x00\x00\x29\x00\x00\x00\x04\x00\x29\x00\x00\x00",
    )?;
    lent(
        rt,
        "lent, 25 before 21",
        b"\x4D\x43\x53\x31\x01\x0A\x00\x00\x00\x01\x00\x00\x03\x00\x01\x00\x00",
    )
}
