// One case: the call with lent bytes, and what is printed of it.
use std::io;

// The call with the first `room` of the sixteen bytes.
pub fn case(rt: &impl Print, label: &str, run: &[u8], span: u32, room: usize) -> io::Result<()> {
    let mut lent = [0xAAu8; 16];
    if 16 < room {
        return Ok(());
    }
    let number = verdict::refusal_of(holding::lowest(run, span, &mut lent[..room]));
    print!(rt; "{label}: {number}")?;
    for b in lent {
        print!(rt; " {b:02x}")?;
    }
    println!(rt;)
}
