// The fresh state under a profile, and a run from it.
use code::Profile;
use std::io;

// The bytes of a lent memory.
fn bytes(rt: &impl Print, memory: &[u8]) -> io::Result<()> {
    for b in memory {
        print!(rt; " {b}")?;
    }
    Ok(())
}

// 5 + 7 as INT.
pub fn run_under(rt: &impl Print, name: &str, profile: Profile) -> io::Result<()> {
    let file =
        b"MCS1\x01\x06\x00\x00\x00\x09\x00\x00\x15\x00\x06\x00\x00\x02\x05\x00\x06\x02\x00\x02\x07\x00\x10\x03\x04\x00\x00\x00\x02\x00\x00";
    let mut d = [9u8; 6];
    let mut sh = [9u8; 1024];
    let mut list = [9u8; 8];
    let order = [0u8; 8];
    let made = machine::fresh_for(profile, file, &mut d, &mut sh);
    print!(rt; "{name}: {}", made.refusal)?;
    bytes(rt, &d)?;
    let ran = runs::run(file, b"", made.state, &mut d, &mut sh, &order, &mut list);
    print!(rt; ", {}", ran.refusal)?;
    bytes(rt, &d)?;
    print!(rt; ",")?;
    bytes(rt, &list)?;
    println!(rt;)
}

// 5 + 7 as LINT: the small profile leaves what it was lent.
pub fn wide_under(rt: &impl Print, name: &str, profile: Profile) -> io::Result<()> {
    let file = b"MCS1\x01\x06\x00\x00\x00\x09\x00\x00\x09\x00\x10\x07\x00\x00\x00\x00\x00\x00\x00";
    let mut d = [9u8; 6];
    let mut sh = [9u8; 1024];
    let made = machine::fresh_for(profile, file, &mut d, &mut sh);
    print!(rt; "{name}: {} {}", made.refusal, made.state.count)?;
    bytes(rt, &d)?;
    println!(rt; " {}", sh[1023])
}
