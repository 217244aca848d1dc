// The converters between the forms of a file, with an output of bytes that hold 1.
ghost use Rattle.std.specs.Prelude.{◌<◌};

use super::printing::bytes;
use std::io;
use verdict::Refusal;

fn shown(
    rt: &impl Print,
    label: &str,
    converted: Result<usize, Refusal>,
    out: &[u8],
) -> io::Result<()> {
    let refusal = verdict::refusal_of(converted);
    print!(rt; "{label}: {refusal} {} output", converted.unwrap_or(0))?;
    bytes(rt, out)?;
    println!(rt;)
}

// Into an output of N bytes, few enough that they are a part of memory.
fn to_new<const N: usize>(rt: &impl Print, label: &str, file: &[u8]) -> io::Result<()>
    requires { N < 64 }
{
    let mut out = [1u8; N];
    let converted = forms::to_new(file, &mut out);
    shown(rt, label, converted, &out)
}

fn to_old<const N: usize>(rt: &impl Print, label: &str, file: &[u8]) -> io::Result<()>
    requires { N < 64 }
{
    let mut out = [1u8; N];
    let converted = forms::to_old(file, &mut out);
    shown(rt, label, converted, &out)
}

pub fn news(rt: &impl Print) -> io::Result<()> {
    let old =
        b"MCS1\x02\x06\x00\x01\x00\x09\x00\x08\x00\x00\x00\x09\x00\x01\x0A\x00\x02\x21\x02\x00\x04\x00\x00\x00\x00\x00\x01\x00\x00\x01\x00\x00";
    to_new::<40>(rt, "an old file made new", old)?;
    to_new::<39>(rt, "one byte too few for it", old)
}

pub fn not_made_new(rt: &impl Print) -> io::Result<()> {
    to_new::<40>(rt, "a new file made new", b"MCS2\x09")?;
    to_new::<40>(rt, "another mark", b"MCS3\x01")?;
    to_new::<40>(rt, "three bytes", b"MCS")?;
    to_new::<40>(rt, "five cores", b"MCS1\x05")
}

pub fn olds(rt: &impl Print) -> io::Result<()> {
    let new =
        b"MCS2\x02\x06\x00\x01\x00\x09\x00\x08\x00\x00\x00\x09\x00\x01\x0A\x00\x02\x21\x02\x00\x04\x00\x00\x00\x00\x00\x01\x00\x00\x01\x00\x00\x00\x00\x00\x00";
    to_old::<40>(rt, "a new file made old", new)?;
    to_old::<35>(rt, "one byte too few for it", new)?;
    to_old::<40>(rt, "an old file made old", b"MCS1\x09")
}

pub fn not_made_old(rt: &impl Print) -> io::Result<()> {
    let valued =
        b"MCS2\x02\x06\x00\x01\x00\x09\x00\x08\x00\x00\x00\x09\x00\x01\x0A\x00\x02\x21\x02\x00\x04\x00\x00\x00\x00\x00\x01\x00\x00\x01\x00\x00\x00\x00\x01\x00\x01\x00\x00";
    let longer =
        b"MCS2\x02\x06\x00\x01\x00\x09\x00\x08\x00\x00\x00\x09\x00\x01\x0A\x00\x02\x21\x02\x00\x04\x00\x00\x00\x00\x00\x01\x00\x00\x01\x00\x00\x00\x00\x01\x00\x01\x00\x00\x00";
    to_old::<40>(rt, "a start value of the last core", valued)?;
    to_old::<35>(rt, "and an output that is too short", valued)?;
    to_old::<40>(rt, "and a byte left over", longer)
}
