// The samples of the table of refusals, and what is judged first where two rules are broken.
use super::judging::file;
use std::io;

pub fn samples(rt: &impl Print) -> io::Result<()> {
    file(
        rt,
        "accepted",
        b"MCS1\x01\x01\x00\x00\x00\x01\x00\x00\x01\x00\x00",
    )?;
    file(rt, "empty", b"")?;
    file(rt, "short", b"MCS")?;
    file(rt, "mark", b"MCS3")?;
    file(rt, "cores 5", b"MCS1\x05")?;
    file(rt, "cores 0", b"MCS1\x00")?;
    file(
        rt,
        "two writers",
        b"MCS1\x02\x10\x00\x00\x00\x01\x00\x10\x00\x00\x00\x01\x00\x01\x00\x00\x02\x03\x00\x00\x00\x00\x00\x00\x00\x00\x01\x00\x00\x01\x00\x00",
    )?;
    file(
        rt,
        "overlap",
        b"MCS1\x01\x10\x00\x00\x00\x01\x00\x02\x00\x00\x02\x01\x00\x00\x00\x00\x00\x00\x00\x00\x01\x00\x02\x01\x04\x00\x00\x00\x00\x00\x00\x00\x01\x00\x00",
    )?;
    code_samples(rt)?;
    precedence(rt)
}

// Of the code: 6 and 7, and bytes that follow it.
fn code_samples(rt: &impl Print) -> io::Result<()> {
    file(
        rt,
        "code 63",
        b"MCS1\x01\x01\x00\x00\x00\x01\x00\x00\x01\x00\x63",
    )?;
    file(
        rt,
        "target",
        b"MCS1\x01\x01\x00\x00\x00\x01\x00\x00\x03\x00\x01\x01\x00",
    )?;
    file(
        rt,
        "last",
        b"MCS1\x01\x01\x00\x00\x00\x01\x00\x00\x03\x00\x2A\x00\x00",
    )?;
    file(
        rt,
        "goes on",
        b"MCS1\x01\x01\x00\x00\x00\x01\x00\x00\x01\x00\x00\x00",
    )
}

// What is judged first where two rules are broken.
fn precedence(rt: &impl Print) -> io::Result<()> {
    // twice the same file, one after the other
    file(
        rt,
        "twice",
        b"MCS1\x01\x01\x00\x00\x00\x01\x00\x00\x01\x00\x00MCS1\x01\x01\x00\x00\x00\x01\x00\x00\x01\x00\x00",
    )?;
    // a record is judged whole: cut after a data size of 0, it ends early
    file(rt, "cut record", b"MCS1\x01\x00\x00")?;
    // a length outside its range wins over a missing code
    file(
        rt,
        "long code",
        b"MCS1\x01\x01\x00\x00\x00\x01\x00\x00\x01\x20",
    )?;
    file(
        rt,
        "cut code",
        b"MCS1\x01\x01\x00\x00\x00\x01\x00\x00\x00\x20",
    )?;
    // all records before any overlap; all instructions before any target; leftover bytes last
    file(
        rt,
        "overlap and width 3",
        b"MCS1\x01\x10\x00\x00\x00\x01\x00\x03\x00\x00\x02\x01\x00\x00\x00\x00\x00\x00\x00\x00\x01\x00\x02\x01\x04\x00\x00\x00\x00\x00\x00\x00\x08\x00\x03\x01\x08\x00\x00\x00\x00\x00\x00\x00\x01\x00\x00",
    )?;
    file(
        rt,
        "target and code 63",
        b"MCS1\x01\x01\x00\x00\x00\x01\x00\x00\x04\x00\x01\xFF\xFF\x63",
    )?;
    file(
        rt,
        "code 63 and goes on",
        b"MCS1\x01\x01\x00\x00\x00\x01\x00\x00\x01\x00\x63\x00",
    )?;
    file(
        rt,
        "last and goes on",
        b"MCS1\x01\x01\x00\x00\x00\x01\x00\x00\x03\x00\x2A\x00\x00\x00",
    )
}
