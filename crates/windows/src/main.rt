// Document 02, 2.14, with stored results. A case prints its name, the number that the check gives, and the window between brackets. The task set has two
// cores: core 0 has three bytes of data, "abc", and RETURN; core 1 has five, "defgh", and the code 06 61 61 01 7A 00 hex, in which "aa" and "z" can be read.
#![tactic(auto)]

use output::Output;
use std::io::{Result, Write, writer};
use window::Shown;

// The task set, and its data buffer.
const FILE: &[u8] =
    b"MCS1\x02\x03\x00\x00\x00\x01\x00\x05\x00\x00\x00\x01\x00\x00\x01\x00\x00\x06\x00\x06aa\x01z\x00";

// The same two cores in a file of the new form (document 02, 2.12), where start values follow the code.
const NEW_FILE: &[u8] =
    b"MCS2\x02\x03\x00\x00\x00\x01\x00\x05\x00\x00\x00\x01\x00\x00\x01\x00\x00\x06\x00\x06aa\x01z\x00\x01\x00\x02\x00c\x02\x00\x00\x00d\x04\x00h";

const BUFFER: &[u8] = b"abcdefgh";

fn case<'a>(
    rt: &impl Print,
    label: &str,
    shown: Shown,
    core: u8,
    start: usize,
    count: usize,
    file: &'a [u8],
    buffer: &'a [u8],
) -> Result<()> {
    let judged = window::check_window(shown, core, start, count, file, buffer);
    let number = verdict::refusal_of(judged);
    print!(rt; "{label}: {number} [")?;
    writer(rt).write_all(window::window(shown, core, start, count, file, buffer))?;
    println!(rt; "]")
}

// A stretch of a core's data or code, with the data buffer of the two cores.
fn part(
    rt: &impl Print,
    file: &[u8],
    label: &str,
    shown: Shown,
    core: u8,
    start: usize,
    count: usize,
) -> Result<()> {
    case(rt, label, shown, core, start, count, file, BUFFER)
}

// Another file or data buffer.
fn of_lent<'a>(
    rt: &impl Print,
    label: &str,
    shown: Shown,
    core: u8,
    file: &'a [u8],
    buffer: &'a [u8],
) -> Result<()> {
    case(rt, label, shown, core, 0, 0, file, buffer)
}

fn windows(rt: &impl Print) -> Result<()> {
    part(rt, FILE, "data of core 0", Shown::Data, 0, 0, 3)?;
    part(rt, FILE, "data of core 1", Shown::Data, 1, 0, 5)?;
    part(rt, FILE, "its second and third byte", Shown::Data, 1, 1, 2)?;
    part(rt, FILE, "an operand of core 1", Shown::Code, 1, 1, 2)?;
    part(rt, FILE, "a constant of core 1", Shown::Code, 1, 4, 1)?;
    part(rt, FILE, "no byte", Shown::Data, 0, 1, 0)?;
    part(
        rt,
        FILE,
        "no byte at the end of the data",
        Shown::Data,
        0,
        3,
        0,
    )?;
    part(
        rt,
        FILE,
        "no byte at the end of the buffer",
        Shown::Data,
        1,
        5,
        0,
    )?;
    part(
        rt,
        FILE,
        "no byte at the end of the code",
        Shown::Code,
        1,
        6,
        0,
    )
}

fn outside(rt: &impl Print) -> Result<()> {
    part(rt, FILE, "one byte too many", Shown::Data, 0, 0, 4)?;
    part(rt, FILE, "a byte of the next core", Shown::Data, 0, 3, 1)?;
    part(rt, FILE, "no byte, but past the end", Shown::Data, 0, 4, 0)?;
    part(rt, FILE, "a byte after the code", Shown::Code, 1, 6, 1)?;
    part(rt, FILE, "no byte, but past the code", Shown::Code, 1, 7, 0)?;
    part(
        rt,
        FILE,
        "a start and a length that wrap",
        Shown::Data,
        1,
        18446744073709551615,
        2,
    )?;
    part(
        rt,
        FILE,
        "a length that wraps",
        Shown::Data,
        1,
        1,
        18446744073709551615,
    )?;
    part(rt, FILE, "core 2 of two", Shown::Data, 2, 0, 0)?;
    part(rt, FILE, "core 255", Shown::Code, 255, 0, 0)
}

fn lent(rt: &impl Print) -> Result<()> {
    let file = FILE;
    let cut =
        b"MCS1\x02\x03\x00\x00\x00\x01\x00\x05\x00\x00\x00\x01\x00\x00\x01\x00\x00\x06\x00\x06aa\x01z";
    let long =
        b"MCS1\x02\x03\x00\x00\x00\x01\x00\x05\x00\x00\x00\x01\x00\x00\x01\x00\x00\x06\x00\x06aa\x01z\x00\x00";
    of_lent(
        rt,
        "a buffer of seven bytes",
        Shown::Data,
        0,
        file,
        b"abcdefg",
    )?;
    of_lent(
        rt,
        "a buffer of nine bytes, for a code",
        Shown::Code,
        0,
        file,
        b"abcdefghi",
    )?;
    of_lent(
        rt,
        "a buffer of seven bytes, and no such core",
        Shown::Data,
        2,
        file,
        b"abcdefg",
    )?;
    of_lent(
        rt,
        "a file that was cut, and no buffer",
        Shown::Data,
        0,
        cut,
        b"",
    )?;
    of_lent(
        rt,
        "a file with a byte left over, and no such core",
        Shown::Code,
        4,
        long,
        b"abcdefgh",
    )
}

fn new_form(rt: &impl Print) -> Result<()> {
    part(
        rt,
        NEW_FILE,
        "new form: data of core 1",
        Shown::Data,
        1,
        0,
        5,
    )?;
    part(
        rt,
        NEW_FILE,
        "new form: an operand of core 1",
        Shown::Code,
        1,
        1,
        2,
    )?;
    part(
        rt,
        NEW_FILE,
        "new form: no byte at the end of the code",
        Shown::Code,
        1,
        6,
        0,
    )?;
    part(
        rt,
        NEW_FILE,
        "new form: a start value after the code",
        Shown::Code,
        1,
        6,
        1,
    )?;
    of_lent(
        rt,
        "new form: start places that fall",
        Shown::Code,
        4,
        b"MCS2\x02\x03\x00\x00\x00\x01\x00\x05\x00\x00\x00\x01\x00\x00\x01\x00\x00\x06\x00\x06aa\x01z\x00\x00\x00\x02\x00\x04\x00h\x00\x00d",
        b"",
    )
}

fn main(rt: HostRuntime) -> Result<()> {
    let rt = Output { to: &rt };
    windows(&rt)?;
    outside(&rt)?;
    lent(&rt)?;
    new_form(&rt)
}
