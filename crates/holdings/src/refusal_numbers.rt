// Numbers 28, 29 and 30: each alone, and their order.
use super::one_case::case;
use std::io;

// 28, 29 and 30, each alone.
pub fn refusals(rt: &impl Print) -> io::Result<()> {
    spans(rt)?;
    places(rt)?;
    runs(rt)
}

fn spans(rt: &impl Print) -> io::Result<()> {
    case(
        rt,
        "span 0",
        b"\x00\x00\x00\x00\xE4\x02\xE8\x03\x00\x00\xD0\x02\xD0\x07\x00\x00\xDA\x02",
        0,
        16,
    )?;
    case(
        rt,
        "span 1",
        b"\x00\x00\x00\x00\xE4\x02\xE8\x03\x00\x00\xD0\x02\xD0\x07\x00\x00\xDA\x02",
        1,
        16,
    )?;
    case(
        rt,
        "span 600,000",
        b"\x00\x00\x00\x00\xE4\x02\xE8\x03\x00\x00\xD0\x02\xD0\x07\x00\x00\xDA\x02",
        600000,
        16,
    )?;
    case(
        rt,
        "span 600,001",
        b"\x00\x00\x00\x00\xE4\x02\xE8\x03\x00\x00\xD0\x02\xD0\x07\x00\x00\xDA\x02",
        600001,
        16,
    )?;
    case(
        rt,
        "span 4,294,967,295",
        b"\x00\x00\x00\x00\xE4\x02\xE8\x03\x00\x00\xD0\x02\xD0\x07\x00\x00\xDA\x02",
        4294967295,
        16,
    )
}

fn places(rt: &impl Print) -> io::Result<()> {
    case(
        rt,
        "as many places as records",
        b"\x00\x00\x00\x00\xE4\x02\xE8\x03\x00\x00\xD0\x02\xD0\x07\x00\x00\xDA\x02",
        5000,
        6,
    )?;
    case(
        rt,
        "a place too few",
        b"\x00\x00\x00\x00\xE4\x02\xE8\x03\x00\x00\xD0\x02\xD0\x07\x00\x00\xDA\x02",
        5000,
        4,
    )?;
    case(
        rt,
        "a place of one byte",
        b"\x00\x00\x00\x00\xE4\x02\xE8\x03\x00\x00\xD0\x02\xD0\x07\x00\x00\xDA\x02",
        5000,
        5,
    )?;
    case(rt, "no records and no places", b"", 5000, 0)
}

fn runs(rt: &impl Print) -> io::Result<()> {
    case(
        rt,
        "a time below the one before",
        b"\x00\x00\x00\x00\xE4\x02\xD0\x07\x00\x00\xD0\x02\xCF\x07\x00\x00\xDA\x02",
        5000,
        16,
    )?;
    case(
        rt,
        "cut by one byte",
        b"\x00\x00\x00\x00\xE4\x02\xE8\x03\x00\x00\xD0\x02\xD0\x07\x00\x00\xDA",
        5000,
        16,
    )?;
    case(
        rt,
        "cut after one byte",
        b"\x00\x00\x00\x00\xE4\x02\xE8\x03\x00\x00\xD0\x02\xD0\x07\x00\x00\xDA\x02\x01",
        5000,
        16,
    )?;
    case(rt, "one byte", b"\x01", 5000, 2)
}

// The order of the three.
pub fn precedence(rt: &impl Print) -> io::Result<()> {
    case(
        rt,
        "span 0, a place too few, cut, a time below",
        b"\x05\x00\x00\x00\x01\x00\x04\x00\x00\x00\x02\x00\x01",
        0,
        2,
    )?;
    case(
        rt,
        "a place too few, cut, a time below",
        b"\x05\x00\x00\x00\x01\x00\x04\x00\x00\x00\x02\x00\x01",
        5000,
        2,
    )?;
    case(
        rt,
        "cut, and no place for the record that is cut",
        b"\x00\x00\x00\x00\xE4\x02\xE8\x03\x00\x00\xD0\x02\xD0\x07\x00\x00\xDA\x02\x01",
        5000,
        7,
    )?;
    case(
        rt,
        "cut, and a place for the record that is cut",
        b"\x00\x00\x00\x00\xE4\x02\xE8\x03\x00\x00\xD0\x02\xD0\x07\x00\x00\xDA\x02\x01",
        5000,
        8,
    )?;
    case(rt, "one byte and no places", b"\x01", 5000, 0)?;
    case(rt, "span 600,001, no records", b"", 600001, 0)
}
