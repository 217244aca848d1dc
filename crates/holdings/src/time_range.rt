// The ends of the TIME range: differences count by their true values.
use super::one_case::case;
use std::io;

pub fn ends(rt: &impl Print) -> io::Result<()> {
    case(
        rt,
        "the lowest TIME and the highest",
        b"\x00\x00\x00\x80\x01\x00\xFF\xFF\xFF\x7F\x02\x00",
        600000,
        16,
    )?;
    case(
        rt,
        "a gap of 2^31",
        b"\x00\x00\x00\xC0\x01\x00\x00\x00\x00\x40\x02\x00",
        600000,
        16,
    )?;
    case(
        rt,
        "a gap of 2^32 - 600,000",
        b"\x00\x00\x00\x80\x01\x00\x40\xD8\xF6\x7F\x02\x00",
        600000,
        16,
    )?;
    case(
        rt,
        "the lowest TIME minus W",
        b"\x00\x00\x00\x80\x04\x00\x00\x00\x00\x80\x03\x00\x08\x00\x00\x80\x05\x00",
        600000,
        16,
    )?;
    case(
        rt,
        "the highest TIME",
        b"\xFD\xFF\xFF\x7F\x03\x00\xFE\xFF\xFF\x7F\x04\x00\xFF\xFF\xFF\x7F\x05\x00",
        1,
        16,
    )?;
    case(
        rt,
        "from below zero to above",
        b"\xFF\xFF\xFF\xFF\x06\x00\x00\x00\x00\x00\x07\x00\x01\x00\x00\x00\x08\x00",
        1,
        16,
    )
}
