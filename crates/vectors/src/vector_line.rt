// A line of a file of vectors, read character by character.
ghost use Rattle.std.specs.Prelude.{◌<◌};

// What is known of a line `op type a b result` when some of it is read. A name is the number that its letters spell. Of a fault the result is
// `-`, here none; b of a conversion is the number of its to-type; a line that starts with `#` is a comment, here no line.
#[derive(Clone, Copy)]
pub struct Line {
    pub field: u8,
    pub op: u64,
    pub kind: u64,
    pub a: u64,
    pub b: u64,
    pub result: Option<u64>,
}

pub fn fresh() -> Line {
    Line {
        field: 0,
        op: 0,
        kind: 0,
        a: 0,
        b: 0,
        result: Some(0),
    }
}

fn spelled(name: u64, c: u8) -> u64 {
    name % 0x0100_0000_0000_0000 * 256 + (c as u64)
}

fn digit(c: u8) -> u64
    ensures { result < 16 }
{
    if c < b'0' {
        return 0;
    }
    if c <= b'9' {
        return (c - b'0') as u64;
    }
    if c < b'a' {
        return 0;
    }
    if c <= b'f' {
        return (c - b'a' + 10) as u64;
    }
    0
}

fn hexadecimal(number: u64, c: u8) -> u64 {
    number % 0x1000_0000_0000_0000 * 16 + digit(c)
}

// The line has one more character, which begins no comment.
pub fn lengthen(l: &mut Line, c: u8) {
    let field = l.field;
    if c == b' ' {
        if field < 4 {
            l.field = field + 1;
        }
        return;
    }
    if c == b'-' {
        l.result = None;
        return;
    }
    match field {
        0 => l.op = spelled(l.op, c),
        1 => l.kind = spelled(l.kind, c),
        2 => l.a = hexadecimal(l.a, c),
        3 => l.b = hexadecimal(l.b, c),
        _ => l.result = l.result.map(|r| hexadecimal(r, c)),
    }
}
