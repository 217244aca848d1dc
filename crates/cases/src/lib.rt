// Test cases as text, for the programs with stored results: a case is a line with fields between semicolons, the first its name, the others pairs of hex
// digits, a decimal number, or words in small letters with decimal numbers behind them; other characters in a field are passed over. A line that starts with #
// says something to the reader, and is none.
#![tactic(auto)]

ghost use Rattle.std.specs.Prelude.{◌≡◌, ◌<◌, ◌≤◌, length};
ghost use Rattle.io.specs.Counts.{IsPrefixLen};

const SEMICOLON: u8 = 59;

const BLANK: u8 = 32;

const HASH: u8 = 35;

const NEW_LINE: u8 = 10;

const NO_WORD: u64 = u64::MAX; // no letters spell it

// ---- one field of a line

// The value of a hex digit, written with capitals.
fn digit(c: u8) -> Option<u8> {
    match c {
        b'0'..=b'9' => Some(c - b'0'),
        b'A'..=b'F' => Some(c - b'A' + 10),
        _ => None,
    }
}

// The value of a decimal digit.
fn decimal_digit(c: u8) -> Option<u8> {
    match c {
        b'0'..=b'9' => Some(c - b'0'),
        _ => None,
    }
}

// How far a field was read: the semicolons before, the digits in it, and the last of them.
#[derive(Clone, Copy)]
pub struct Reading {
    pub field: usize,
    pub digits: usize,
    pub last: u8,
}

fn put(s: &mut [u8], i: usize, b: u8)
    ensures { length s.new ≡ length s.old }
{
    if let Some(place) = s.get_mut(i) {
        *place = b;
    }
}

fn begun() -> Reading {
    Reading {
        field: 0,
        digits: 0,
        last: 0,
    }
}

// The second digit of a pair stores a byte.
fn store(r: Reading, d: u8, out: &mut [u8])
    ensures { length out.new ≡ length out.old }
{
    if r.digits % 2 == 0 {
        return;
    }
    put(out, r.digits / 2, (r.last % 16) * 16 + d % 16);
}

// One character of the line, where field k is wanted.
fn take(r: Reading, c: u8, k: usize, out: &mut [u8]) -> Reading
    ensures { length out.new ≡ length out.old }
{
    if c == SEMICOLON {
        return Reading {
            field: passed(r.field, c),
            ..r
        };
    }
    if r.field != k {
        return r;
    }
    let Some(last) = digit(c) else {
        return r;
    };
    store(r, last, out);
    Reading {
        digits: r.digits % 65536 + 1,
        last,
        ..r
    }
}

// The bytes of field k go to the front of `out`; how many they are.
pub fn bytes(line: &[u8], k: usize, out: &mut [u8]) -> usize
    ensures { IsPrefixLen result out.new }
{
    let mut r = begun();
    for c in line {
        r = take(r, *c, k, out);
    }
    io::count((r.digits / 2) as isize, out)
}

// The semicolons before the next character.
fn passed(field: usize, c: u8) -> usize {
    if c == SEMICOLON {
        return field % 256 + 1;
    }
    field
}

// The number n with one more digit, where the character belongs to field k and is one.
fn counted(n: usize, field: usize, k: usize, c: u8) -> usize {
    match decimal_digit(c) {
        Some(d) if field == k => (n % 65536) * 10 + d as usize,
        _ => n,
    }
}

// The decimal number in field k, below 65,536.
pub fn number(line: &[u8], k: usize) -> usize
    ensures { result < 65536 }
{
    let mut field: usize = 0;
    let mut n: usize = 0;
    for c in line {
        n = counted(n, field, k, *c);
        field = passed(field, *c);
    }
    n % 65536
}

// ---- numbers behind words

// How far a field was read for a number behind a word: the last word, the blanks behind it, and the number with its digits so far.
#[derive(Clone, Copy)]
struct Spelling {
    word: u64,
    blanks: usize,
    digits: usize,
    number: usize,
}

// The last eight letters of a word with one more.
fn spelt(word: u64, c: u8) -> u64 {
    (word % 0x100_0000_0000_0000) * 256 + c as u64
}

fn whole(word: &[u8]) -> u64 {
    word.iter().fold(0, |letters, c| spelt(letters, *c))
}

// A letter goes on with its word, or begins one.
fn lettered(r: Spelling, c: u8) -> Spelling {
    let mut t = r;
    if r.blanks != 0 {
        t.word = 0;
    }
    t.word = spelt(t.word, c);
    t.blanks = 0;
    t
}

// One character of the field, where the nth number behind a word is wanted.
fn spell(r: Spelling, c: u8, word: u64, nth: usize) -> Spelling {
    if c == BLANK {
        return Spelling {
            blanks: r.blanks % 256 + 1,
            ..r
        };
    }
    if 97 <= c && c <= 122 {
        return lettered(r, c);
    }
    if r.word != word || r.blanks != nth {
        return r;
    }
    let Some(d) = decimal_digit(c) else {
        return r;
    };
    Spelling {
        number: (r.number % 65536) * 10 + d as usize,
        digits: r.digits % 256 + 1,
        ..r
    }
}

// At the start of a field: no word stands in two, and the semicolon counts as a blank.
fn entered(r: Spelling) -> Spelling {
    Spelling {
        word: 0,
        blanks: r.blanks % 256 + 1,
        ..r
    }
}

fn unread() -> Spelling {
    Spelling {
        word: 0,
        blanks: 0,
        digits: 0,
        number: 0,
    }
}

// The nth number behind a word of at most eight letters in field k, below 65,536; another where the word has none. One blank stands before each number; what
// is no number, as a dash, holds its place. With no word it is a number in front of the field's first word: blanks and semicolons are counted from the last
// letter before it, whatever field has that letter, and from 1 where the line has none before.
pub fn behind(line: &[u8], k: usize, word: &[u8], nth: usize, other: u16) -> u16 {
    let wanted = whole(word);
    let mut r = unread();
    let mut field: usize = 0;
    for part in line.split(|c| *c == SEMICOLON) {
        if field == k {
            r = entered(r);
            for c in part {
                r = spell(r, *c, wanted, nth);
            }
        } else if wanted == 0 {
            r = entered(r);
            for c in part {
                r = spell(r, *c, NO_WORD, nth);
            }
        }
        field = passed(field, SEMICOLON);
    }
    if r.digits == 0 {
        return other;
    }
    (r.number % 65536) as u16
}

// Whether words, each with a blank behind it, have this one among them.
fn lists(words: &[u8], word: u64) -> bool {
    let mut letters: u64 = 0;
    for c in words {
        if *c != BLANK {
            letters = spelt(letters, *c);
        } else if letters == word {
            return true;
        } else {
            letters = 0;
        }
    }
    false
}

// Whether each number in field k stands behind one of these words, so that no misspelt one is passed over.
pub fn knows(line: &[u8], k: usize, words: &[u8]) -> bool {
    let mut r = unread();
    let mut field: usize = 0;
    for part in line.split(|c| *c == SEMICOLON) {
        if field == k {
            r = entered(r);
            for c in part {
                r = spell(r, *c, 0, 0);
                if decimal_digit(*c).is_some() && !lists(words, r.word) {
                    return false;
                }
            }
        }
        field = passed(field, SEMICOLON);
    }
    true
}

// ---- lines

// The first place from `from` on with the character c; the end where there is none.
fn found(text: &[u8], from: usize, c: u8) -> usize
    ensures { (result ≤ length text.now) × (from ≤ length text.now → from ≤ result) }
{
    for i in from..text.len() {
        if text[i] == c {
            return i;
        }
    }
    text.len()
}

// Where the name of a case ends: its first semicolon.
pub fn name_end(line: &[u8]) -> usize
    ensures { IsPrefixLen result line.now }
{
    io::count(found(line, 0, SEMICOLON) as isize, line)
}

// Where the line ends that starts at `from`.
pub fn line_end(text: &[u8], from: usize) -> usize
    ensures { (result ≤ length text.now) × (from ≤ length text.now → from ≤ result) }
{
    found(text, from, NEW_LINE)
}

// Whether a line is a case.
pub fn is_case(line: &[u8]) -> bool {
    match line.first() {
        Some(c) => *c != HASH,
        None => false,
    }
}

#[cfg(test)]
mod tests;
