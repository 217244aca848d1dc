// Lent bytes: numbers of any width up to eight bytes, low byte first, and copies.
#![tactic(auto)]

ghost use Rattle.std.specs.Prelude.{◌≡◌, ◌+◌, ◌-◌, ◌^◌, ◌≤◌, ◌<◌, length, get_or, replicate};
ghost use Rattle.memory.specs.Memory.{splice, part, Disjoint, bytes_le, read_le};

// The byte at `place`, 0 past the end. Total readers serve the judging of files and traces; a step reads by `load`.
pub fn byte_at(s: &[u8], place: usize) -> u8
    ensures { result ≡ get_or s.now place 0 }
{
    s.get(place).copied().unwrap_or(0)
}

// The 16-bit number at `place`; a byte past the end counts as 0.
pub fn word_at(s: &[u8], place: usize) -> usize
    ensures { (result ≡ read_le s.now place 2) × (result < 65536) }
{
    if s.len() <= place {
        return 0;
    }
    let low = s[place] as usize;
    let high = byte_at(s, place + 1) as usize;
    low + 256 * high
}

// The number in the `width` bytes from `place` on.
pub fn load(d: &[u8], place: usize, width: usize) -> u64
    requires { (place + width ≤ length d.now) × (width ≤ 8) }
    ensures { (result ≡ read_le d.now place width) × (result < 256 ^ width) }
{
    let mut v: u64 = 0;
    for b in d[place..place + width].iter().rev() {
        v = v * 256 + u64::from(*b);
    }
    v
}

// Writes the `width` low bytes of `value` from `place` on.
pub fn store(d: &mut [u8], place: usize, width: usize, value: u64)
    requires { place + width ≤ length d.old }
    ensures { d.new ≡ splice d.old place (bytes_le width value) }
{
    let mut rest = value;
    for b in &mut d[place..place + width] {
        *b = (rest % 256) as u8;
        rest /= 256;
    }
}

// Copies n bytes from src[from..] to dst[to..].
pub fn copy(dst: &mut [u8], to: usize, src: &[u8], from: usize, n: usize)
    requires { (to + n ≤ length dst.old) × (from + n ≤ length src.now) }
    ensures { dst.new ≡ splice dst.old to (part src.now from n) }
{
    dst[to..to + n].copy_from_slice(&src[from..from + n]);
}

// ---- copies within one buffer, as if all bytes were read first

// One word of eight bytes.
fn move_word(d: &mut [u8], to: usize, from: usize)
    requires { (to + 8 ≤ length d.old) × (from + 8 ≤ length d.old) }
    ensures { d.new ≡ splice d.old to (part d.old from 8) }
{
    let mut word: [u8; 8] = [0; 8];
    copy(&mut word, 0, d, from, 8);
    copy(d, to, &word, 0, 8);
}

// Stretches that share no byte: a word at a time while eight bytes are left, then single bytes.
pub fn move_words(d: &mut [u8], to: usize, from: usize, n: usize)
    requires { (to + n ≤ length d.old) × (from + n ≤ length d.old) × Disjoint to from n }
    ensures { d.new ≡ splice d.old to (part d.old from n) }
{
    let words = n / 8;
    for i in 0..words {
        move_word(d, to + 8 * i, from + 8 * i);
    }
    for i in 8 * words..n {
        d[to + i] = d[from + i];
    }
}

// The largest data of a core.
pub const LARGEST_DATA: usize = 4096;

// Any stretches: all bytes out to a local array, then all back.
pub fn move_through(d: &mut [u8], to: usize, from: usize, n: usize)
    requires { (to + n ≤ length d.old) × (from + n ≤ length d.old) × (n ≤ 4096) }
    ensures { d.new ≡ splice d.old to (part d.old from n) }
{
    let mut all: [u8; LARGEST_DATA] = [0; LARGEST_DATA];
    copy(&mut all, 0, d, from, n);
    copy(d, to, &all, 0, n);
}

// Copies n bytes within d, whether the stretches share bytes or not.
pub fn copy_within(d: &mut [u8], to: usize, from: usize, n: usize)
    requires { (to + n ≤ length d.old) × (from + n ≤ length d.old) × (n ≤ 4096) }
    ensures { d.new ≡ splice d.old to (part d.old from n) }
{
    if n <= to.abs_diff(from) {
        move_words(d, to, from, n);
    } else {
        move_through(d, to, from, n);
    }
}

// Fills d with zeros.
pub fn zero(d: &mut [u8])
    ensures { d.new ≡ replicate (length d.old) 0 }
{
    d.fill(0);
}
