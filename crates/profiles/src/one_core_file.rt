// Files of one core: made of a data size and a code, and judged under a profile.
use code::Profile;
use std::io;

// Where the code of such a file begins.
const CODE: usize = 14;

fn put(f: &mut [u8], p: usize, b: u8) {
    if let Some(byte) = f.get_mut(p) {
        *byte = b;
    }
}

fn put_word(f: &mut [u8], p: usize, n: u16) {
    if p < f.len() {
        put(f, p, (n % 256) as u8);
        put(f, p + 1, (n / 256) as u8);
    }
}

// All before the code.
fn begun(f: &mut [u8], size: u16, length: u16) {
    put(f, 0, b'M');
    put(f, 1, b'C');
    put(f, 2, b'S');
    put(f, 3, b'1');
    put(f, 4, 1);
    put_word(f, 5, size);
    put_word(f, 9, 9);
    put_word(f, 12, length);
}

// The number of the file with this data size and this code under a profile.
pub fn judged(profile: Profile, size: u16, code: &[u8]) -> u8 {
    let n = code.len();
    if 50 < n {
        return 99;
    }
    let mut f = [0u8; 64];
    begun(&mut f, size, n as u16);
    memory::copy(&mut f, CODE, code, 0, n);
    verdict::refusal_of(machine::check_file_for(profile, &f[..CODE + n]))
}

// Under the full and under the small profile.
pub fn both(rt: &impl Print, name: &str, size: u16, code: &[u8]) -> io::Result<()> {
    let full = judged(Profile::Full, size, code);
    let small = judged(Profile::Small, size, code);
    println!(rt; "{name}: {full} {small}")
}
