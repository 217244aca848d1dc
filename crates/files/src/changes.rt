// Changes to a file; what lies past its end is dropped.

pub fn put(f: &mut [u8], p: usize, b: u8) {
    if let Some(byte) = f.get_mut(p) {
        *byte = b;
    }
}

pub fn put_word(f: &mut [u8], p: usize, n: u16) {
    if p < f.len() {
        put(f, p, (n % 256) as u8);
        put(f, p + 1, (n / 256) as u8);
    }
}

pub fn put_all(f: &mut [u8], bytes: &[u8]) {
    if bytes.len() <= f.len() {
        memory::copy(f, 0, bytes, 0, bytes.len());
    }
}
