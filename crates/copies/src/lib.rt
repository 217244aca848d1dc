// MEMCP's copy (document 02, 2.5) in three ways with one contract, for the benchmark that times them beside each other: as the machine does it, by
// single bytes, and through an array. The machine itself calls `memory::copy_within` and none of these.
#![tactic(auto)]

ghost use Rattle.std.specs.Prelude.{◌≡◌, ◌+◌, ◌≤◌, length};
ghost use Rattle.memory.specs.Memory.{splice, part, Disjoint};
ghost use Rattle.copies.specs.Copies.{copy_fits, copy_answer, copied};

use memory::LARGEST_DATA;

// Whether two stretches of n bytes lie within a core's data of this size.
fn fits(size: usize, to: usize, from: usize, n: usize) -> bool
    ensures { result ≡ copy_fits size to from n }
{
    if LARGEST_DATA < n {
        return false;
    }
    if size < n {
        return false;
    }
    if size - n < to {
        return false;
    }
    from <= size - n
}

// Stretches that share no byte: single bytes.
fn move_singly(d: &mut [u8], to: usize, from: usize, n: usize)
    requires { (to + n ≤ length d.old) × (from + n ≤ length d.old) × Disjoint to from n }
    ensures { d.new ≡ splice d.old to (part d.old from n) }
{
    for i in 0..n {
        d[to + i] = d[from + i];
    }
}

// As the machine does it: by words where the stretches share no byte. The answer is 0, or 1 where a stretch leaves the data, as C is given it.
pub fn rikzord_copy_by_words(d: &mut [u8], to: usize, from: usize, n: usize) -> u8
    ensures { (result ≡ copy_answer (length d.old) to from n) × (d.new ≡ copied d.old to from n) }
{
    if !fits(d.len(), to, from, n) {
        return 1;
    }
    memory::copy_within(d, to, from, n);
    0
}

// By single bytes where the stretches share none.
pub fn rikzord_copy_by_bytes(d: &mut [u8], to: usize, from: usize, n: usize) -> u8
    ensures { (result ≡ copy_answer (length d.old) to from n) × (d.new ≡ copied d.old to from n) }
{
    if !fits(d.len(), to, from, n) {
        return 1;
    }
    if n <= to.abs_diff(from) {
        move_singly(d, to, from, n);
    } else {
        memory::move_through(d, to, from, n);
    }
    0
}

// Through an array, whether the stretches share bytes or not.
pub fn rikzord_copy_through(d: &mut [u8], to: usize, from: usize, n: usize) -> u8
    ensures { (result ≡ copy_answer (length d.old) to from n) × (d.new ≡ copied d.old to from n) }
{
    if !fits(d.len(), to, from, n) {
        return 1;
    }
    memory::move_through(d, to, from, n);
    0
}
