// The ways of MEMCP's copy for C: each call is the one of crate copies, under the same clauses. A slice is a pointer and a length there.
#![tactic(auto)]

ghost use Rattle.std.specs.Prelude.{◌≡◌, length};
ghost use Rattle.copies.specs.Copies.{copy_answer, copied};

// As the machine does it: by words where the stretches share no byte. The answer is 0, or 1 where a stretch leaves the data.
#[unsafe(no_mangle)]
pub extern "C" fn rikzord_copy_by_words(d: &mut [u8], to: usize, from: usize, n: usize) -> u8
    ensures { (result ≡ copy_answer (length d.old) to from n) × (d.new ≡ copied d.old to from n) }
{
    copies::rikzord_copy_by_words(d, to, from, n)
}

// By single bytes where the stretches share none.
#[unsafe(no_mangle)]
pub extern "C" fn rikzord_copy_by_bytes(d: &mut [u8], to: usize, from: usize, n: usize) -> u8
    ensures { (result ≡ copy_answer (length d.old) to from n) × (d.new ≡ copied d.old to from n) }
{
    copies::rikzord_copy_by_bytes(d, to, from, n)
}

// Through an array, whether the stretches share bytes or not.
#[unsafe(no_mangle)]
pub extern "C" fn rikzord_copy_through(d: &mut [u8], to: usize, from: usize, n: usize) -> u8
    ensures { (result ≡ copy_answer (length d.old) to from n) × (d.new ≡ copied d.old to from n) }
{
    copies::rikzord_copy_through(d, to, from, n)
}
