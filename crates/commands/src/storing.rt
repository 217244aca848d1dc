// How a command's result is stored.
ghost use Rattle.std.specs.Prelude.{◌≡◌, ◌+◌, ◌≤◌, length};
ghost use Rattle.memory.specs.Memory.{splice, bytes_le};
ghost use Rattle.values.specs.Width.{Width};

// Stores a pattern of w bytes, by a copy of its bytes: stores of the single bytes, alike in every arm, would be compiled as one for all
// widths, a byte at a time; a copy of a constant length is one instruction.
pub fn store_pattern(d: &mut [u8], w: usize, to: usize, p: u64)
    requires { Width w × (to + w ≤ length d.old) }
    ensures { d.new ≡ splice d.old to (bytes_le w p) }
{
    let mut bytes: [u8; 8] = [0; 8];
    memory::store(&mut bytes, 0, 8, p);
    match w {
        1 => memory::copy(d, to, &bytes, 0, 1),
        2 => memory::copy(d, to, &bytes, 0, 2),
        4 => memory::copy(d, to, &bytes, 0, 4),
        _ => memory::copy(d, to, &bytes, 0, 8),
    }
}
