// Document 02, 2.12: the memories of the fresh state. Zeros but for the start values of the task set file, and in shared memory for each variable the
// start bytes that its writer has. In order: one core's start values; all cores'; shared memory; both memories.
#![tactic(auto)]

ghost use Rattle.std.specs.Prelude.{◌≡◌, true, ℕ, ◌+◌, ◌*◌, ◌≤◌, ◌<◌, length};
ghost use Rattle.memory.specs.Memory.{word, total};
ghost use Rattle.protocol.specs.Fresh.{zeros};
ghost use Rattle.records.specs.File.{variable_in};
ghost use Rattle.taskset.specs.Judge.{is_new, judge};
ghost use Rattle.taskset.specs.Layout.{core_layout, layout_of};
ghost use Rattle.taskset.specs.Task.{sizes_of, variables_of};
ghost use Rattle.taskset.specs.Starts.{with_pairs, start_data, writer_of, with_written, start_shared, start_buffer};

use taskset::Layout;

// ---- a core's data

// Writes n start values, which stand from place q of the file on, into the data of their core.
fn write_pairs(f: &[u8], q: usize, n: usize, d: &mut [u8])
    requires { (q + 3 * n ≤ length f.now) × ((i : ℕ) → i < n → word f.now (q + 3 * i) < length d.old) }
    ensures { d.new ≡ with_pairs f.now q n d.old }
{
    for i in 0..n {
        let at = q + 3 * i;
        let place = memory::word_at(f, at);
        d[place] = f[at + 2];
    }
}

// Writes the start values of all cores into a data buffer of zeros. The data of a core begin where those of the one before end.
fn write_data(f: &[u8], buffer: &mut [u8])
    requires { (judge f.now ≡ 0) × (is_new f.now ≡ true) × (buffer.old ≡ zeros (total (sizes_of f.now))) }
    ensures { buffer.new ≡ start_buffer f.now }
{
    let n = memory::byte_at(f, 4) as usize;
    let mut p = file_loading::code_place(f, n);
    let mut a = 0;
    for k in 0..n {
        let e = a + memory::word_at(f, 5 + 6 * k);
        let count = memory::word_at(f, p);
        write_pairs(f, p + 2, count, &mut buffer[a..e]);
        p = p + 2 + 3 * count;
        a = e;
    }
}

// ---- shared memory

// The core that writes the variable whose record stands at p.
fn writer(f: &[u8], p: usize) -> usize
    requires { p + 12 ≤ length f.now }
    ensures { (result ≡ writer_of (variable_in f.now p)) × (result < 4) }
{
    if records::writes(f, p, 0) {
        return 0;
    }
    if records::writes(f, p, 1) {
        return 1;
    }
    if records::writes(f, p, 2) {
        return 2;
    }
    3
}

// Where the data of core k begin in the data buffer.
fn base_of(f: &[u8], layout: Layout, k: usize) -> usize
    requires { (layout ≡ layout_of f.now) × (k < 4) }
    ensures { result ≡ (core_layout f.now k).base }
{
    let c = layout.core[k];
    c.base
}

// Writes for each variable the bytes that its writer has in the data buffer.
fn write_shared(f: &[u8], layout: Layout, buffer: &[u8], shared: &mut [u8])
    requires { (judge f.now ≡ 0) × (layout ≡ layout_of f.now) × (buffer.now ≡ start_buffer f.now) × (length shared.old ≡ 1024) }
    ensures { shared.new ≡ with_written (start_data f.now) (variables_of f.now) shared.old }
{
    for i in 0..layout.variables {
        let p = layout.first + records::VARIABLE_RECORD * i;
        let w = writer(f, p);
        let from = base_of(f, layout, w) + records::local_place(f, p, w) as usize;
        let to = records::shared_place(f, p) as usize;
        memory::copy(shared, to, buffer, from, records::width(f, p) as usize);
    }
}

// ---- both memories

// The memories of the fresh state. A file of the old form has no start values: nothing but zeros.
pub fn fill(f: &[u8], layout: Layout, buffer: &mut [u8], shared: &mut [u8])
    requires { (judge f.now ≡ 0) × (layout ≡ layout_of f.now) × (length buffer.old ≡ total (sizes_of f.now)) × (length shared.old ≡ 1024) }
    ensures { (buffer.new ≡ start_buffer f.now) × (shared.new ≡ start_shared f.now) }
{
    memory::zero(buffer);
    memory::zero(shared);
    if file_judging::is_new(f) {
        write_data(f, buffer);
        write_shared(f, layout, buffer, shared);
    }
}
