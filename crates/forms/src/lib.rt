// Document 02, 2.12: the converters between the two forms of a task set file. An old file becomes new with a count of 0 for each core; a new file goes back if
// it has no start values. Each call judges the whole file before it writes; a refused call writes nothing. The answer
// is how many bytes were written.
#![tactic(auto)]

ghost use Rattle.std.specs.Prelude.{◌≡◌, ◌-◌, ◌≤◌, length};
ghost use Rattle.memory.specs.Memory.{splice, part};
ghost use Rattle.forms.specs.Forms.{ConversionLeft, form_answer, to_new_call, to_old_call};

use verdict::Refusal;

// Writes a mark, and then the bytes of the file from its own mark up to `end`.
fn write_form(mark: &[u8; 4], f: &[u8], end: usize, out: &mut [u8])
    requires { (4 ≤ end) × (end ≤ length f.now) × (end ≤ length out.old) }
    ensures { out.new ≡ splice (splice out.old 0 mark.now) 4 (part f.now 4 (end - 4)) }
{
    memory::copy(out, 0, mark, 0, 4);
    memory::copy(out, 4, f, 4, end - 4);
}

// The file in the new form, with a count of 0 for each core.
pub fn to_new(f: &[u8], out: &mut [u8]) -> Result<usize, Refusal>
    ensures { ◌≡◌ {A = ConversionLeft} (record { answer = form_answer result; output = out.new }) (to_new_call f.now out.old) }
{
    if f.len() < 4 {
        return Err(Refusal::CutFile);
    }
    if !file_judging::is_old(f) {
        return Err(Refusal::NoMark);
    }
    file_judging::judge_file(f)?;
    let end = f.len();
    let counts = 2 * memory::byte_at(f, 4) as usize;
    if out.len() < end + counts {
        return Err(Refusal::BadLengths);
    }
    let mark = taskset::NEW_MARK;
    write_form(&mark, f, end, out);
    memory::store(out, end, counts, 0);
    Ok(end + counts)
}

// The file in the old form. A file has no start values exactly if nothing but a count for each core follows its code.
pub fn to_old(f: &[u8], out: &mut [u8]) -> Result<usize, Refusal>
    ensures { ◌≡◌ {A = ConversionLeft} (record { answer = form_answer result; output = out.new }) (to_old_call f.now out.old) }
{
    if f.len() < 4 {
        return Err(Refusal::CutFile);
    }
    if !file_judging::is_new(f) {
        return Err(Refusal::NoMark);
    }
    file_judging::judge_file(f)?;
    let n = memory::byte_at(f, 4) as usize;
    let end = file_loading::code_place(f, n);
    if f.len() != end + 2 * n {
        return Err(Refusal::HasStarts);
    }
    if out.len() < end {
        return Err(Refusal::BadLengths);
    }
    let mark = taskset::OLD_MARK;
    write_form(&mark, f, end, out);
    Ok(end)
}
