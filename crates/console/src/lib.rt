// What the program `cores` prints, from the bytes of its three files, written into lent bytes.
#![tactic(auto)]

ghost use Rattle.std.specs.Prelude.{◌≡◌, ◌≤◌, length};
ghost use Rattle.listing.specs.Writers.{text_left, text_call};
ghost use Rattle.machine.specs.Judging.{LentTo};
ghost use Rattle.console.specs.Console.{too_long, run_text, cores_text};

use taskset::Layout;
use verdict::Refusal;

// The most bytes of a task set, of a trace and of an order. Who reads files for `output` reads one byte more, so that a longer one is seen.
pub const MOST_FILE: usize = 82800;

pub const MOST_TRACE: usize = 4096;

pub const MOST_ORDER: usize = 4096;

// Bytes that hold any text.
pub const TEXT: usize = 16384;

// Whether one of three files of these lengths is longer than the program reads.
fn too_long(file: usize, trace: usize, order: usize) -> bool
    ensures { result ≡ too_long file trace order }
{
    MOST_FILE < file || (MOST_TRACE < trace || MOST_ORDER < order)
}

// ---- the run

// The listing after the order's steps from the fresh state of an accepted file, or the refusal, whatever the lent memories held.
fn write_run(
    file: &[u8],
    trace: &[u8],
    layout: Layout,
    order: &[u8],
    buffer: &mut [u8],
    shared: &mut [u8],
    list: &mut [u8],
    out: &mut [u8],
) -> Result<usize, Refusal>
    requires { LentTo file.now layout buffer.old shared.old × (length order.now ≤ length list.old) }
    ensures { text_left result out.new ≡ text_call (run_text file.now trace.now order.now) out.old }
{
    let ran = runs::first_run_judged(file, trace, layout, buffer, shared, order, list);
    if ran.refusal != 0 {
        return listing::write_refused(ran.refusal, out);
    }
    let n = ran.state.count as usize;
    listing::write_listing(ran.state, n, list, ran.taken, out)
}

// ---- the text

// The text goes to the front of `out`, and the answer is its length; where `out` can't hold it, the answer is 21 and `out` stays as it was.
// TEXT bytes hold any text. The file is judged once.
pub fn output(file: &[u8], trace: &[u8], order: &[u8], out: &mut [u8]) -> Result<usize, Refusal>
    ensures { text_left result out.new ≡ text_call (cores_text file.now trace.now order.now) out.old }
{
    if too_long(file.len(), trace.len(), order.len()) {
        return listing::write_long(out);
    }
    let layout = match file_loading::load_file(file) {
        Ok(layout) => layout,
        Err(refusal) => return listing::write_refused(refusal.number(), out),
    };
    let size = file_loading::sum_of_sizes(file, layout);
    let mut buffer = [0u8; 16384];
    let mut shared = [0u8; 1024];
    let mut list = [0u8; 4096];
    write_run(
        file,
        trace,
        layout,
        order,
        &mut buffer[..size],
        &mut shared,
        &mut list,
        out,
    )
}
