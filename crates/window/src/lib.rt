// The memory window of a debugger (document 02, 2.14): a stretch of a core's code or data, as a part of the lent task set file or of the lent data
// buffer itself, not a copy.
#![tactic(auto)]

ghost use Rattle.std.specs.Prelude.{◌≡◌, ◌+◌, ◌<◌, length};
ghost use Rattle.verdict.specs.Refusals.{refusal_of};
ghost use Rattle.taskset.specs.Layout.{layout_of, core_layout};
ghost use Rattle.window.specs.declared.Shown.TheVariants.{Code, Data};
ghost use Rattle.window.specs.Window.{shown_place, window_refusal, found_as, window_found, window_of};

use taskset::Layout;
use verdict::Refusal;

// Which of a core's two memories is shown.
#[derive(Clone, Copy)]
pub enum Shown {
    Code,
    Data,
}

// Where a core's code stands in the file, or its data in the data buffer.
#[derive(Clone, Copy)]
pub struct Place {
    pub base: usize,
    pub size: usize,
}

// Where a stretch of the file or of the data buffer begins and ends.
#[derive(Clone, Copy)]
pub struct Stretch {
    pub from: usize,
    pub to: usize,
}

fn place_of(shown: Shown, file: &[u8], layout: Layout, k: usize) -> Place
    requires { (layout ≡ layout_of file.now) × (k < 4) }
    ensures { result ≡ shown_place shown (core_layout file.now k) }
{
    let c = layout.core[k];
    match shown {
        Shown::Code => Place {
            base: c.code,
            size: c.length,
        },
        Shown::Data => Place {
            base: c.base,
            size: c.size,
        },
    }
}

// Judges a window, once for all calls. The length is compared with what is left after the start, since their sum could wrap.
pub fn find_window(
    shown: Shown,
    core: u8,
    start: usize,
    count: usize,
    file: &[u8],
    buffer: usize,
) -> Result<Stretch, Refusal>
    ensures { found_as result ≡ window_found file.now buffer shown core start count }
{
    let layout = file_loading::load_file(file)?;
    if buffer != file_loading::sum_of_sizes(file, layout) {
        return Err(Refusal::BadLengths);
    }
    let k = core as usize;
    if layout.cores <= k {
        return Err(Refusal::OutsideWindow);
    }
    let place = place_of(shown, file, layout, k);
    if place.size < start {
        return Err(Refusal::OutsideWindow);
    }
    if place.size - start < count {
        return Err(Refusal::OutsideWindow);
    }
    let from = place.base + start;
    Ok(Stretch {
        from,
        to: from + count,
    })
}

// A window is refused as its file is, with 21 for a data buffer that is not the sum of the data sizes, with 34 for no such core or for a stretch that
// leaves the core's code or data.
pub fn check_window(
    shown: Shown,
    core: u8,
    start: usize,
    count: usize,
    file: &[u8],
    buffer: &[u8],
) -> Result<(), Refusal>
    ensures { refusal_of result ≡ window_refusal file.now (length buffer.now) shown core start count }
{
    find_window(shown, core, start, count, file, buffer.len())?;
    Ok(())
}

// What is shown of a window: an empty stretch where it is refused.
fn shown_stretch(found: Result<Stretch, Refusal>) -> Stretch
    ensures { (result.from ≡ (found_as found).from) × (result.to ≡ (found_as found).to) }
{
    match found {
        Ok(stretch) => stretch,
        Err(_) => Stretch { from: 0, to: 0 },
    }
}

// The stretch itself; an empty one where it is refused.
pub fn window<'a>(
    shown: Shown,
    core: u8,
    start: usize,
    count: usize,
    file: &'a [u8],
    buffer: &'a [u8],
) -> &'a [u8]
    ensures { (result.now ≡ window_of file.now buffer.now shown core start count)
        × (shown ≡ Code → (result.ref_ptr.0 ≡ file.entry.ref_ptr.0)
        × (result.ref_ptr.1 ≡ file.entry.ref_ptr.1 + (window_found file.now (length buffer.now) shown core start count).from))
        × (shown ≡ Data → (result.ref_ptr.0 ≡ buffer.entry.ref_ptr.0)
        × (result.ref_ptr.1 ≡ buffer.entry.ref_ptr.1 + (window_found file.now (length buffer.now) shown core start count).from)) }
{
    let found = find_window(shown, core, start, count, file, buffer.len());
    let stretch = shown_stretch(found);
    let from = stretch.from;
    let to = stretch.to;
    match shown {
        Shown::Code => &file[from..to],
        Shown::Data => &buffer[from..to],
    }
}
