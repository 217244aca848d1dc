// What a step of an exchange makes of the registers, the line, the cursor and the order list, by its answer.
// Not here: the data and shared memory, which are written when it answers (src/lib.rt).
ghost use Rattle.std.specs.Prelude.{◌≡◌, map, ◌+◌, ◌<◌, length};
ghost use Rattle.memory.specs.Memory.{splice};
ghost use Rattle.protocol.specs.Step.{encoded};
ghost use Rattle.protocol.specs.Fair.{Once};
ghost use Rattle.semaphore.specs.Line.{semaphore_of, line_of, Lined};
ghost use Rattle.records.specs.File.{variables, record_place};
ghost use Rattle.exchange.specs.Laid.{Laid};
ghost use Rattle.steps.specs.Effects.{exchanged, semaphore_by, taken_by, Takes};
ghost use Rattle.steps.specs.After.{RegistersAfter, LineTakes, CursorAfter};

use crate::Exchange;
use exchange::Cursor;
use protocol::Registers;
use semaphore::Line;

// The registers of its core, which were r.
pub fn registers_after(z: Exchange, r: Registers) -> Registers
    requires { Takes r (exchanged z) }
    ensures { RegistersAfter z r result }
{
    match z {
        Exchange::Rests => r,
        Exchange::Joins => r,
        Exchange::ReadBegun(time) => protocol::read_acquired(r, time),
        Exchange::ReadOn(_) => protocol::byte_copied(r),
        Exchange::ReadEnded => protocol::read_released(r),
        Exchange::WriteBegun => protocol::write_acquired(r),
        Exchange::WriteOn(_) => protocol::byte_copied(r),
        Exchange::WriteEnded => protocol::write_released(r),
    }
}

// The semaphore with its line, by a step of core k.
pub fn line_after(z: Exchange, line: Line, k: usize) -> Line
    requires { Lined line × (k < 4) × Once (semaphore_of line.semaphore).line × LineTakes (semaphore_of line.semaphore) k z }
    ensures { result ≡ line_of (semaphore_by (exchanged z) k (semaphore_of line.semaphore)) }
{
    match z {
        Exchange::Rests => line,
        Exchange::Joins => semaphore::joined(line, k),
        Exchange::ReadBegun(_) => semaphore::acquired(line, k),
        Exchange::ReadOn(_) => line,
        Exchange::ReadEnded => semaphore::released(line),
        Exchange::WriteBegun => semaphore::acquired(line, k),
        Exchange::WriteOn(_) => line,
        Exchange::WriteEnded => semaphore::released(line),
    }
}

// Where the next byte of the exchange stands, after a step of core k.
pub fn cursor_after(
    z: Exchange,
    cursor: Cursor,
    file: &[u8],
    first: usize,
    end: usize,
    k: usize,
) -> Cursor
    requires { Laid file.now × (first ≡ record_place file.now 0) × (end ≡ record_place file.now (variables file.now)) × (k < 4) }
    ensures { CursorAfter file.now k cursor z result }
{
    match z {
        Exchange::Rests => cursor,
        Exchange::Joins => cursor,
        Exchange::ReadBegun(_) => exchange::start(file, first, end, 4 + k),
        Exchange::ReadOn(next) => next,
        Exchange::ReadEnded => cursor,
        Exchange::WriteBegun => exchange::start(file, first, end, k),
        Exchange::WriteOn(next) => next,
        Exchange::WriteEnded => cursor,
    }
}

// A taking goes to the end of the order list, of which `taken` bytes are written; how many are written then.
pub fn list_taking(z: Exchange, list: &mut [u8], taken: usize, k: usize) -> usize
    requires { (taken < length list.old) × (k < 4) }
    ensures { (result ≡ taken + length (taken_by (exchanged z) k)) × (list.new ≡ splice list.old taken (map encoded (taken_by (exchanged z) k))) }
{
    match z {
        Exchange::Rests => taken,
        Exchange::Joins => taken,
        Exchange::ReadBegun(_) => {
            list[taken] = k as u8;
            taken + 1
        }
        Exchange::ReadOn(_) => taken,
        Exchange::ReadEnded => taken,
        Exchange::WriteBegun => {
            list[taken] = 16 + k as u8;
            taken + 1
        }
        Exchange::WriteOn(_) => taken,
        Exchange::WriteEnded => taken,
    }
}
