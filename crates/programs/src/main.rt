// Small programs with known results, from standard input (file `stdin`): latches, a counter, nested calls, instances in instances, arrays, overlapping copies,
// every fault and the order in which two at once are tried, the last place of each operand, conversions and packed decimal. Each line that comes has the program's
// name, the mode, program counter, data offset, depth, instruction count and flag byte after its cycle, and the data.
#![tactic(auto)]

ghost use Rattle.std.specs.Prelude.{◌≡◌, ◌<◌, ◌≤◌, length};
ghost use Rattle.code.specs.Code.{judge_code};

use code::Profile;
use output::Output;
use protocol::{Outcome, Registers};
use std::io::{Result, Write, writer};

// ---- one cycle

// The registers as execution begins, in the first cycle; the time is 04030201 hex.
fn begun() -> Registers {
    Registers {
        mode: protocol::EXECUTING,
        counter: 0,
        offset: 0,
        depth: 0,
        count: 0,
        exchange: 0,
        cycles: 0,
        flags: 4,
        time: 67305985,
    }
}

// The registers after an instruction of a cycle that goes on, or of one that has ended.
#[derive(Clone, Copy)]
enum After {
    GoesOn(Registers),
    Ended(Registers),
}

// What the answer of an instruction makes of the registers. A call keeps its return place and data offset in the entries at its depth; RETURN takes them out.
fn followed(
    outcome: Outcome,
    r: Registers,
    places: &mut [u16; 16],
    offsets: &mut [u16; 16],
) -> After
    requires { r.count < 65535 }
{
    match outcome {
        Outcome::Fault(b) => {
            if 8 <= b {
                return After::Ended(r);
            }
            After::Ended(protocol::faulted(r, b))
        }
        Outcome::Next(p) => After::GoesOn(protocol::advanced(r, p)),
        Outcome::Call(next, target, offset) => {
            let j = r.depth as usize;
            if 16 <= j {
                return After::Ended(r);
            }
            places[j] = next;
            offsets[j] = r.offset;
            After::GoesOn(protocol::called(r, target, offset))
        }
        Outcome::Return => {
            let j = r.depth as usize;
            if j == 0 {
                return After::Ended(protocol::cycle_ended(r));
            }
            if 16 < j {
                return After::Ended(r);
            }
            let k = j - 1;
            let place = places[k];
            let offset = offsets[k];
            places[k] = 0;
            offsets[k] = 0;
            After::GoesOn(protocol::returned(r, place, offset))
        }
    }
}

// The instructions of one cycle, at most 2,000: the limit, then what the instruction answers. Nothing is proved here of what it keeps, so the
// loop tests what an instruction asks.
fn cycle(code: &[u8], d: &mut [u8], limit: u16) -> Registers
    requires { (judge_code code.now ≡ 0) × (length code.now ≤ 8192) }
{
    let mut r = begun();
    let mut places: [u16; 16] = [0; 16];
    let mut offsets: [u16; 16] = [0; 16];
    for _ in 0..2000 {
        if limit <= r.count {
            return protocol::faulted(r, protocol::LIMIT);
        }
        if 4096 < d.len() {
            return r;
        }
        if !code::is_start(code, r.counter as usize) {
            return r;
        }
        match followed(execution::execute(r, code, d), r, &mut places, &mut offsets) {
            After::GoesOn(next) => {
                r = next;
            }
            After::Ended(last) => {
                return last;
            }
        }
    }
    r
}

// One cycle of accepted code on lent data, and what it leaves.
fn report(rt: &impl Print, code: &[u8], d: &mut [u8], limit: u16) -> Result<()>
    requires { (judge_code code.now ≡ 0) × (length code.now ≤ 8192) }
{
    let r = cycle(code, d, limit);
    print!(rt;
        " {} {} {} {} {} {} |",
        r.mode, r.counter, r.offset, r.depth, r.count, r.flags
    )?;
    for b in d {
        print!(rt; " {b:02x}")?;
    }
    println!(rt;)
}

// A program on these data.
fn run(rt: &impl Print, code: &[u8], data: &[u8], limit: u16) -> Result<()> {
    if 8192 < code.len() {
        return Ok(());
    }
    if let Err(refusal) = code_judging::judge_code_for(Profile::Full, code) {
        return println!(rt; " refused {}", refusal.number());
    }
    let n = data.len();
    if 4096 < n {
        return Ok(());
    }
    let mut d = [0u8; 4096];
    memory::copy(&mut d, 0, data, 0, n);
    report(rt, code, &mut d[..n], limit)
}

// ---- the cases

// One line: name, code, data, limit.
fn case(rt: &impl Print, line: &[u8]) -> Result<()> {
    if !cases::is_case(line) {
        return Ok(());
    }
    let mut code = [0u8; 256];
    let c = cases::bytes(line, 1, &mut code);
    let mut data = [0u8; 256];
    let d = cases::bytes(line, 2, &mut data);
    let n = cases::name_end(line);
    writer(rt).write_all(&line[..n])?;
    print!(rt; ":")?;
    run(rt, &code[..c], &data[..d], cases::number(line, 3) as u16)
}

fn lines(rt: &impl Print, text: &[u8]) -> Result<()> {
    let mut from: usize = 0;
    while from < text.len() {
        let end = cases::line_end(text, from);
        case(rt, &text[from..end])?;
        from = end + 1;
    }
    Ok(())
}

fn main(rt: HostRuntime) -> Result<()> {
    let mut space = io::large_buffer();
    let n = io::read_full(0, &mut space);
    lines(&Output { to: &rt }, &space[..n])
}
