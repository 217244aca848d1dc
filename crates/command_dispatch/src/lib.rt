// A typed command of an instruction that is executed by itself: its addresses are tried, then its code byte leads to the command, and its type to code for that type.
// Not here: the same by one jump, for a loop over instructions (crate `dispatch`); the commands themselves (crates `arithmetic`, `comparisons` and `bitwise`).
#![tactic(auto)]

ghost use Rattle.std.specs.Prelude.{◌≡◌};
ghost use Rattle.commands.specs.Attempts.{attempt, attempted, divided, Inside, OperandsGiven, ThreeOperands};

use arithmetic::{Addition, Division, Multiplication, Remainder, Subtraction};
use beyond::typed_beyond;
use bitwise::{And, Or, RotateLeft, RotateRight, ShiftLeft, ShiftRight, Xor};
use commands::{Operands, ZeroDivisor, typed};
use comparisons::{Equal, Greater, GreaterOrEqual, Less, LessOrEqual, NotEqual};
use verdict::Fault;

// A typed command with three operands inside the data, by its code byte.
fn typed_inside(d: &mut [u8], op: u8, o: Operands) -> Result<(), ZeroDivisor>
    requires { ThreeOperands op × OperandsGiven op o × Inside op o d.old }
    ensures { divided result d.new ≡ attempted op o d.old }
{
    let t = o.kind;
    match op {
        16 => typed::<Addition>(d, t, o),
        17 => typed::<Subtraction>(d, t, o),
        18 => typed::<Multiplication>(d, t, o),
        19 => typed::<Division>(d, t, o),
        20 => typed::<Remainder>(d, t, o),
        24 => typed::<And>(d, t, o),
        25 => typed::<Or>(d, t, o),
        26 => typed::<Xor>(d, t, o),
        28 => typed::<ShiftLeft>(d, t, o),
        29 => typed::<ShiftRight>(d, t, o),
        30 => typed::<RotateLeft>(d, t, o),
        31 => typed::<RotateRight>(d, t, o),
        32 => typed::<Greater>(d, t, o),
        33 => typed::<GreaterOrEqual>(d, t, o),
        34 => typed::<Equal>(d, t, o),
        35 => typed::<LessOrEqual>(d, t, o),
        36 => typed::<Less>(d, t, o),
        _ => typed::<NotEqual>(d, t, o),
    }
}

// The addresses are tried, then the divisor. What executes an instruction is compiled into a loop only where it has one caller, so the loop over one core's
// instructions and the one over cores in turn have each their own; this one is the shorter text.
pub fn typed_by_command(d: &mut [u8], op: u8, o: Operands) -> Result<(), Fault>
    requires { ThreeOperands op × OperandsGiven op o }
    ensures { attempt result d.new ≡ attempted op o d.old }
{
    if typed_beyond(d.len(), op, o) {
        return Err(Fault::Address);
    }
    typed_inside(d, op, o)?;
    Ok(())
}
