// A typed command of an instruction: its addresses are tried, then its type leads to code for that type alone.
// Not here: whether an address leads beyond the data (crate `beyond`); the commands themselves (crates `arithmetic`, `comparisons` and `bitwise`).
#![tactic(auto)]

ghost use Rattle.std.specs.Prelude.{◌≡◌, ◌/◌, ◌%◌, ◌<◌};
ghost use Rattle.commands.specs.Attempts.{attempt, attempted, divided, Inside, OperandsGiven, ThreeOperands};

use arithmetic::{Addition, Division, Multiplication, Remainder, Subtraction};
use beyond::{single_beyond, typed_beyond};
use bitwise::{And, Not, Or, RotateLeft, RotateRight, ShiftLeft, ShiftRight, Xor};
use commands::{Operands, ZeroDivisor, typed};
use comparisons::{Equal, Greater, GreaterOrEqual, Less, LessOrEqual, NotEqual};
use verdict::Fault;

// A command and its type as one number: 16 for each code byte, and the type.
fn command_and_type(op: u8, kind: u8) -> usize
    requires { kind < 16 }
    ensures { (result / 16 ≡ op) × (result % 16 ≡ kind) }
{
    op as usize * 16 + kind as usize
}

// A typed command with three operands inside the data, by its code byte. One jump leads to code for that command and that type alone: of two jumps, by the command and then
// by the type, an order of mixed commands lets no processor foresee the second.
fn typed_inside(d: &mut [u8], op: u8, o: Operands) -> Result<(), ZeroDivisor>
    requires { ThreeOperands op × OperandsGiven op o × Inside op o d.old }
    ensures { divided result d.new ≡ attempted op o d.old }
{
    let number = command_and_type(op, o.kind);
    match number {
        // 16 ADD
        257 => typed::<Addition>(d, 1, o),
        258 => typed::<Addition>(d, 2, o),
        259 => typed::<Addition>(d, 3, o),
        260 => typed::<Addition>(d, 4, o),
        261 => typed::<Addition>(d, 5, o),
        262 => typed::<Addition>(d, 6, o),
        263 => typed::<Addition>(d, 7, o),
        264 => typed::<Addition>(d, 8, o),
        265 => typed::<Addition>(d, 9, o),
        266 => typed::<Addition>(d, 10, o),
        267 => typed::<Addition>(d, 11, o),
        // 17 SUB
        273 => typed::<Subtraction>(d, 1, o),
        274 => typed::<Subtraction>(d, 2, o),
        275 => typed::<Subtraction>(d, 3, o),
        276 => typed::<Subtraction>(d, 4, o),
        277 => typed::<Subtraction>(d, 5, o),
        278 => typed::<Subtraction>(d, 6, o),
        279 => typed::<Subtraction>(d, 7, o),
        280 => typed::<Subtraction>(d, 8, o),
        281 => typed::<Subtraction>(d, 9, o),
        282 => typed::<Subtraction>(d, 10, o),
        283 => typed::<Subtraction>(d, 11, o),
        // 18 MUL
        289 => typed::<Multiplication>(d, 1, o),
        290 => typed::<Multiplication>(d, 2, o),
        291 => typed::<Multiplication>(d, 3, o),
        292 => typed::<Multiplication>(d, 4, o),
        293 => typed::<Multiplication>(d, 5, o),
        294 => typed::<Multiplication>(d, 6, o),
        295 => typed::<Multiplication>(d, 7, o),
        296 => typed::<Multiplication>(d, 8, o),
        297 => typed::<Multiplication>(d, 9, o),
        298 => typed::<Multiplication>(d, 10, o),
        // 19 DIV
        305 => typed::<Division>(d, 1, o),
        306 => typed::<Division>(d, 2, o),
        307 => typed::<Division>(d, 3, o),
        308 => typed::<Division>(d, 4, o),
        309 => typed::<Division>(d, 5, o),
        310 => typed::<Division>(d, 6, o),
        311 => typed::<Division>(d, 7, o),
        312 => typed::<Division>(d, 8, o),
        313 => typed::<Division>(d, 9, o),
        314 => typed::<Division>(d, 10, o),
        // 20 MOD
        321 => typed::<Remainder>(d, 1, o),
        322 => typed::<Remainder>(d, 2, o),
        323 => typed::<Remainder>(d, 3, o),
        324 => typed::<Remainder>(d, 4, o),
        325 => typed::<Remainder>(d, 5, o),
        326 => typed::<Remainder>(d, 6, o),
        327 => typed::<Remainder>(d, 7, o),
        328 => typed::<Remainder>(d, 8, o),
        // 24 AND
        384 => typed::<And>(d, 0, o),
        386 => typed::<And>(d, 2, o),
        388 => typed::<And>(d, 4, o),
        390 => typed::<And>(d, 6, o),
        392 => typed::<And>(d, 8, o),
        // 25 OR
        400 => typed::<Or>(d, 0, o),
        402 => typed::<Or>(d, 2, o),
        404 => typed::<Or>(d, 4, o),
        406 => typed::<Or>(d, 6, o),
        408 => typed::<Or>(d, 8, o),
        // 26 XOR
        416 => typed::<Xor>(d, 0, o),
        418 => typed::<Xor>(d, 2, o),
        420 => typed::<Xor>(d, 4, o),
        422 => typed::<Xor>(d, 6, o),
        424 => typed::<Xor>(d, 8, o),
        // 28 SHL
        450 => typed::<ShiftLeft>(d, 2, o),
        452 => typed::<ShiftLeft>(d, 4, o),
        454 => typed::<ShiftLeft>(d, 6, o),
        456 => typed::<ShiftLeft>(d, 8, o),
        // 29 SHR
        466 => typed::<ShiftRight>(d, 2, o),
        468 => typed::<ShiftRight>(d, 4, o),
        470 => typed::<ShiftRight>(d, 6, o),
        472 => typed::<ShiftRight>(d, 8, o),
        // 30 ROL
        482 => typed::<RotateLeft>(d, 2, o),
        484 => typed::<RotateLeft>(d, 4, o),
        486 => typed::<RotateLeft>(d, 6, o),
        488 => typed::<RotateLeft>(d, 8, o),
        // 31 ROR
        498 => typed::<RotateRight>(d, 2, o),
        500 => typed::<RotateRight>(d, 4, o),
        502 => typed::<RotateRight>(d, 6, o),
        504 => typed::<RotateRight>(d, 8, o),
        // 32 GT
        512 => typed::<Greater>(d, 0, o),
        513 => typed::<Greater>(d, 1, o),
        514 => typed::<Greater>(d, 2, o),
        515 => typed::<Greater>(d, 3, o),
        516 => typed::<Greater>(d, 4, o),
        517 => typed::<Greater>(d, 5, o),
        518 => typed::<Greater>(d, 6, o),
        519 => typed::<Greater>(d, 7, o),
        520 => typed::<Greater>(d, 8, o),
        521 => typed::<Greater>(d, 9, o),
        522 => typed::<Greater>(d, 10, o),
        523 => typed::<Greater>(d, 11, o),
        // 33 GE
        528 => typed::<GreaterOrEqual>(d, 0, o),
        529 => typed::<GreaterOrEqual>(d, 1, o),
        530 => typed::<GreaterOrEqual>(d, 2, o),
        531 => typed::<GreaterOrEqual>(d, 3, o),
        532 => typed::<GreaterOrEqual>(d, 4, o),
        533 => typed::<GreaterOrEqual>(d, 5, o),
        534 => typed::<GreaterOrEqual>(d, 6, o),
        535 => typed::<GreaterOrEqual>(d, 7, o),
        536 => typed::<GreaterOrEqual>(d, 8, o),
        537 => typed::<GreaterOrEqual>(d, 9, o),
        538 => typed::<GreaterOrEqual>(d, 10, o),
        539 => typed::<GreaterOrEqual>(d, 11, o),
        // 34 EQ
        544 => typed::<Equal>(d, 0, o),
        545 => typed::<Equal>(d, 1, o),
        546 => typed::<Equal>(d, 2, o),
        547 => typed::<Equal>(d, 3, o),
        548 => typed::<Equal>(d, 4, o),
        549 => typed::<Equal>(d, 5, o),
        550 => typed::<Equal>(d, 6, o),
        551 => typed::<Equal>(d, 7, o),
        552 => typed::<Equal>(d, 8, o),
        553 => typed::<Equal>(d, 9, o),
        554 => typed::<Equal>(d, 10, o),
        555 => typed::<Equal>(d, 11, o),
        // 35 LE
        560 => typed::<LessOrEqual>(d, 0, o),
        561 => typed::<LessOrEqual>(d, 1, o),
        562 => typed::<LessOrEqual>(d, 2, o),
        563 => typed::<LessOrEqual>(d, 3, o),
        564 => typed::<LessOrEqual>(d, 4, o),
        565 => typed::<LessOrEqual>(d, 5, o),
        566 => typed::<LessOrEqual>(d, 6, o),
        567 => typed::<LessOrEqual>(d, 7, o),
        568 => typed::<LessOrEqual>(d, 8, o),
        569 => typed::<LessOrEqual>(d, 9, o),
        570 => typed::<LessOrEqual>(d, 10, o),
        571 => typed::<LessOrEqual>(d, 11, o),
        // 36 LT
        576 => typed::<Less>(d, 0, o),
        577 => typed::<Less>(d, 1, o),
        578 => typed::<Less>(d, 2, o),
        579 => typed::<Less>(d, 3, o),
        580 => typed::<Less>(d, 4, o),
        581 => typed::<Less>(d, 5, o),
        582 => typed::<Less>(d, 6, o),
        583 => typed::<Less>(d, 7, o),
        584 => typed::<Less>(d, 8, o),
        585 => typed::<Less>(d, 9, o),
        586 => typed::<Less>(d, 10, o),
        587 => typed::<Less>(d, 11, o),
        // 37 NE
        592 => typed::<NotEqual>(d, 0, o),
        593 => typed::<NotEqual>(d, 1, o),
        594 => typed::<NotEqual>(d, 2, o),
        595 => typed::<NotEqual>(d, 3, o),
        596 => typed::<NotEqual>(d, 4, o),
        597 => typed::<NotEqual>(d, 5, o),
        598 => typed::<NotEqual>(d, 6, o),
        599 => typed::<NotEqual>(d, 7, o),
        600 => typed::<NotEqual>(d, 8, o),
        601 => typed::<NotEqual>(d, 9, o),
        602 => typed::<NotEqual>(d, 10, o),
        _ => typed::<NotEqual>(d, 11, o),
    }
}

// The addresses are tried, then the divisor.
pub fn typed_at(d: &mut [u8], op: u8, o: Operands) -> Result<(), Fault>
    requires { ThreeOperands op × OperandsGiven op o }
    ensures { attempt result d.new ≡ attempted op o d.old }
{
    if typed_beyond(d.len(), op, o) {
        return Err(Fault::Address);
    }
    typed_inside(d, op, o)?;
    Ok(())
}

// NOT inside the data: it has one source.
#[tactic(auto, unfolding(values::specs::Types::takes, values::specs::Commands::result_width, values::specs::Commands::result_type, values::specs::Commands::second_width, verdict::specs::Verdict::pick))]
fn not_inside(d: &mut [u8], o: Operands) -> Result<(), ZeroDivisor>
    requires { OperandsGiven 27 o × Inside 27 o d.old }
    ensures { divided result d.new ≡ attempted 27 o d.old }
{
    match o.kind {
        0 => typed::<Not>(d, 0, o),
        2 => typed::<Not>(d, 2, o),
        4 => typed::<Not>(d, 4, o),
        6 => typed::<Not>(d, 6, o),
        _ => typed::<Not>(d, 8, o),
    }
}

// NOT: the addresses are tried first.
#[tactic(auto, unfolding(values::specs::Types::takes, values::specs::Commands::result_width, values::specs::Commands::result_type, values::specs::Commands::second_width, verdict::specs::Verdict::pick))]
pub fn not_at(d: &mut [u8], o: Operands) -> Result<(), Fault>
    requires { OperandsGiven 27 o }
    ensures { attempt result d.new ≡ attempted 27 o d.old }
{
    if single_beyond(d.len(), o) {
        return Err(Fault::Address);
    }
    not_inside(d, o)?;
    Ok(())
}
