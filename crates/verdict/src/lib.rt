// Judgements by name, with the numbers of documents 01 and 02: why a call is refused, and which fault stops a core. The definitions are in specs/, their laws in proofs/.

#![tactic(auto)]

ghost use Rattle.std.specs.Prelude.{◌≡◌, ◌<◌, None};
ghost use Rattle.verdict.specs.Refusals.{number_of, refusal_of};
ghost use Rattle.verdict.specs.Faults.{bit_of};

// Why a file, a trace, a state or a call is refused.
#[derive(Clone, Copy, Debug, PartialEq, Eq)]
pub enum Refusal {
    CutFile, // the file ends before its last item
    NoMark, // the mark
    BadCore, // a core's record, or their number
    BadVariable, // a variable's record, or their number
    Overlapping, // variables that share a byte
    BadInstruction, // an instruction, or a code's length
    BadTarget, // a target, or the last instruction
    NoSuchCore,
    BadLengths, // of lent memory
    BadTrace,
    UnfitState,
    LeftOver, // bytes after the last section
    NotAbove, // a target not above its own instruction
    OverCount, // a count over 65,535
    WideType, // a type that the small profile does not carry
    BadSpan,
    FewPlaces, // for answers
    BadRun,
    BadStart, // a start value's place
    HasStarts, // a file with start values has no old form
    NotProduced, // no order of steps produces the list
    OutsideWindow,
}

impl Refusal {
    // Its number in documents 01 and 02, which C is given.
    pub fn number(self) -> u8
        ensures { (result ≡ number_of self) × (0 < result) }
    {
        match self {
            Refusal::CutFile => 1,
            Refusal::NoMark => 2,
            Refusal::BadCore => 3,
            Refusal::BadVariable => 4,
            Refusal::Overlapping => 5,
            Refusal::BadInstruction => 6,
            Refusal::BadTarget => 7,
            Refusal::NoSuchCore => 20,
            Refusal::BadLengths => 21,
            Refusal::BadTrace => 22,
            Refusal::UnfitState => 23,
            Refusal::LeftOver => 24,
            Refusal::NotAbove => 25,
            Refusal::OverCount => 26,
            Refusal::WideType => 27,
            Refusal::BadSpan => 28,
            Refusal::FewPlaces => 29,
            Refusal::BadRun => 30,
            Refusal::BadStart => 31,
            Refusal::HasStarts => 32,
            Refusal::NotProduced => 33,
            Refusal::OutsideWindow => 34,
        }
    }
}

// The number of an answer, 0 where nothing is refused.
pub fn refusal_of<T: Copy>(answer: Result<T, Refusal>) -> u8
    ensures { result ≡ refusal_of answer }
{
    match answer {
        Ok(_) => 0,
        Err(refusal) => refusal.number(),
    }
}

// A refusal, and what is known all the same of what was asked for.
#[derive(Clone, Copy)]
pub struct Refused<T> {
    pub refusal: Refusal,
    pub known: Option<T>,
}

// Of which nothing is known.
impl<T> From<Refusal> for Refused<T> {
    ghost from_gives = { λ refusal r. r ≡ record { refusal = refusal; known = None } };

    fn from(refusal: Refusal) -> Refused<T> {
        Refused {
            refusal,
            known: None,
        }
    }
}

// What stops a core.
#[derive(Clone, Copy, Debug, PartialEq, Eq)]
pub enum Fault {
    Index, // an array index past the count
    Limit, // of instructions in a cycle
    Divisor, // zero
    Address, // beyond the data
    Call, // a seventeenth open one
    Conversion, // a result that the destination can't hold
}

impl Fault {
    // Its bit of the flag byte.
    pub fn bit(self) -> u8
        ensures { (result ≡ bit_of self) × (result < 8) }
    {
        match self {
            Fault::Index => 0,
            Fault::Limit => 1,
            Fault::Divisor => 3,
            Fault::Address => 4,
            Fault::Call => 5,
            Fault::Conversion => 6,
        }
    }
}
