// Why a record or a sample is refused: each question by name, and the number that it has for who reads a bill or calls from C.
#![tactic(auto)]

ghost use Rattle.std.specs.Prelude.{◌≡◌, cond};
ghost use Rattle.refusals.specs.Numbers.{number, answered};

// The questions, in the order of their numbers.
#[derive(Clone, Copy, PartialEq, Eq)]
pub enum Refusal {
    NoKind = 1,
    CutOff = 2,
    OutOfLimits = 3,
    NotFilled = 4,
    NotRising = 5,
    Opening = 6,
    Started = 7,
    NoParties = 8,
    IdTaken = 9,
    WrongEntries = 10,
    WrongMonth = 11,
    YearFull = 12,
    TestedBefore = 13,
    OtherTestEntries = 14,
    NotNextMonth = 15,
    NoRoom = 16,
    FourClearings = 17,
    NotCounted = 18,
    TooMuch = 19,
    NoRetest = 20,
    OtherRetestEntries = 21,
}

// A record that is refused: the question that failed first, and the bytes consumed.
#[derive(Clone, Copy)]
pub struct Refused {
    pub refusal: Refusal,
    pub used: usize,
}

impl Refusal {
    pub fn number(self) -> u64
        ensures { result ≡ number self }
    {
        self as u64
    }
}

// Puts a question, by its answer: if that is no, the record is refused by this question's name.
pub fn ask(passes: bool, refusal: Refusal) -> Result<(), Refusal>
    ensures { answered result ≡ cond passes 0 (number refusal) }
{
    if passes { Ok(()) } else { Err(refusal) }
}
