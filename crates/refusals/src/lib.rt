// Why a call refuses what it was given, and where. Which call gives which refusal, and in which order, is the business of other crates.
#![tactic(auto)]

ghost use Rattle.std.specs.Prelude.{◌≡◌, true, false, MatchResult};
ghost use Rattle.refusals.specs.Refusals.{flaw_number, refusal_number, refusal_place};

/// What is wrong with a line of a text.
#[derive(Clone, Copy)]
pub enum Flaw {
    /// It is missing, has no end, or is not formed as a line of its kind.
    Malformed,
    /// A number is outside its range.
    OutOfRange,
    /// A gate reads its own or a later line.
    ReadsAhead,
    /// An output or a fault names a line above the last.
    NoSuchLine,
    /// The lines of a fault do not rise.
    NotRising,
    /// A table's row is none of 0, 1 and -.
    NotAMark,
    /// A bridge does not join two inputs that rise.
    NotInputs,
}

/// Why a call refuses, with the place in each case that has one: lines of a text and faults count from 1, indices in a list from 0.
#[derive(Clone, Copy)]
pub enum Refusal {
    TextTooLong,
    Line { flaw: Flaw, line: usize },
    /// Bytes after the last line that is due; `line` is the next one.
    TextGoesOn { line: usize },
    ShortBuffer,
    WrongLength,
    /// The first number of a list that is out of range.
    OutOfRange { index: usize },
    /// The first sum that does not divide, or gives a row out of range.
    Indivisible { index: usize },
    WrongArgument,
    /// The first silent fault: it changes no output.
    Silent { fault: usize },
    /// The first hidden fault: it changes an output and no row's value.
    Hidden { fault: usize },
    /// No set of labels within the cap covers every fault.
    NoSet,
}

impl Flaw {
    /// Refuses by this flaw where a test does not pass.
    pub fn unless(self, passed: bool) -> Result<(), Flaw>
        ensures { MatchResult result (λ _. passed ≡ true) (λ flaw. (passed ≡ false) × (flaw ≡ self)) }
    {
        if passed { Ok(()) } else { Err(self) }
    }

    /// Document 01's number of it, and document 02's.
    pub fn number(self) -> u32
        ensures { result ≡ flaw_number self }
    {
        match self {
            Flaw::Malformed => 2,
            Flaw::OutOfRange => 3,
            Flaw::ReadsAhead => 4,
            Flaw::NoSuchLine => 5,
            Flaw::NotRising => 6,
            Flaw::NotAMark => 15,
            Flaw::NotInputs => 19,
        }
    }
}

impl Refusal {
    /// Document 01's number of it, and document 02's.
    pub fn number(self) -> u32
        ensures { result ≡ refusal_number self }
    {
        match self {
            Refusal::TextTooLong => 1,
            Refusal::Line { flaw, .. } => flaw.number(),
            Refusal::TextGoesOn { .. } => 7,
            Refusal::ShortBuffer => 8,
            Refusal::WrongLength => 9,
            Refusal::OutOfRange { .. } => 10,
            Refusal::Indivisible { .. } => 11,
            Refusal::WrongArgument => 12,
            Refusal::Silent { .. } => 13,
            Refusal::NoSet => 14,
            Refusal::Hidden { .. } => 16,
        }
    }

    /// Its place, which is 0 in document 01 where none is named.
    pub fn place(self) -> usize
        ensures { result ≡ refusal_place self }
    {
        match self {
            Refusal::Line { line, .. } | Refusal::TextGoesOn { line } => line,
            Refusal::OutOfRange { index } | Refusal::Indivisible { index } => index,
            Refusal::Silent { fault } | Refusal::Hidden { fault } => fault,
            Refusal::TextTooLong
            | Refusal::ShortBuffer
            | Refusal::WrongLength
            | Refusal::WrongArgument
            | Refusal::NoSet => 0,
        }
    }
}
