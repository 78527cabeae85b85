// The structs that the C functions return, each filled from the answer of a call: document 01's number, place and values of the answer, by the
// definitions that the calls' own promises cite. (An exported function cannot return an enum.) What an answer does not have is 0, a struct's default. The
// conversions are alike, and not one function: each fills another struct of the C interface with values of its own, beside the number and mostly the place.
#![tactic(auto)]

ghost use Rattle.std.specs.Prelude.{◌≤◌};
ghost use Rattle.replies.specs.Replies.{GivesSpan};

use reading::{Reading, ReadingPair};
use refusals::Refusal;
use search::LabelSet;
use text::Span;

// Number 0 where the call is done.
#[repr(C)]
#[derive(Clone, Copy, Default)]
pub struct Reply {
    pub number: u32,
    pub place: usize,
}

// The coefficient is 0 with a refusal.
#[repr(C)]
#[derive(Clone, Copy, Default)]
pub struct Sum {
    pub number: u32,
    pub value: i32,
    pub place: usize,
}

// Number 0 with a plan; label places past the size hold 0, and all are 0 with a refusal.
#[repr(C)]
#[derive(Clone, Copy, Default)]
pub struct Signature {
    pub number: u32,
    pub place: usize,
    pub size: usize,
    pub labels: [u32; 4],
}

// Number 0 and how many bytes were written, or number 8.
#[repr(C)]
#[derive(Clone, Copy, Default)]
pub struct Written {
    pub number: u32,
    pub bytes: usize,
}

// Number 0 with a reading: kind 1 a plain syndrome, 2 a weighted sum, 3 a constrained value with its number of fixed inputs, which is 0 in the
// other kinds. With a refusal all but number and place is 0.
#[repr(C)]
#[derive(Clone, Copy, Default)]
pub struct Measured {
    pub number: u32,
    pub kind: u32,
    pub fixed: u32,
    pub place: usize,
    pub value: f64,
}

// Number 0 with the readings, which are 0 with a refusal.
#[repr(C)]
#[derive(Clone, Copy, Default)]
pub struct Comparison {
    pub number: u32,
    pub place: usize,
    pub sound: f64,
    pub faulty: f64,
    pub difference: f64,
}

// A part of a lent text.
#[repr(C)]
#[derive(Clone, Copy, Default)]
pub struct Part {
    pub start: usize,
    pub length: usize,
}

impl From<Result<(), Refusal>> for Reply {
    ghost use Rattle.screen.specs.Answers.{answer_of};
    ghost use Rattle.replies.specs.Replies.{Gives};

    ghost from_gives = { λ answer reply. Gives reply (answer_of answer) };

    fn from(answer: Result<(), Refusal>) -> Self {
        match answer {
            Ok(()) => Reply::default(),
            Err(refusal) => Reply {
                number: refusal.number(),
                place: refusal.place(),
            },
        }
    }
}

impl From<Result<i32, Refusal>> for Sum {
    ghost use Rattle.walsh.specs.Coefficients.{found_by};
    ghost use Rattle.replies.specs.Replies.{GivesFound};

    ghost from_gives = { λ answer sum. GivesFound sum (found_by answer) };

    fn from(answer: Result<i32, Refusal>) -> Self {
        match answer {
            Ok(value) => Sum {
                value,
                ..Sum::default()
            },
            Err(refusal) => Sum {
                number: refusal.number(),
                place: refusal.place(),
                ..Sum::default()
            },
        }
    }
}

impl From<Result<LabelSet, Refusal>> for Signature {
    ghost use Rattle.planner.specs.PlanCall.{planned_as};
    ghost use Rattle.replies.specs.Replies.{GivesPlan};

    ghost from_gives = { λ answer signature. GivesPlan signature (planned_as answer) };

    fn from(answer: Result<LabelSet, Refusal>) -> Self {
        match answer {
            Ok(set) => {
                let labels = set.padded();
                Signature {
                    size: set.labels().len(),
                    labels,
                    ..Signature::default()
                }
            }
            Err(refusal) => Signature {
                number: refusal.number(),
                place: refusal.place(),
                ..Signature::default()
            },
        }
    }
}

impl From<Result<usize, Refusal>> for Written {
    ghost use Rattle.report.specs.ReportCall.{reported_as};
    ghost use Rattle.replies.specs.Replies.{GivesReport};

    ghost from_gives = { λ answer written. GivesReport written (reported_as answer) };

    fn from(answer: Result<usize, Refusal>) -> Self {
        match answer {
            Ok(bytes) => Written {
                bytes,
                ..Written::default()
            },
            Err(refusal) => Written {
                number: refusal.number(),
                ..Written::default()
            },
        }
    }
}

impl From<Reading> for Measured {
    ghost use Rattle.reading.specs.Readings.{read_as};
    ghost use Rattle.replies.specs.Replies.{GivesReading};

    ghost from_gives = { λ reading measured. GivesReading measured (read_as reading) };

    fn from(reading: Reading) -> Self {
        match reading {
            Reading::Syndrome(value) => Measured {
                kind: 1,
                value,
                ..Measured::default()
            },
            Reading::Weighted(value) => Measured {
                kind: 2,
                value,
                ..Measured::default()
            },
            Reading::Constrained(value, fixed) => Measured {
                kind: 3,
                value,
                fixed,
                ..Measured::default()
            },
            Reading::Refused(refusal) => Measured {
                number: refusal.number(),
                place: refusal.place(),
                ..Measured::default()
            },
        }
    }
}

impl From<Result<ReadingPair, Refusal>> for Comparison {
    ghost use Rattle.fixture.specs.ReadingCall.{compared_as};
    ghost use Rattle.replies.specs.Replies.{GivesPair};

    ghost from_gives = { λ answer comparison. GivesPair comparison (compared_as answer) };

    #[tactic(auto, unfolding(fixture::specs::ReadingCall::unread))]
    fn from(answer: Result<ReadingPair, Refusal>) -> Self {
        match answer {
            Ok(readings) => Comparison {
                sound: readings.sound,
                faulty: readings.faulty,
                difference: readings.difference,
                ..Comparison::default()
            },
            Err(refusal) => Comparison {
                number: refusal.number(),
                place: refusal.place(),
                ..Comparison::default()
            },
        }
    }
}

// No `From`: it cannot ask that the span does not end before it starts.
pub fn to_part(s: Span) -> Part
    requires { s.start ≤ s.end }
    ensures { GivesSpan result s }
{
    Part {
        start: s.start,
        length: s.end - s.start,
    }
}
