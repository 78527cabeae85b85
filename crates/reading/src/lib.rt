// Readings for a fixture: the exact fraction of a sum of rows by their count, in binary64. Where the rows come from is the business of other crates.
#![tactic(auto)]

ghost use Rattle.std.specs.Prelude.{◌≡◌, ◌≤◌, length};
ghost use Rattle.integer.specs.Tab.{Within};
ghost use Rattle.reading.specs.Readings.{agrees, whole_sum, count_of, quotient, mean_of, read_as, case_of, pair_of};

use refusals::Refusal;

// A reading by its case; a constrained one has the number of fixed inputs. Document 01 asks for this enum, with the refusal as one of its cases: hence no `Result`.
#[derive(Clone, Copy)]
pub enum Reading {
    Syndrome(f64),
    Weighted(f64),
    Constrained(f64, u32),
    Refused(Refusal),
}

// The readings of a sound circuit and a faulty one, and sound minus faulty.
#[derive(Clone, Copy)]
pub struct ReadingPair {
    pub sound: f64,
    pub faulty: f64,
    pub difference: f64,
}

// The inputs that are fixed, as a mask, and their values.
#[derive(Clone, Copy)]
pub struct FixedInputs {
    pub mask: u32,
    pub values: u32,
}

impl FixedInputs {
    // Whether the row has the values at the inputs of the mask.
    #[tactic(auto, unfolding(crate::specs::Readings::agrees))]
    fn agrees(self, row: u32) -> bool
        ensures { result ≡ agrees self.mask self.values row }
    {
        row & self.mask == self.values
    }
}

// The sum of the rows that agree with the fixed inputs.
fn sum_of(rows: &[i32], fixed: FixedInputs) -> i32
    requires rows_len_bound { length rows.now ≤ 2048 }
    requires within { Within 1000 rows.now }
    ensures { result ≡ whole_sum fixed.mask fixed.values rows.now }
{
    let mut sum = 0;
    for (row, value) in rows.iter().enumerate() {
        if fixed.agrees(row as u32) {
            sum += *value;
        }
    }
    sum
}

// How many of the first `rows` rows agree.
fn count_of(rows: u32, fixed: FixedInputs) -> u32
    ensures { result ≡ count_of fixed.mask fixed.values rows }
{
    let mut count = 0;
    for row in 0..rows {
        if fixed.agrees(row) {
            count += 1;
        }
    }
    count
}

// One division, for every sum and count.
#[tactic(auto, unfolding(crate::specs::Readings::quotient))]
fn fraction(sum: i32, count: u32) -> f64
    ensures { result ≡ quotient sum count }
{
    (sum as f64) / (count as f64)
}

// The mean of the rows that agree: their sum by their count.
#[tactic(auto, unfolding(crate::specs::Readings::mean_of))]
pub fn mean(rows: &[i32], fixed: FixedInputs) -> f64
    requires rows_len_bound { length rows.now ≤ 2048 }
    requires within { Within 1000 rows.now }
    ensures { result ≡ mean_of fixed.mask fixed.values rows.now }
{
    let count = count_of(rows.len() as u32, fixed);
    fraction(sum_of(rows, fixed), count)
}

// The value as a case: constrained where inputs are fixed, else a weighted sum or a plain syndrome.
#[tactic(auto, unfolding(crate::specs::Readings::case_of))]
pub fn case_of(value: f64, mask: u32, weighted: bool) -> Reading
    ensures { read_as result ≡ case_of weighted mask value }
{
    if mask != 0 {
        Reading::Constrained(value, u32::count_ones(mask))
    } else if weighted {
        Reading::Weighted(value)
    } else {
        Reading::Syndrome(value)
    }
}

#[tactic(auto, unfolding(crate::specs::Readings::pair_of))]
pub fn pair_of(sound: f64, faulty: f64) -> ReadingPair
    ensures { result ≡ pair_of sound faulty }
{
    ReadingPair {
        sound,
        faulty,
        difference: sound - faulty,
    }
}
