// The fields of a line: its word, its numbers, and the tests that lines of every kind share. What a line says is the business of other crates.
#![tactic(auto)]

ghost use Rattle.std.specs.Prelude.{◌≡◌, ◌-◌, ◌≤◌};
ghost use Rattle.fields.specs.Fields.{value_at, signed_value_at, numbers_from, is_line, in_range, unless};

// The number in field k, at most 9,999; 0 where there is none. No Option, which would be no plainer: the definition is total, and callers ask first whether
// the fields are numbers.
#[tactic(auto, using(crate::proofs::LineTests::values), unfolding(crate::specs::Fields::value_at))]
pub fn value_at(line: &[u8], k: usize) -> u16
    ensures { (result ≡ value_at line.now k) × (result ≤ 9999) }
{
    text::decimal(text::field(line, k)).unwrap_or(0)
}

// The number in field k where it may have a sign; 0 where there is none.
#[tactic(auto, unfolding(crate::specs::Fields::signed_value_at))]
pub fn signed_value_at(line: &[u8], k: usize) -> i16
    ensures { result ≡ signed_value_at line.now k }
{
    text::signed_decimal(text::field(line, k)).unwrap_or(0)
}

// Whether the fields from `from` on, those before `to`, are numbers.
pub fn numbers(line: &[u8], from: usize, to: usize) -> bool
    ensures { result ≡ numbers_from line.now from (to - from) }
{
    (from..to).all(|k| text::decimal(text::field(line, k)).is_some())
}

// Whether it is a line of that word with so many fields, numbers from field `from` on.
#[tactic(auto, unfolding(crate::specs::Fields::is_line))]
pub fn is_line(line: &[u8], word: &[u8], from: usize, fields: usize) -> bool
    ensures { result ≡ is_line line.now word.now from fields }
{
    text::fields(line) == fields
        && text::same(text::field(line, 0), word)
        && numbers(line, from, fields)
}

#[tactic(auto, unfolding(crate::specs::Fields::in_range))]
pub fn in_range(v: u16, low: u16, high: u16) -> bool
    ensures { result ≡ in_range v low high }
{
    (low..=high).contains(&v)
}

// The number of a test that fails, else what comes next: a line's tests are a chain of these for a caller with refusals of its own. The lines here use
// `Flaw::unless`.
#[tactic(auto, unfolding(crate::specs::Fields::unless))]
pub fn number_unless(passed: bool, number: u32, next: u32) -> u32
    ensures { result ≡ unless passed number next }
{
    if passed { next } else { number }
}
