// Holds the calls on a text for a plan, a report, a reading, a pair and a field to stored cases.
#![tactic(auto)]

use cases::lines;
use refusals::Refusal;
use replies::{Comparison, Measured, Signature};
use search::LabelSet;

// What stands in lent working numbers and in lent bytes before a call.
const NOISE: u32 = 0xA5A5_A5A5;

const BLANK: u8 = b'#';

// Whether all from `from` on are what they were.
fn is_kept<T: PartialEq + Copy>(lent: &[T], from: usize, before: T) -> bool {
    lent.iter().skip(from).all(|x| *x == before)
}

fn plan_numbers(plan: Result<LabelSet, Refusal>) -> [i32; 7] {
    let s = Signature::from(plan);
    [
        lines::narrow(s.number),
        lines::narrow(s.place),
        lines::narrow(s.size),
        lines::narrow(s.labels[0]),
        lines::narrow(s.labels[1]),
        lines::narrow(s.labels[2]),
        lines::narrow(s.labels[3]),
    ]
}

// How many working numbers may have changed: those of a plan, 13, 16 and 14.
fn free_of(plan: &Result<LabelSet, Refusal>) -> usize {
    match plan {
        Ok(_) | Err(Refusal::Silent { .. } | Refusal::Hidden { .. } | Refusal::NoSet) => {
            planner::WORKING_NUMBERS
        }
        Err(_) => 0,
    }
}

fn plan_by(text: &[u8], work: &mut [u32], due: &[u8]) -> bool {
    let plan = planner::plan(text, work);
    is_kept(work, free_of(&plan), NOISE) && lines::are_due(&plan_numbers(plan), due)
}

// The plan, with `lent` working numbers.
pub fn plan_holds(text: &[u8], lent: usize, due: &[u8]) -> bool {
    if 4700 < lent {
        return false;
    }
    let mut work = [NOISE; 4700];
    plan_by(text, &mut work[..lent], due)
}

// Whether the report is what is due, with the bytes after it as they were; where nothing is due nothing is written, with 8.
fn report_left(report: Result<usize, Refusal>, out: &[u8], due: &[u8]) -> bool {
    match report {
        Ok(bytes) => bytes == due.len() && out.starts_with(due) && is_kept(out, bytes, BLANK),
        Err(Refusal::ShortBuffer) => due.is_empty() && is_kept(out, 0, BLANK),
        Err(_) => false,
    }
}

// How many working numbers may have changed, by the report that is due.
fn free_by(due: &[u8]) -> usize {
    let refusal = text::field(due, 1);
    if text::same(text::field(due, 0), b"plan")
        || text::same(refusal, b"13")
        || text::same(refusal, b"16")
        || text::same(refusal, b"14")
    {
        planner::WORKING_NUMBERS
    } else {
        0
    }
}

fn report_by(text: &[u8], out: &mut [u8], work: &mut [u32], due: &[u8]) -> bool {
    let report = report::report(text, out, work);
    is_kept(work, free_by(due), NOISE) && report_left(report, out, due)
}

// The report, with `room` bytes and `lent` working numbers.
pub fn report_holds(text: &[u8], room: usize, lent: usize, due: &[u8]) -> bool {
    if 1100 < room {
        return false;
    }
    if 4700 < lent {
        return false;
    }
    let mut out = [BLANK; 1100];
    let mut work = [NOISE; 4700];
    report_by(text, &mut out[..room], &mut work[..lent], due)
}

// Whether the value is the sum by the count: a product with a power of two is exact.
fn is_fraction(value: f64, sum: i32, count: u32) -> bool {
    value * (count as f64) == (sum as f64)
}

// The answer has the reading's kind and number of fixed inputs, and the value is the sum by the count.
pub fn reading_holds(
    text: &[u8],
    mask: u32,
    values: u32,
    sum: i32,
    count: u32,
    due: &[u8],
) -> bool {
    let m = Measured::from(fixture::read(text, mask, values));
    let numbers = [
        lines::narrow(m.number),
        lines::narrow(m.place),
        lines::narrow(m.kind),
        lines::narrow(m.fixed),
    ];
    is_fraction(m.value, sum, count) && lines::are_due(&numbers, due)
}

// The sums are those of the sound reading, the faulty one and the difference.
pub fn pair_holds(
    text: &[u8],
    fault: u32,
    mask: u32,
    values: u32,
    sums: [i32; 3],
    count: u32,
    due: &[u8],
) -> bool {
    let c = Comparison::from(fixture::compare(text, fault, mask, values));
    let numbers = [lines::narrow(c.number), lines::narrow(c.place)];
    is_fraction(c.sound, sums[0], count)
        && is_fraction(c.faulty, sums[1], count)
        && is_fraction(c.difference, sums[2], count)
        && lines::are_due(&numbers, due)
}

// The field's bytes, where it starts and how long it is.
pub fn field_holds(text: &[u8], number: usize, start: usize, due: &[u8]) -> bool {
    let part = text::locate(text, number);
    part.start == start
        && start <= part.end
        && part.end - start == due.len()
        && text::same(text::field(text, number), due)
}
