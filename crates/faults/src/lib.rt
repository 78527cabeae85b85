// The spectrum under a fault, from coefficients alone: stuck inputs, and opened lines. As in `walsh` the calls have no `requires` and refuse what
// they cannot take.
#![tactic(auto)]

ghost use Rattle.std.specs.Prelude.{◌≡◌, true, leb, IfOk, ◌+◌, ◌^◌, ◌≤◌, ◌<◌, ◌+ℤ◌, nat_abs, length};
ghost use Rattle.std.specs.List.{list_all};
ghost use Rattle.integer.specs.Sum.{signed};
ghost use Rattle.integer.specs.Tab.{Within};
ghost use Rattle.results.specs.Results.{leaves, written};
ghost use Rattle.screen.specs.Answers.{inputs_of, answer_of};
ghost use Rattle.faults.specs.Faults.{stuck_of, stuck_spectrum_of, rising_inputs, stuck_right, stuck_answer, opened_answer, opened_spectrum_of, undivided_answer};
ghost use Rattle.faults.specs.Steps.{Kept, kept_answer, stuck_once};

use refusals::Refusal;

// x + y, or x - y where the value is not 0.
fn joined(x: i64, y: i64, value: u32) -> i64
    requires { nat_abs x + nat_abs y < 2 ^ 63 }
    ensures { result ≡ x +ℤ signed value y }
{
    if value == 0 { x + y } else { x - y }
}

// One input stuck: each label that names it gets 0, every other its coefficient joined with the one that adds the input. Upwards in place:
// the coefficients read at a label are those at it and above it, which are still as they came. The index stays: by halves of chunks it would write
// through a `zip`, of which a proof learns nothing.
fn stick(a: &mut [i64], input: u32, value: u32)
    requires le_input { (1 ≤ input) × (input ≤ inputs_of (length a.old)) }
    requires within { Within 16384000 a.old }
    ensures { a.new ≡ stuck_once input value a.old }
{
    let shift = input - 1;
    let bit: usize = 1 << shift;
    for i in 0..a.len() {
        if (i >> shift) % 2 == 0 {
            a[i] = joined(a[i], a[i + bit], value);
        } else {
            a[i] = 0;
        }
    }
}

// All the lines stuck, the last first. Lines and values are two slices, as the C interface lends them. By index: of a `zip` under `rev` a proof does not
// learn which pair comes next.
fn stick_all(a: &mut [i64], lines: &[u32], values: &[u32])
    requires lines_len_bound { (length lines.now ≤ 3) × (length values.now ≡ length lines.now) }
    requires lines_value { rising_inputs 0 (inputs_of (length a.old)) lines.now ≡ true }
    requires within { Within 2048000 a.old }
    ensures { a.new ≡ stuck_spectrum_of (stuck_of lines.now values.now) a.old }
{
    for i in (0..lines.len()).rev() {
        stick(a, lines[i], values[i]);
    }
}

// Whether the lines rise from 1 or more to n or less.
#[tactic(auto, using(crate::proofs::Arguments::rising_turns))]
fn rises(lines: &[u32], n: u32) -> bool
    ensures { result ≡ rising_inputs 0 n lines.now }
{
    let mut last = 0;
    for &line in lines {
        if line <= last || n < line {
            return false;
        }
        last = line;
    }
    true
}

// Whether each value is 0 or 1.
fn is_binary(values: &[u32]) -> bool
    ensures { result ≡ list_all (λ value. leb value 1) values.now }
{
    values.iter().all(|&value| value <= 1)
}

// Whether there are one to three rising inputs of a list of n numbers, and as many values 0 or 1.
#[tactic(auto, using(crate::proofs::Arguments::stuck_tests), unfolding(crate::specs::Faults::stuck_right, crate::specs::Faults::few_of))]
fn stuck_right(n: usize, inputs: &[u32], values: &[u32]) -> bool
    ensures { result ≡ stuck_right (inputs_of n) inputs.now values.now }
{
    let Some(last) = screen::inputs_of(n) else {
        return false;
    };
    matches!(inputs.len(), 1..=3)
        && values.len() == inputs.len()
        && is_binary(values)
        && rises(inputs, last)
}

/// The spectrum with one to three inputs stuck, written to the front of `out`; or 9, 12, 10, 8.
#[tactic(auto, unfolding(crate::specs::Faults::stuck_answer))]
pub fn stuck(
    coefficients: &[i32],
    inputs: &[u32],
    values: &[u32],
    out: &mut [i32],
) -> Result<(), Refusal>
    ensures value { answer_of result ≡ stuck_answer coefficients.now inputs.now values.now (length out.old) }
    ensures out_after { out.new ≡ leaves (answer_of result) (stuck_spectrum_of (stuck_of inputs.now values.now) coefficients.now) out.old }
{
    let n = coefficients.len();
    let right = stuck_right(n, inputs, values);
    screen::screen(coefficients, -2048000, 2048000, right, out.len(), n)?;
    let mut buffer = [0i64; 2048];
    let work = &mut buffer[..n];
    results::widen(coefficients, work);
    stick_all(work, inputs, values);
    results::narrow(work, out);
    Ok(())
}

// How many inputs are kept where the last k of a list of n numbers are opened; or 9, 12 unless k is 1 to 3, an input is left and each value is 0 or 1.
#[tactic(auto, using(crate::proofs::Arguments::opened_tests), unfolding(crate::specs::Faults::opened_right, crate::specs::Faults::few_of))]
fn kept_inputs(n: usize, values: &[u32]) -> Result<u32, Refusal>
    ensures value { answer_of result ≡ kept_answer (inputs_of n) values.now }
    ensures kept { IfOk result (Kept (inputs_of n) values.now) }
{
    let inputs = screen::inputs_of(n).ok_or(Refusal::WrongLength)?;
    let k = values.len();
    if matches!(k, 1..=3) && k < inputs as usize && is_binary(values) {
        Ok(inputs - k as u32)
    } else {
        Err(Refusal::WrongArgument)
    }
}

// The spectrum of `opened` after its tests, by way of working numbers that are lent.
fn opened_by(
    coefficients: &[i32],
    values: &[u32],
    kept: u32,
    work: &mut [i64],
    out: &mut [i32],
) -> Result<(), Refusal>
    requires kept { Kept (inputs_of (length coefficients.now)) values.now kept }
    requires within { Within 2048000 coefficients.now }
    requires work_len { (length work.old ≡ length coefficients.now) × (2 ^ kept ≤ length out.old) }
    ensures value { answer_of result ≡ undivided_answer coefficients.now values.now }
    ensures out_after { out.new ≡ leaves (answer_of result) (opened_spectrum_of coefficients.now values.now) out.old }
{
    results::widen(coefficients, work);
    let lines = [kept + 1, kept + 2, kept + 3];
    let k = values.len();
    stick_all(work, &lines[..k], values);
    let due: usize = 1 << kept;
    let divisor: usize = 1 << k;
    results::divided(&work[..due], divisor, -2048000, 2048000, out)
}

/// The spectrum of the n inputs with the last k lines, 1 to 3, opened and set to the values, written to the front of `out`; or 9, 12, 10, 8, 11.
#[tactic(auto, unfolding(crate::specs::Faults::opened_answer))]
pub fn opened(coefficients: &[i32], values: &[u32], out: &mut [i32]) -> Result<(), Refusal>
    ensures value { answer_of result ≡ opened_answer coefficients.now values.now (length out.old) }
    ensures out_after { out.new ≡ leaves (answer_of result) (opened_spectrum_of coefficients.now values.now) out.old }
{
    let n = coefficients.len();
    let kept = kept_inputs(n, values)?;
    let due = 1 << kept;
    screen::screen(coefficients, -2048000, 2048000, true, out.len(), due)?;
    let mut buffer = [0i64; 2048];
    opened_by(coefficients, values, kept, &mut buffer[..n], out)
}
