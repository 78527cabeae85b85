// A list of 32-bit numbers to working numbers of 64 bits, and these to the lent result: copied, or divided with refusal 11. The calls that work
// on them are other crates'; what they ask for is a `requires`, and none of these functions is a call of the papers.
// The loops that write are no `zip` with `iter_mut()`: of what that writes a proof learns nothing.
#![tactic(auto)]

ghost use Rattle.std.specs.Prelude.{◌≡◌, ◌+◌, ◌≤◌, nat_abs, length};
ghost use Rattle.std.specs.List.{position};
ghost use Rattle.integer.specs.Tab.{Within};
ghost use Rattle.screen.specs.Answers.{answer_of};
ghost use Rattle.results.specs.Results.{leaves, written};
ghost use Rattle.results.specs.Quotients.{unfit, quotients_of, divided_answer};

use refusals::Refusal;

/// Copies `list` to `work`.
pub fn widen(list: &[i32], work: &mut [i64])
    requires { length work.old ≡ length list.now }
    ensures { work.new ≡ list.now }
{
    for (i, &z) in list.iter().enumerate() {
        work[i] = i64::from(z);
    }
}

/// Copies `work` to the front of `out`.
pub fn narrow(work: &[i64], out: &mut [i32])
    requires work_in_bounds { length work.now ≤ length out.old }
    requires within { Within 2147483647 work.now }
    ensures { out.new ≡ written work.now out.old }
{
    for (i, &z) in work.iter().enumerate() {
        // Each fits, so `try_from` would answer an `Err` that cannot come.
        out[i] = z as i32;
    }
}

// A number from 1 to 2,048 that sums are divided by.
#[derive(Clone, Copy)]
struct Divisor {
    number: usize,
    ghost in_range: { (1 ≤ number) × (number ≤ 2048) },
}

impl Divisor {
    // Whether the sum does not divide, or its quotient is not from low to high.
    fn is_unfit(self, sum: i64, low: i64, high: i64) -> bool
        ensures { result ≡ unfit self.number low high sum }
    {
        let d = self.number as i64;
        if sum % d != 0 {
            return true;
        }
        let quotient = sum / d;
        (quotient < low) | (high < quotient)
    }

    fn first_unfit(self, sums: &[i64], low: i64, high: i64) -> Option<usize>
        ensures { result ≡ position (unfit self.number low high) sums.now }
    {
        sums.iter().position(|&sum| self.is_unfit(sum, low, high))
    }

    // Writes the quotients of the sums to the front of `out`.
    fn divide(self, sums: &[i64], out: &mut [i32])
        requires sums_in_bounds { length sums.now ≤ length out.old }
        requires within { Within 2147483647 (quotients_of self.number sums.now) }
        ensures { out.new ≡ written (quotients_of self.number sums.now) out.old }
    {
        let d = self.number as i64;
        for (i, &sum) in sums.iter().enumerate() {
            out[i] = (sum / d) as i32;
        }
    }
}

/// The quotients of the sums to the front of `out`; or 11 at the first sum that does not divide or whose quotient is not from low to high.
#[tactic(auto, using(crate::proofs::Quotients::divided_is), unfolding(crate::specs::Quotients::divided_answer))]
pub fn divided(
    sums: &[i64],
    divisor: usize,
    low: i64,
    high: i64,
    out: &mut [i32],
) -> Result<(), Refusal>
    requires le_divisor { (1 ≤ divisor) × (divisor ≤ 2048) }
    requires high_bound { nat_abs low + nat_abs high ≤ 2147483647 }
    requires sums_in_bounds { length sums.now ≤ length out.old }
    ensures value { answer_of result ≡ divided_answer divisor low high sums.now }
    ensures out_after { out.new ≡ leaves (answer_of result) (quotients_of divisor sums.now) out.old }
{
    let by = Divisor { number: divisor };
    if let Some(index) = by.first_unfit(sums, low, high) {
        return Err(Refusal::Indivisible { index });
    }
    by.divide(sums, out);
    Ok(())
}
