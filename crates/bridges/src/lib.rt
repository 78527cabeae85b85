// The spectrum under a bridge of two inputs, from coefficients alone. As in `faults` the call has no `requires` and refuses what it cannot take.
#![tactic(auto)]

ghost use Rattle.std.specs.Prelude.{◌≡◌, ◌-◌, ◌^◌, ◌≤◌, ◌<◌, length, MatchOption};
ghost use Rattle.integer.specs.Tab.{Within, nth};
ghost use Rattle.results.specs.Results.{leaves, written};
ghost use Rattle.screen.specs.Answers.{answer_of, inputs_of};
ghost use Rattle.bridges.specs.BridgeArguments.{BridgeArguments};
ghost use Rattle.bridges.specs.Bridges.{pair_sum, bridged_at, bridged_spectrum_of, first_unhalved, bridge_right, bridged_answer};

use refusals::Refusal;

// Whether the first input is below the second and both are inputs of a list of n numbers.
#[tactic(auto, using(crate::proofs::UnhalvedLabels::right_is), unfolding(crate::specs::Bridges::bridge_right))]
fn bridge_right(n: usize, first: u32, second: u32) -> bool
    ensures { result ≡ bridge_right (inputs_of n) first second }
{
    let Some(inputs) = screen::inputs_of(n) else {
        return false;
    };
    (0 < first) & (first < second) & (second <= inputs)
}

// Coefficients and two of their inputs, the first below the second.
#[derive(Clone, Copy)]
struct BridgedInputs<'a> {
    coefficients: &'a [i32],
    first: u32,
    second: u32,
    ghost inputs: { BridgeArguments (inputs_of (length coefficients.now)) first second },
    ghost within: { Within 2048000 coefficients.now },
}

impl BridgedInputs<'_> {
    // What each of the inputs adds to a label that does not name it.
    fn bits(&self) -> (usize, usize)
        ensures { (result.0 ≡ 2 ^ (self.now.first - 1)) × (result.1 ≡ 2 ^ (self.now.second - 1)) }
    {
        (1 << (self.first - 1), 1 << (self.second - 1))
    }

    // The coefficient with only the first input and the one with only the second, added up.
    #[tactic(auto, using(crate::proofs::BridgeSteps::places))]
    fn pair_sum(&self, label: usize) -> i32
        requires { label < length self.now.coefficients.now }
        ensures { result ≡ pair_sum self.now.first self.now.second (nth self.now.coefficients.now) label }
    {
        let (i, j) = self.bits();
        let base = label - ((label & i) + (label & j));
        self.coefficients[base + i] + self.coefficients[base + j]
    }

    // The first label whose half is not whole. A loop: by `find` over the labels, which proves too, the call is slower, by 2.5 % of
    // its instructions.
    fn first_unhalved(&self) -> Option<usize>
        ensures { MatchOption result (length self.now.coefficients.now ≤ first_unhalved self.now.first self.now.second self.now.coefficients.now)
            (λ label. (label ≡ first_unhalved self.now.first self.now.second self.now.coefficients.now) × (label < length self.now.coefficients.now)) }
    {
        for label in 0..self.coefficients.len() {
            if self.pair_sum(label) % 2 != 0 {
                return Some(label);
            }
        }
        None
    }

    // The coefficient under the bridge.
    #[tactic(auto, using(crate::proofs::BridgeSteps::places))]
    fn bridged_at(&self, label: usize) -> i32
        requires { label < length self.now.coefficients.now }
        ensures { result ≡ bridged_at self.now.first self.now.second (nth self.now.coefficients.now) label }
    {
        let (i, j) = self.bits();
        let has = (label & i) + (label & j);
        let half = self.pair_sum(label) / 2;
        if has == 0 {
            return self.coefficients[label] + half + self.coefficients[label + i + j];
        }
        if has == i + j {
            return 0 - half;
        }
        half
    }

    // Writes the coefficients under the bridge to the front of `out`.
    fn bridge(&self, out: &mut [i32])
        requires { length self.now.coefficients.now ≤ length out.old }
        ensures { out.new ≡ written (bridged_spectrum_of self.now.first self.now.second self.now.coefficients.now) out.old }
    {
        for label in 0..self.coefficients.len() {
            out[label] = self.bridged_at(label);
        }
    }
}

/// The spectrum with the two inputs bridged, written to the front of `out`; or 9, 12, 10, 8, 11.
#[tactic(auto, using(crate::proofs::UnhalvedLabels::bridged_is), unfolding(crate::specs::Bridges::bridged_answer, crate::specs::Bridges::unhalved_answer))]
pub fn bridged(
    coefficients: &[i32],
    first: u32,
    second: u32,
    out: &mut [i32],
) -> Result<(), Refusal>
    ensures value { answer_of result ≡ bridged_answer coefficients.now first second (length out.old) }
    ensures out_after { out.new ≡ leaves (answer_of result) (bridged_spectrum_of first second coefficients.now) out.old }
{
    let n = coefficients.len();
    let right = bridge_right(n, first, second);
    screen::screen(coefficients, -2048000, 2048000, right, out.len(), n)?;
    let inputs = BridgedInputs {
        coefficients,
        first,
        second,
    };
    if let Some(index) = inputs.first_unhalved() {
        return Err(Refusal::Indivisible { index });
    }
    inputs.bridge(out);
    Ok(())
}
