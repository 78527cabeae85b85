// Lines of one kind, one after the other, and the kind of fault lines. The definitions and laws beside them are over lines of any kind too.
#![tactic(auto)]

ghost use Rattle.std.specs.Prelude.{◌≡◌, ◌+◌, ◌≤◌, ℕ, List, [], length, MatchResult};
ghost use Rattle.refusals.specs.Refusals.{Says, told};
ghost use Rattle.text.specs.Text.{text_bytes};
ghost use Rattle.statements.specs.Lines.{fault_line_of};
ghost use Rattle.sections.specs.FaultLines.{nth_fault_refusal, fault_numbered};
ghost use Rattle.sections.specs.Sections.{items, line_refused, lines_of, FirstLine, NoLine};

use refusals::{Flaw, Refusal};
use statements::Fault;

/// A kind of line, and what its lines say.
pub trait LineKind {
    type Item: Copy;

    /// By which number a line is refused, from how many of its kind stand before it.
    ghost refusal: { Self → ℕ → List ℕ → ℕ };

    ghost item: { Self → List ℕ → Self.Item };

    fn read(&self, before: usize, line: &[u8]) -> Result<Self::Item, Flaw>
        requires { before ≤ text_bytes }
        ensures { Says result (refusal self.now before line.now) (item self.now line.now) };
}

/// The first line, without its end, and what stands after it; it is line `place` of the text.
pub fn first_line(text: &[u8], place: usize) -> Result<(&[u8], &[u8]), Refusal>
    ensures { MatchResult result (λ r. FirstLine text.now r.0.now r.1.now) (λ e. NoLine text.now place e) }
{
    let end = text::find(text, 0, b'\n');
    if text.len() <= end {
        return Err(Refusal::Line {
            flaw: Flaw::Malformed,
            line: place,
        });
    }
    Ok((&text[..end], &text[end + 1..]))
}

/// As many lines as there are items, the first of which is line `place` of the text; and what stands after them.
pub fn read_lines<'a, K: LineKind>(
    kind: &K,
    text: &'a [u8],
    place: usize,
    out: &mut [K::Item],
) -> Result<&'a [u8], Refusal>
    requires { length out.old + place ≤ text_bytes }
    ensures { told (λ rest. items out.new rest.now) line_refused result ≡ lines_of (K.refusal kind.now) (K.item kind.now) (length out.old) place text.now [] }
{
    let mut rest = text;
    for (j, item) in out.iter_mut().enumerate() {
        let (line, after) = first_line(rest, place + j)?;
        *item = kind.read(j, line).map_err(|flaw| Refusal::Line {
            flaw,
            line: place + j,
        })?;
        rest = after;
    }
    Ok(rest)
}

/// The fault lines of a text of so many inputs whose last line that may be stuck is `top`.
#[derive(Clone, Copy)]
pub struct FaultLines {
    pub inputs: usize,
    pub top: usize,
}

impl LineKind for FaultLines {
    type Item = Fault;

    ghost refusal = { λ k. nth_fault_refusal k.inputs k.top };

    ghost item = { λ k. fault_line_of };

    fn read(&self, _before: usize, line: &[u8]) -> Result<Fault, Flaw> {
        statements::fault_or_bridge(self.inputs, self.top, line)
    }
}

/// Fault `number`, from 1, and the fault that names no line for 0, as document 01 numbers them.
pub fn fault_at(faults: &[Fault], number: usize) -> Fault
    requires { number ≤ length faults.now }
    ensures { result ≡ fault_numbered faults.now number }
{
    match number.checked_sub(1) {
        None => Fault::SOUND,
        Some(k) => faults[k],
    }
}
