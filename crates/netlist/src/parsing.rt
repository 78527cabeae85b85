// The circuit text, line by line.
ghost use Rattle.std.specs.Prelude.{◌≡◌, ◌≤◌};
ghost use Rattle.statements.specs.Lines.{output_of};
ghost use Rattle.gate_lines.specs.GateLines.{gate_of};
ghost use Rattle.netlist.specs.Heads.{HeadRight};
ghost use Rattle.refusals.specs.Refusals.{told};
ghost use Rattle.netlist.specs.Parsing.{nth_gate_refusal, nth_output_refusal, accepted, rejected, body_of, parse_of};

use crate::Circuit;
use gate_lines::Gate;
use refusals::{Flaw, Refusal};
use sections::{FaultLines, LineKind};
use statements::{Fault, Head, Output};

// The gate lines of a circuit of so many inputs.
#[derive(Clone, Copy)]
struct GateLines {
    inputs: usize,
    ghost few: { inputs ≤ 8 },
}

impl LineKind for GateLines {
    type Item = Gate;

    ghost refusal = { λ k. nth_gate_refusal k.inputs };

    ghost item = { λ k. gate_of };

    fn read(&self, before: usize, line: &[u8]) -> Result<Gate, Flaw> {
        gate_lines::gate_line(self.inputs + before + 1, line)
    }
}

// The output lines of a circuit whose last line is `top`.
#[derive(Clone, Copy)]
struct OutputLines {
    top: usize,
}

impl LineKind for OutputLines {
    type Item = Output;

    ghost refusal = { λ k. nth_output_refusal k.top };

    ghost item = { λ k. output_of };

    fn read(&self, _before: usize, line: &[u8]) -> Result<Output, Flaw> {
        statements::output_line(self.top, line)
    }
}

// The lines after the first.
fn body(text: &[u8], head: Head) -> Result<Circuit, Refusal>
    requires { HeadRight head }
    ensures { told accepted rejected result ≡ body_of head text.now }
{
    let inputs = head.inputs;
    let top = inputs + head.gates;
    let mut gates = [Gate::NONE; 48];
    let after_gates = sections::read_lines(
        &GateLines { inputs },
        text,
        2,
        &mut gates[..head.gates],
    )?;
    let mut outputs = [Output::NONE; 4];
    let after_outputs = sections::read_lines(
        &OutputLines { top },
        after_gates,
        head.gates + 2,
        &mut outputs[..head.outputs],
    )?;
    let mut faults = [Fault::SOUND; 32];
    let rest = sections::read_lines(
        &FaultLines { inputs, top },
        after_outputs,
        head.gates + head.outputs + 2,
        &mut faults[..head.faults],
    )?;
    if !rest.is_empty() {
        return Err(Refusal::TextGoesOn {
            line: head.gates + head.outputs + head.faults + 2,
        });
    }
    Ok(Circuit {
        head,
        gates,
        outputs,
        faults,
    })
}

// The circuit that a text states, or why it is refused. The parser of tables begins alike; what both share is in `sections`, and one function for both would
// take the head, the body, their definitions and laws as parameters.
pub fn parse(text: &[u8]) -> Result<Circuit, Refusal>
    ensures { told accepted rejected result ≡ parse_of text.now }
{
    if text::TEXT_BYTES < text.len() {
        return Err(Refusal::TextTooLong);
    }
    let (line, rest) = sections::first_line(text, 1)?;
    let head = statements::head_line(line).map_err(|flaw| Refusal::Line { flaw, line: 1 })?;
    body(rest, head)
}
