// The circuit call of document 01: the spectrum of what a text describes, a circuit or a table, sound or under one of its faults.
#![tactic(auto)]

ghost use Rattle.std.specs.Prelude.{◌≡◌, ◌^◌, ◌≤◌, length};
ghost use Rattle.devices.specs.Forms.{problem_of};
ghost use Rattle.devices.specs.Problems.{rows_at};
ghost use Rattle.results.specs.Results.{leaves};
ghost use Rattle.transform.specs.Spectrum.{spectrum_of};
ghost use Rattle.screen.specs.Answers.{answer_of};
ghost use Rattle.circuit.specs.CircuitCall.{room_answer, circuit_answer, circuit_spectrum};

use devices::Device;
use refusals::Refusal;

/// The spectrum of the rows under a fault, written to the front of `out`; or 8.
pub fn fault_spectrum(d: &Device, fault: usize, out: &mut [i32]) -> Result<(), Refusal>
    requires { fault ≤ length (problem_of d.now).faulted }
    ensures value { answer_of result ≡ room_answer (problem_of d.now).inputs (length out.old) }
    ensures out_after { out.new ≡ leaves (answer_of result) (spectrum_of (rows_at (problem_of d.now) fault)) out.old }
{
    let due: usize = 1 << d.inputs();
    let mut space = [0i32; 256];
    let rows = &mut space[..due];
    d.rows(fault, rows);
    walsh::spectrum(rows, out)
}

/// The spectrum of what the text describes under fault `fault`, from 1, or sound for 0, written to the front of `out`; or the text's refusal, 12, 8.
pub fn circuit_spectrum(text: &[u8], fault: u32, out: &mut [i32]) -> Result<(), Refusal>
    ensures value { answer_of result ≡ circuit_answer text.now fault (length out.old) }
    ensures out_after { out.new ≡ leaves (answer_of result) (circuit_spectrum text.now fault) out.old }
{
    let d = devices::describe(text)?;
    let which = fault as usize;
    if d.faults() < which {
        return Err(Refusal::WrongArgument);
    }
    fault_spectrum(&d, which, out)
}
