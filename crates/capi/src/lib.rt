// The C functions: numbers and slices in (a slice as a pointer and a length), a struct of `replies` out. Each calls one function of the library and
// passes on what that answers and what it leaves in the lent buffers. `bash tools/build capi` writes them to a static library for C and Rust.
#![tactic(auto)]

ghost use Rattle.std.specs.Prelude.{◌≡◌, length};
ghost use Rattle.bridges.specs.Bridges.{bridged_answer, bridged_spectrum_of};
ghost use Rattle.faults.specs.Faults.{stuck_of, stuck_answer, stuck_spectrum_of, opened_answer, opened_spectrum_of};
ghost use Rattle.fixture.specs.ReadingCall.{reading_answer, pair_answer};
ghost use Rattle.circuit.specs.CircuitCall.{circuit_answer, circuit_spectrum};
ghost use Rattle.planner.specs.PlanCall.{plan_verdict, plan_answer, WorkKept};
ghost use Rattle.report.specs.ReportCall.{report_answer, report_left, report_verdict};
ghost use Rattle.text.specs.Text.{field_of, field_start};
ghost use Rattle.results.specs.Results.{leaves};
ghost use Rattle.walsh.specs.Coefficients.{found_of};
ghost use Rattle.walsh.specs.Lists.{spectrum_answer, rows_answer, inverse_rows};
ghost use Rattle.transform.specs.Spectrum.{spectrum_of};
ghost use Rattle.replies.specs.Replies.{Gives, GivesFound, GivesPlan, GivesReport, GivesReading, GivesPair};

use replies::{Comparison, Measured, Part, Reply, Signature, Sum, Written};

// The coefficient of the rows at a label.
#[unsafe(no_mangle)]
pub extern "C" fn walsh_coefficient(rows: &[i32], label: u32) -> Sum
    ensures { GivesFound result (found_of rows.now label) }
{
    Sum::from(walsh::coefficient(rows, label))
}

// Rows to their spectrum.
#[unsafe(no_mangle)]
pub extern "C" fn walsh_spectrum(rows: &[i32], out: &mut [i32]) -> Reply
    ensures gives { Gives result (spectrum_answer rows.now (length out.old)) }
    ensures out_after { out.new ≡ leaves (spectrum_answer rows.now (length out.old)) (spectrum_of rows.now) out.old }
{
    Reply::from(walsh::spectrum(rows, out))
}

// A spectrum to its rows.
#[unsafe(no_mangle)]
pub extern "C" fn walsh_rows(coefficients: &[i32], out: &mut [i32]) -> Reply
    ensures gives { Gives result (rows_answer coefficients.now (length out.old)) }
    ensures out_after { out.new ≡ leaves (rows_answer coefficients.now (length out.old)) (inverse_rows coefficients.now) out.old }
{
    Reply::from(walsh::rows(coefficients, out))
}

// The spectrum with one to three inputs stuck.
#[unsafe(no_mangle)]
pub extern "C" fn walsh_stuck(
    coefficients: &[i32],
    inputs: &[u32],
    values: &[u32],
    out: &mut [i32],
) -> Reply
    ensures gives { Gives result (stuck_answer coefficients.now inputs.now values.now (length out.old)) }
    ensures out_after { out.new ≡ leaves (stuck_answer coefficients.now inputs.now values.now (length out.old)) (stuck_spectrum_of (stuck_of inputs.now values.now) coefficients.now) out.old }
{
    Reply::from(faults::stuck(coefficients, inputs, values, out))
}

// The spectrum with the last one to three lines opened.
#[unsafe(no_mangle)]
pub extern "C" fn walsh_opened(coefficients: &[i32], values: &[u32], out: &mut [i32]) -> Reply
    ensures gives { Gives result (opened_answer coefficients.now values.now (length out.old)) }
    ensures out_after { out.new ≡ leaves (opened_answer coefficients.now values.now (length out.old)) (opened_spectrum_of coefficients.now values.now) out.old }
{
    Reply::from(faults::opened(coefficients, values, out))
}

// The spectrum with two inputs bridged.
#[unsafe(no_mangle)]
pub extern "C" fn walsh_bridged(
    coefficients: &[i32],
    first: u32,
    second: u32,
    out: &mut [i32],
) -> Reply
    ensures gives { Gives result (bridged_answer coefficients.now first second (length out.old)) }
    ensures out_after { out.new ≡ leaves (bridged_answer coefficients.now first second (length out.old)) (bridged_spectrum_of first second coefficients.now) out.old }
{
    Reply::from(bridges::bridged(coefficients, first, second, out))
}

// The spectrum of the text's circuit, sound for fault 0, else under that fault.
#[unsafe(no_mangle)]
pub extern "C" fn walsh_circuit(text: &[u8], fault: u32, out: &mut [i32]) -> Reply
    ensures gives { Gives result (circuit_answer text.now fault (length out.old)) }
    ensures out_after { out.new ≡ leaves (circuit_answer text.now fault (length out.old)) (circuit_spectrum text.now fault) out.old }
{
    Reply::from(circuit::circuit_spectrum(text, fault, out))
}

// The plan of the text's circuit.
#[unsafe(no_mangle)]
pub extern "C" fn walsh_plan(text: &[u8], work: &mut [u32]) -> Signature
    ensures gives_plan { GivesPlan result (plan_answer text.now (length work.old)) }
    ensures work_kept { WorkKept (plan_verdict text.now (length work.old)) work.old work.new }
{
    Signature::from(planner::plan(text, work))
}

// The report on the text, at the front of `out`.
#[unsafe(no_mangle)]
pub extern "C" fn walsh_report(text: &[u8], out: &mut [u8], work: &mut [u32]) -> Written
    ensures gives_report { GivesReport result (report_answer text.now (length out.old) (length work.old)) }
    ensures out_after { out.new ≡ report_left text.now (length work.old) out.old }
    ensures work_kept { WorkKept (report_verdict text.now (length out.old) (length work.old)) work.old work.new }
{
    Written::from(report::report(text, out, work))
}

// The reading of the text's circuit with the inputs of the mask at the values.
#[unsafe(no_mangle)]
pub extern "C" fn walsh_reading(text: &[u8], mask: u32, values: u32) -> Measured
    ensures { GivesReading result (reading_answer text.now mask values) }
{
    Measured::from(fixture::read(text, mask, values))
}

// The readings of the text's circuit sound and under a fault, and sound minus faulty.
#[unsafe(no_mangle)]
pub extern "C" fn walsh_pair(text: &[u8], fault: u32, mask: u32, values: u32) -> Comparison
    ensures { GivesPair result (pair_answer text.now fault mask values) }
{
    Comparison::from(fixture::compare(text, fault, mask, values))
}

// Field `number` of the text, from 0; at the text's end where there is none.
#[unsafe(no_mangle)]
pub extern "C" fn walsh_field(text: &[u8], number: usize) -> Part
    ensures { (result.start ≡ field_start text.now number) × (result.length ≡ length (field_of text.now number)) }
{
    replies::to_part(text::locate(text, number))
}
