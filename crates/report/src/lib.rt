// The report: the plan with its sound coefficients, and for each fault what the fixture counts under it.
#![tactic(auto)]

ghost use Rattle.std.specs.Prelude.{◌≡◌, ◌≤◌, ◌<◌, ◌^◌, length};
ghost use Rattle.integer.specs.ListTests.{Below};
ghost use Rattle.planner.specs.PlanCall.{working_numbers, plan_verdict, WorkKept};
ghost use Rattle.writing.specs.Writing.{placed};
ghost use Rattle.report_lines.specs.ReportLines.{report_bytes, plan_lines};
ghost use Rattle.report.specs.ReportCall.{report_of, report_answer, report_left, report_verdict, reported_as};
ghost use Rattle.devices.specs.Forms.{problem_of};

use devices::Device;
use planner::WORKING_NUMBERS;
use refusals::Refusal;

/// Every report has at most so many bytes.
pub const REPORT_BYTES: usize = 1024;

// All lines of a plan, from the front on, as `writing` does it.
fn plan_lines(d: &Device, labels: &[u32], out: &mut [u8]) -> usize
    requires labels_low { Below (2 ^ (problem_of d.now).inputs) labels.now × (length labels.now ≤ 4) }
    requires report_bytes_in_bounds { report_bytes ≤ length out.old }
    ensures value { result ≡ length (plan_lines (problem_of d.now).sound (problem_of d.now).faulted labels.now) }
    ensures out_after { out.new ≡ placed 0 (plan_lines (problem_of d.now).sound (problem_of d.now).faulted labels.now) out.old }
{
    let due: usize = 1 << d.inputs();
    let mut space = [0i32; 256];
    let sound = &mut space[..due];
    // It has room, so it is Ok.
    let _ = circuit::fault_spectrum(d, 0, sound);
    let at = writing::put_line(out, 0, b"plan", &[labels.len() as i32]);
    let labels_end = report_lines::label_lines(out, at, labels, sound);
    let mut faulted = [0i32; 256];
    report_lines::fault_lines(d, labels, sound, &mut faulted[..due], out, labels_end)
}

// The lines of an accepted text, those of its plan or its refusal; or of the refusal of another text.
fn text_lines(text: &[u8], out: &mut [u8], work: &mut [u32]) -> usize
    requires { (report_bytes ≤ length out.old) × (working_numbers ≤ length work.old) }
    ensures value { result ≡ length (report_of text.now) }
    ensures out_after { out.new ≡ placed 0 (report_of text.now) out.old }
    ensures work_kept { WorkKept (plan_verdict text.now (length work.old)) work.old work.new }
{
    let d = match devices::describe(text) {
        Ok(d) => d,
        Err(refusal) => return report_lines::refused_line(out, refusal),
    };
    match planner::plan_device(&d, work) {
        Ok(set) => plan_lines(&d, set.labels(), out),
        Err(refusal) => report_lines::refused_line(out, refusal),
    }
}

/// The report on a text, at the front of `out`, and how many bytes it has; 8 before all else unless there are 1,024 bytes and 4,608 working numbers.
pub fn report(text: &[u8], out: &mut [u8], work: &mut [u32]) -> Result<usize, Refusal>
    ensures value { reported_as result ≡ report_answer text.now (length out.old) (length work.old) }
    ensures out_after { out.new ≡ report_left text.now (length work.old) out.old }
    ensures work_kept { WorkKept (report_verdict text.now (length out.old) (length work.old)) work.old work.new }
{
    if out.len() < REPORT_BYTES || work.len() < WORKING_NUMBERS {
        return Err(Refusal::ShortBuffer);
    }
    Ok(text_lines(text, out, work))
}
