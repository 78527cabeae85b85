// The plan: the shortest set of labels that shows every fault of a device.
ghost use Rattle.std.specs.Prelude.{◌≡◌, ◌^◌, ◌<◌, ◌≤◌, IsNone, MatchOption, length};
ghost use Rattle.cover.specs.Cover.{first_unchanged};
ghost use Rattle.cover.specs.Order.{labels_below};
ghost use Rattle.cover.specs.Steps.{masks_of};
ghost use Rattle.devices.specs.Forms.{problem_of};
ghost use Rattle.devices.specs.Problems.{Proper};
ghost use Rattle.planner.specs.PlanCall.{silent_first, verdict_of, working_numbers, plan_numbers, plan_verdict, plan_answer, planned_as, WorkKept};

use crate::WORKING_NUMBERS;
use devices::Device;
use refusals::Refusal;
use search::LabelSet;

// Marks each fault at the labels that cover it, up to the first that leaves every row as it was, whose index it gives. Rows and masks stay single
// arguments: a struct of them would be made here and taken apart in the next line. It is a `for`: `find` promises nothing of what its closure writes.
fn mark_faults(
    d: &Device,
    sound: &[i32],
    faulted: &mut [i32],
    labels: &[u32],
    masks: &mut [u32],
) -> Option<usize>
    requires lengths { (length faulted.old ≡ 2 ^ (problem_of d.now).inputs) × (length masks.old ≡ 2 ^ (problem_of d.now).inputs) }
    requires sound_value { (sound.now ≡ (problem_of d.now).sound) × (labels.now ≡ labels_below (2 ^ (problem_of d.now).inputs)) }
    ensures unchanged { MatchOption result (length (problem_of d.now).faulted ≤ first_unchanged (problem_of d.now).sound (problem_of d.now).faulted) (λ f. (f ≡ first_unchanged (problem_of d.now).sound (problem_of d.now).faulted) × (f < length (problem_of d.now).faulted)) }
    ensures marked { IsNone result → masks.new ≡ masks_of (problem_of d.now).sound (problem_of d.now).faulted (labels_below (2 ^ (problem_of d.now).inputs)) (length (problem_of d.now).faulted) }
{
    let inputs = d.inputs() as u32;
    cover::clear(masks);
    for f in 0..d.faults() {
        d.rows(f + 1, faulted);
        if cover::mark(sound, faulted, labels, inputs, f as u32, masks) {
            return Some(f);
        }
    }
    None
}

// The first silent fault, where the first that leaves every row as it was is `from`: those before it change a row, and so an output.
fn silent_from(d: &Device, from: usize, sound: &mut [i32], faulted: &mut [i32]) -> Option<usize>
    requires lengths { (length sound.old ≡ 2 ^ (problem_of d.now).inputs) × (length faulted.old ≡ 2 ^ (problem_of d.now).inputs) }
    requires first { (from ≡ first_unchanged (problem_of d.now).sound (problem_of d.now).faulted) × (from ≤ length (problem_of d.now).faulted) × Proper (problem_of d.now) }
    ensures { MatchOption result (length (problem_of d.now).faulted ≤ silent_first (problem_of d.now)) (λ f. (f ≡ silent_first (problem_of d.now)) × (f < length (problem_of d.now).faulted)) }
{
    d.outputs(0, sound);
    for f in from..d.faults() {
        d.outputs(f + 1, faulted);
        if cover::unchanged(sound, faulted) {
            return Some(f);
        }
    }
    None
}

// 13, 16, 14 or the plan, by way of rows and masks that are lent.
fn plan_by(
    d: &Device,
    sound: &mut [i32],
    faulted: &mut [i32],
    labels: &[u32],
    masks: &mut [u32],
) -> Result<LabelSet, Refusal>
    requires lengths { (length sound.old ≡ 2 ^ (problem_of d.now).inputs) × (length faulted.old ≡ 2 ^ (problem_of d.now).inputs) × (length masks.old ≡ 2 ^ (problem_of d.now).inputs) }
    requires labels_value { labels.now ≡ labels_below (2 ^ (problem_of d.now).inputs) }
    requires proper { Proper (problem_of d.now) }
    ensures { planned_as result ≡ plan_numbers (verdict_of (problem_of d.now)) }
{
    d.rows(0, sound);
    if let Some(unchanged) = mark_faults(d, sound, faulted, labels, masks) {
        // Nothing is planned then, and only now are outputs compared.
        return Err(match silent_from(d, unchanged, sound, faulted) {
            Some(silent) => Refusal::Silent { fault: silent + 1 },
            None => Refusal::Hidden {
                fault: unchanged + 1,
            },
        });
    }
    search::find(masks, labels, d.faults() as u32, d.cap()).ok_or(Refusal::NoSet)
}

/// The plan of a device; or 13 with the first silent fault, 16 with the first hidden one, 14. One mask a label is all that it uses of the working numbers.
pub fn plan_device(d: &Device, work: &mut [u32]) -> Result<LabelSet, Refusal>
    requires { working_numbers ≤ length work.old }
    ensures value { planned_as result ≡ plan_numbers (verdict_of (problem_of d.now)) }
    ensures work_kept { WorkKept (verdict_of (problem_of d.now)) work.old work.new }
{
    let due: usize = 1 << d.inputs();
    let labels = cover::labels_below(due);
    let mut sound = [0i32; 256];
    let mut faulted = [0i32; 256];
    plan_by(
        d,
        &mut sound[..due],
        &mut faulted[..due],
        &labels[..due],
        &mut work[..due],
    )
}

/// The plan of what the text describes, or its refusal: the text's own, 8, 13 with the first silent fault, 16 with the first hidden one, 14.
pub fn plan(text: &[u8], work: &mut [u32]) -> Result<LabelSet, Refusal>
    ensures value { planned_as result ≡ plan_answer text.now (length work.old) }
    ensures work_kept { WorkKept (plan_verdict text.now (length work.old)) work.old work.new }
{
    let d = devices::describe(text)?;
    if work.len() < WORKING_NUMBERS {
        return Err(Refusal::ShortBuffer);
    }
    plan_device(&d, work)
}
