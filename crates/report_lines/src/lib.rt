// The lines of a report, one kind at a time: of a refusal, of the labels of a plan, of the faults. Each writes as `writing` does, from index `at` on.
// Labels come as a slice, and each function asks that they are below the length: a struct would be made of them and taken apart at once.
#![tactic(auto)]

ghost use Rattle.std.specs.Prelude.{◌≡◌, ◌+◌, ◌*◌, ◌≤◌, ◌<◌, ◌^◌, length};
ghost use Rattle.integer.specs.Tab.{Within};
ghost use Rattle.integer.specs.ListTests.{Below};
ghost use Rattle.devices.specs.Forms.{problem_of};
ghost use Rattle.devices.specs.Problems.{Proper};
ghost use Rattle.refusals.specs.Refusals.{refusal_number, refusal_place};
ghost use Rattle.writing.specs.Writing.{placed, gather};
ghost use Rattle.transform.specs.Spectrum.{spectrum_of};
ghost use Rattle.report_lines.specs.ReportLines.{report_bytes, refused_line, fault_report_line};
ghost use Rattle.report_lines.specs.Steps.{spectral_label_line, spectral_covering};

use devices::Device;
use refusals::Refusal;

// The line `refused,NUMBER,PLACE` at the front, also with numbers that no call gives.
pub fn refused_line_of(out: &mut [u8], number: u32, place: usize) -> usize
    requires { (report_bytes ≤ length out.old) × (number < 100) × (place < 1000) }
    ensures value { result ≡ length (refused_line number place) }
    ensures out_after { out.new ≡ placed 0 (refused_line number place) out.old }
{
    let numbers = [number as i32, place as i32];
    writing::put_line(out, 0, b"refused", &numbers)
}

// The line of a refusal, at the front.
#[tactic(auto, using(crate::proofs::ReportLines::refusal_number_small))]
pub fn refused_line(out: &mut [u8], refusal: Refusal) -> usize
    requires { (report_bytes ≤ length out.old) × (refusal_place refusal < 1000) }
    ensures value { result ≡ length (refused_line (refusal_number refusal) (refusal_place refusal)) }
    ensures out_after { out.new ≡ placed 0 (refused_line (refusal_number refusal) (refusal_place refusal)) out.old }
{
    refused_line_of(out, refusal.number(), refusal.place())
}

// The lines of all labels, each with its sound coefficient.
pub fn label_lines(out: &mut [u8], at: usize, labels: &[u32], sound: &[i32]) -> usize
    requires { (at + 17 * length labels.now ≤ length out.old) × Below (length sound.now) labels.now × (length sound.now ≤ 256) × Within 15360 sound.now }
    ensures value { result ≡ at + length (gather (spectral_label_line sound.now labels.now) (length labels.now)) }
    ensures out_after { out.new ≡ placed at (gather (spectral_label_line sound.now labels.now) (length labels.now)) out.old }
{
    let mut end = at;
    for &label in labels {
        let numbers = [label as i32, sound[label as usize]];
        end = writing::put_line(out, end, b"label", &numbers);
    }
    end
}

// The first of the labels at which the coefficients differ; 0 where there is none, as the definition has it: the labels of a plan show every fault. (By `find`
// two goals stay open.)
fn first_covering(labels: &[u32], sound: &[i32], faulted: &[i32]) -> u32
    requires { Below (length sound.now) labels.now × (length faulted.now ≡ length sound.now) }
    ensures { result ≡ spectral_covering sound.now faulted.now labels.now }
{
    for &label in labels {
        if sound[label as usize] != faulted[label as usize] {
            return label;
        }
    }
    0
}

// The lines of all faults, which are numbered from 1.
pub fn fault_lines(
    d: &Device,
    labels: &[u32],
    sound: &[i32],
    faulted: &mut [i32],
    out: &mut [u8],
    at: usize,
) -> usize
    requires proper { Proper (problem_of d.now) × Below (2 ^ (problem_of d.now).inputs) labels.now }
    requires sound_value { (sound.now ≡ spectrum_of (problem_of d.now).sound) × (length faulted.old ≡ 2 ^ (problem_of d.now).inputs) × (at + 640 ≤ length out.old) }
    ensures value { result ≡ at + length (gather (fault_report_line (problem_of d.now).sound (problem_of d.now).faulted labels.now) (length (problem_of d.now).faulted)) }
    ensures out_after { out.new ≡ placed at (gather (fault_report_line (problem_of d.now).sound (problem_of d.now).faulted labels.now) (length (problem_of d.now).faulted)) out.old }
{
    let mut end = at;
    for f in 0..d.faults() {
        // `faulted` has room for the spectrum, so this is Ok.
        let _ = circuit::fault_spectrum(d, f + 1, faulted);
        let label = first_covering(labels, sound, faulted);
        let numbers = [(f + 1) as i32, label as i32, faulted[label as usize]];
        end = writing::put_line(out, end, b"fault", &numbers);
    }
    end
}
