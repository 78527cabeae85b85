// Which labels cover a fault: those at which the differences of the rows have a coefficient other than 0, since the transform is linear.
ghost use Rattle.std.specs.Prelude.{false, ◌≡◌, ◌≤◌, ◌<◌, ◌^◌, length, replicate};
ghost use Rattle.integer.specs.Tab.{Within};
ghost use Rattle.integer.specs.ListTests.{Below};
ghost use Rattle.cover.specs.Cover.{unchanged};
ghost use Rattle.cover.specs.Steps.{differences, bit_added, marked};

// No fault marked.
pub fn clear(masks: &mut [u32])
    ensures { masks.new ≡ replicate (length masks.old) 0 }
{
    masks.fill(0);
}

// The differences of the rows, and whether all are 0.
#[tactic(auto, using(integer::proofs::Tabs::filled), unfolding(integer::specs::Tab::tab, integer::specs::Counting::all_below, crate::specs::Cover::unchanged, crate::specs::Steps::differences))]
fn differences(sound: &[i32], faulted: &[i32], out: &mut [i64]) -> bool
    requires { (length faulted.now ≡ length sound.now) × (length out.old ≡ length sound.now) × Within 1000 sound.now × Within 1000 faulted.now }
    ensures value { result ≡ unchanged sound.now faulted.now }
    ensures out_after { out.new ≡ differences sound.now faulted.now }
{
    let mut same = true;
    for (x, difference) in out.iter_mut().enumerate() {
        let d = i64::from(sound[x]) - i64::from(faulted[x]);
        same &= d == 0;
        *difference = d;
    }
    same
}

// Adds `bit` to the mask of each label at which the coefficient is not 0.
#[tactic(auto, using(integer::proofs::Tabs::filled), unfolding(integer::specs::Tab::tab, crate::specs::Steps::bit_added))]
fn add_marks(coefficients: &[i64], labels: &[u32], bit: u32, masks: &mut [u32])
    requires labels_len { (length labels.now ≡ length masks.old) × Below (length coefficients.now) labels.now }
    requires below { Below bit masks.old × (bit ≤ 2 ^ 31) }
    ensures { masks.new ≡ bit_added coefficients.now labels.now bit masks.old }
{
    for (i, mask) in masks.iter_mut().enumerate() {
        let label = labels[i] as usize;
        if coefficients[label] != 0 {
            *mask += bit;
        }
    }
}

// Whether no row differs.
#[tactic(auto, using(crate::proofs::Signatures::unchanged_pointwise))]
pub fn unchanged(sound: &[i32], faulted: &[i32]) -> bool
    requires { length faulted.now ≡ length sound.now }
    ensures { result ≡ unchanged sound.now faulted.now }
{
    sound == faulted
}

// Marks the fault at each label that covers it, unless it leaves the rows unchanged; whether it does.
pub fn mark(
    sound: &[i32],
    faulted: &[i32],
    labels: &[u32],
    inputs: u32,
    fault: u32,
    masks: &mut [u32],
) -> bool
    requires inputs_bound { (inputs ≤ 8) × (fault < 32) × (length sound.now ≡ 2 ^ inputs) × (length faulted.now ≡ length sound.now) }
    requires labels_len { (length labels.now ≡ length sound.now) × (length masks.old ≡ length sound.now) }
    requires below { Below (length sound.now) labels.now × Below (2 ^ fault) masks.old }
    requires within { Within 1000 sound.now × Within 1000 faulted.now }
    ensures value { result ≡ unchanged sound.now faulted.now }
    ensures masks_after { result ≡ false → masks.new ≡ marked sound.now faulted.now labels.now fault masks.old }
{
    let n = sound.len();
    let mut work = [0i64; 256];
    let work = &mut work[..n];
    let unchanged = differences(sound, faulted, work);
    if unchanged {
        return true;
    }
    transform::transform(work, inputs);
    add_marks(work, labels, 1 << fault, masks);
    false
}
