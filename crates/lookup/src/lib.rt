// The rows of a table, sound and under a fault: each is looked up among the marks. That a row is below 256 is asked wherever one comes in: a row of type `u8`
// would say it, and then each sum of its bits would need a proof that it fits.
#![tactic(auto)]

ghost use Rattle.std.specs.Prelude.{◌≡◌, ◌≤◌, ◌<◌, ◌^◌, length, take};
ghost use Rattle.statements.specs.FaultKinds.{PairNamed, pair_or_free};
ghost use Rattle.lookup.specs.StuckPairs.{OfInputs};
ghost use Rattle.lookup.specs.TableRows.{stuck_row_number, bridge_row, table_rows, table_of_marks};
ghost use Rattle.lookup.specs.Steps.{pair_row};

use statements::{Bridge, Fault, FaultKind, Pair};
use tables::Table;

// Row x with the pair's input replaced by its VALUE.
fn pair_row(s: Pair, x: usize) -> usize
    requires { (1 ≤ s.line) × (s.line ≤ 8) × (x < 256) }
    ensures { (result ≡ pair_row s x) × (result < 256) }
{
    let shift = s.line - 1;
    let unit: usize = 1 << shift;
    let off = x - (x >> shift) % 2 * unit;
    if s.value { off + unit } else { off }
}

#[tactic(auto, unfolding(crate::specs::Steps::pair_row))]
fn added_row(s: Option<Pair>, x: usize) -> usize
    requires { PairNamed s × ((pair_or_free s).line ≤ 8) × (x < 256) }
    ensures { (result ≡ pair_row (pair_or_free s) x) × (result < 256) }
{
    match s {
        Some(p) => pair_row(p, x),
        None => x,
    }
}

// Row x with the pair's input replaced; x itself for a pair that names none, as one of a fault that no text states may.
#[tactic(auto, unfolding(crate::specs::Steps::pair_row))]
fn unstated_row(s: Pair, x: usize) -> usize
    requires { (s.line ≤ 8) × (x < 256) }
    ensures { (result ≡ pair_row s x) × (result < 256) }
{
    if s.line == 0 { x } else { pair_row(s, x) }
}

// Row x with every stuck input replaced.
#[tactic(auto, using(crate::proofs::PairRows::stuck_row_steps), unfolding(crate::specs::Steps::pair_row))]
fn stuck_row(f: Fault, x: usize) -> usize
    requires { OfInputs 8 f × (x < 256) }
    ensures { result ≡ stuck_row_number f x }
{
    match f.kind {
        FaultKind::Stuck(a, b, c) => added_row(c, added_row(b, pair_row(a, x))),
        FaultKind::Unstated(a, b, c, _) => unstated_row(c, unstated_row(b, unstated_row(a, x))),
        FaultKind::Sound | FaultKind::Bridged(_) => x,
    }
}

// Row x with both inputs of a bridge replaced by the AND of what is applied to them.
#[tactic(auto, using(crate::proofs::PairRows::bridge_row_steps))]
fn joined_row(b: Bridge, x: usize) -> usize
    requires { (1 ≤ b.first) × (b.first ≤ b.second) × (b.second ≤ 8) × (x < 256) }
    ensures { result ≡ bridge_row b x }
{
    let both = (x >> (b.first - 1)) % 2 * ((x >> (b.second - 1)) % 2) == 1;
    let first = Pair {
        line: b.first,
        value: both,
    };
    let second = Pair {
        line: b.second,
        value: both,
    };
    pair_row(second, pair_row(first, x))
}

// Row x under the fault's bridge, where it has one.
#[tactic(auto, unfolding(crate::specs::TableRows::bridge_row))]
fn bridge_row(f: Fault, x: usize) -> usize
    requires { OfInputs 8 f × (x < 256) }
    ensures { result ≡ bridge_row f.bridge x }
{
    match f.kind {
        FaultKind::Bridged(b) => joined_row(b, x),
        FaultKind::Unstated(_, _, _, b) if b.first != 0 => joined_row(b, x),
        FaultKind::Sound | FaultKind::Stuck(..) | FaultKind::Unstated(..) => x,
    }
}

// The rows under the fault of a table of so many inputs and these marks, of which the first 2^N count. A mark may be any number; those of a text are 0, 1 and 2.
// A stuck input is the same in every row, so two masks replace them all: what is set, and what is kept. The inputs of a bridge differ from row to row.
pub fn rows_of_marks(inputs: usize, marks: &[u8], f: Fault, out: &mut [i32])
    requires { (inputs ≤ 8) × (2 ^ inputs ≤ length marks.now) × OfInputs inputs f × (length out.old ≡ 2 ^ inputs) }
    ensures { out.new ≡ table_rows (table_of_marks inputs (take (2 ^ inputs) marks.now)) f }
{
    let due: usize = 1 << inputs;
    let used = &marks[..due];
    let set = stuck_row(f, 0);
    let kept = stuck_row(f, 255) ^ set;
    for (x, value) in out.iter_mut().enumerate() {
        let row = (bridge_row(f, x) & kept) | set;
        *value = i32::from(used[row]);
    }
}

// The rows of a table under the fault, doubled.
#[tactic(auto, using(crate::proofs::RowsOfTables::rows_as_marked))]
pub fn rows(t: &Table, f: Fault, out: &mut [i32])
    requires { OfInputs t.now.inputs f × (length out.old ≡ 2 ^ t.now.inputs) }
    ensures { out.new ≡ table_rows t.now f }
{
    rows_of_marks(t.inputs(), t.marks(), f, out);
}
