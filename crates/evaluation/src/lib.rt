// The column of a gate's line, from the columns of the lines that it reads. How many they are is known to the compiler, and the kind is told apart outside the
// loop over the rows: it then works many rows at a time.
#![tactic(auto)]

ghost use Rattle.std.specs.Prelude.{[], ◌∷◌, ◌≡◌, ◌+◌, ◌≤◌, ◌<◌, ◌^◌};
ghost use Rattle.integer.specs.ListTests.{Below};
ghost use Rattle.kinds.specs.declared.Kind.TheVariants.{Not};
ghost use Rattle.gates.specs.Gates.{bits_of};
ghost use Rattle.columns.specs.Steps.{Columned};
ghost use Rattle.gate_lines.specs.GateItems.{lines_read, GateRight};
ghost use Rattle.evaluation.specs.GateRules.{shown_on, gate_rule, FitsKind};

use columns::{Column, Values};
use gate_lines::Gate;
use kinds::Kind;

// What the lines show on row x, as bits.
fn bits_on<const N: usize>(values: &Values, lines: &[u16; N], x: usize) -> u32
    requires { (N ≤ 4) × Below 58 lines.now × (x < 256) }
    ensures { (bits_of result ≡ shown_on values.now lines.now x) × (2 ^ N ≤ result) × (result < 2 ^ (N + 1)) }
{
    let mut bits = 1;
    for line in lines {
        bits = gates::with_bit(bits, values[*line as usize * 256 + x]);
    }
    bits
}

// The column of a gate of that kind, on every row. `bits_on`, `column` and `column_by_kind` ask that the lines are below 58: a struct around them
// would be made for each number of lines, and taken apart at once.
fn column<const N: usize>(values: &mut Values, kind: Kind, lines: [u16; N], own: Column)
    requires { FitsKind kind N × Below 58 lines }
    ensures { Columned values.old values.new own.line own.rows (gate_rule values.old own.seen kind lines.entry) }
{
    for x in 0..own.rows {
        let bits = bits_on(values, &lines, x);
        values[own.line * 256 + x] = own.seen.shows(gates::gate_value(kind, bits));
    }
}

// The same, with the kind told apart once for all rows: the kinds are closed, and each arm is a loop of its own. No gate of several lines is a `not`.
fn column_by_kind<const N: usize>(values: &mut Values, kind: Kind, lines: [u16; N], own: Column)
    requires { (kind ≡ Not → ⊥) × (2 ≤ N) × (N ≤ 4) × Below 58 lines }
    ensures { Columned values.old values.new own.line own.rows (gate_rule values.old own.seen kind lines.entry) }
{
    match kind {
        Kind::And => column(values, Kind::And, lines, own),
        Kind::Or => column(values, Kind::Or, lines, own),
        Kind::Nand => column(values, Kind::Nand, lines, own),
        Kind::Nor => column(values, Kind::Nor, lines, own),
        Kind::Xor => column(values, Kind::Xor, lines, own),
        Kind::Xnor => column(values, Kind::Xnor, lines, own),
        Kind::Not => unreachable!(),
    }
}

// The column of a gate, which is that of its own line.
pub fn gate_column(values: &mut Values, gate: Gate, own: Column)
    requires { GateRight own.line gate }
    ensures { Columned values.old values.new own.line own.rows (gate_rule values.old own.seen gate.kind (lines_read gate)) }
{
    let a = gate.a;
    match (gate.b, gate.c, gate.d) {
        (None, _, _) => column(values, Kind::Not, [a], own),
        (Some(b), None, _) => column_by_kind(values, gate.kind, [a, b], own),
        (Some(b), Some(c), None) => column_by_kind(values, gate.kind, [a, b, c], own),
        (Some(b), Some(c), Some(d)) => column_by_kind(values, gate.kind, [a, b, c, d], own),
    }
}
