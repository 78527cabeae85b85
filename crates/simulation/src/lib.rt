// Simulation of a circuit: its rows and what its outputs show on them, sound or under a fault. Where a circuit comes from and what is done with
// its rows is the business of other crates.
#![tactic(auto)]

ghost use Rattle.std.specs.Prelude.{◌≡◌, ◌+◌, ◌≤◌, ◌<◌, ◌^◌, nat_abs, length};
ghost use Rattle.integer.specs.Tab.{tab};
ghost use Rattle.simulation.specs.Rows.{line_values, weighed, rows_of, outputs_of};
ghost use Rattle.simulation.specs.Steps.{Columns, input_lines, row_bit_of, source_of, slot_of, read_sum, values_by, with_bits};

use columns::{Column, Seen, Values};
use netlist::Circuit;
use statements::{Fault, FaultKind, Output};

// Which bit of a row an input is, of input 0 the first; past the last input a bit that no row has, since `rows` promises its equation for every fault.
#[tactic(auto, unfolding(crate::specs::Steps::row_bit_of))]
fn row_bit(input: u16) -> usize
    ensures { (result ≡ row_bit_of input) × (result ≤ 8) }
{
    usize::from(input.min(9).saturating_sub(1))
}

// The bits whose AND input i, from 0, gets: those of the bridge's inputs where a bridge joins it, else its own twice.
#[tactic(auto, unfolding(crate::specs::Steps::source_of))]
fn sources(f: Fault, i: usize) -> (usize, usize)
    requires { i < 8 }
    ensures first { (result.0 ≡ source_of f.bridge i f.bridge.first) × (result.0 ≤ 8) }
    ensures second { (result.1 ≡ source_of f.bridge i f.bridge.second) × (result.1 ≤ 8) }
{
    let line = i + 1;
    match f.kind {
        FaultKind::Bridged(b) | FaultKind::Unstated(_, _, _, b)
            if (b.first as usize == line) | (b.second as usize == line) => {
            (row_bit(b.first), row_bit(b.second))
        }
        _ => (i, i),
    }
}

// The columns of the inputs.
fn input_columns(values: &mut Values, f: Fault, inputs: usize, n: usize)
    requires { (inputs ≤ 8) × (n ≤ 256) × Columns values.old n (input_lines f 0) }
    ensures { Columns values.new n (input_lines f inputs) }
{
    for i in 0..inputs {
        let (p, q) = sources(f, i);
        let column = Column {
            line: i + 1,
            seen: Seen::through(f, i + 1),
            rows: n,
        };
        columns::input_column(values, column, p, q);
    }
}

// The columns of the gates, after those of the inputs.
fn gate_columns(values: &mut Values, c: &Circuit, f: Fault, n: usize)
    requires { (n ≤ 256) × Columns values.old n (input_lines f c.now.inputs) }
    ensures { Columns values.new n (line_values c.now f) }
{
    let inputs = c.inputs();
    for (j, gate) in c.gates().iter().enumerate() {
        let line = inputs + j + 1;
        let column = Column {
            line,
            seen: Seen::through(f, line),
            rows: n,
        };
        evaluation::gate_column(values, *gate, column);
    }
}

fn weigh(shows: bool, weight: i16) -> i32
    ensures { (result ≡ weighed shows weight) × (nat_abs result ≤ 32768) }
{
    if shows { i32::from(weight) } else { 0 }
}

// Where a line's column is read: past the last line there is one column more, which is always false, as the definition has it of an output of no line.
#[tactic(auto, unfolding(crate::specs::Steps::slot_of))]
fn slot(line: u16) -> usize
    ensures { (result ≡ slot_of line) × (result ≤ 57) }
{
    if line < 57 { line as usize } else { 57 }
}

// The row's value: the sum of the weights of the outputs that show 1.
fn row_value(values: &Values, outputs: &[Output], x: usize) -> i32
    requires { (length outputs.now ≤ 4) × (x < 256) }
    ensures { result ≡ read_sum values.now outputs.now x }
{
    let mut sum: i32 = 0;
    for output in outputs {
        let at = slot(output.line) * 256;
        sum += weigh(values[at + x], output.weight);
    }
    sum
}

// Every row's value.
fn row_values(values: &Values, outputs: &[Output], out: &mut [i32])
    requires { (length outputs.now ≤ 4) × (length out.old ≤ 256) }
    ensures { out.new ≡ tab (length out.old) (read_sum values.now outputs.now) }
{
    for (x, row) in out.iter_mut().enumerate() {
        *row = row_value(values, outputs, x);
    }
}

// Each row's value by the outputs given: a column for each line, one value a row, and the values from them.
fn rows_by(c: &Circuit, f: Fault, outputs: &[Output], out: &mut [i32])
    requires { (length outputs.now ≤ 4) × (length out.old ≡ 2 ^ c.now.inputs) }
    ensures { out.new ≡ tab (2 ^ c.now.inputs) (values_by outputs.now c.now f) }
{
    let n = out.len();
    let mut values = [false; 14848];
    input_columns(&mut values, f, c.inputs(), n);
    gate_columns(&mut values, c, f, n);
    row_values(&values, outputs, out);
}

// The rows of the circuit under a fault.
pub fn rows(c: &Circuit, f: Fault, out: &mut [i32])
    requires { length out.old ≡ 2 ^ c.now.inputs }
    ensures { out.new ≡ rows_of c.now f }
{
    rows_by(c, f, c.outputs(), out);
}

// With these for weights a row's value has bit k exactly where output k shows 1.
const BITS: [i16; 4] = [1, 2, 4, 8];

// The outputs with those weights in place of their own.
fn with_bits(outputs: &[Output], out: &mut [Output])
    requires { (length outputs.now ≤ 4) × (length out.old ≡ length outputs.now) }
    ensures { out.new ≡ with_bits outputs.now }
{
    for (k, output) in out.iter_mut().enumerate() {
        *output = Output {
            line: outputs[k].line,
            weight: BITS[k],
        };
    }
}

// What the outputs show on each row under a fault, as one number with bit k for output k.
pub fn outputs(c: &Circuit, f: Fault, out: &mut [i32])
    requires { length out.old ≡ 2 ^ c.now.inputs }
    ensures { out.new ≡ outputs_of c.now f }
{
    let outputs = c.outputs();
    let mut bits = [Output::NONE; 4];
    let bits = &mut bits[..outputs.len()];
    with_bits(outputs, bits);
    rows_by(c, f, bits, out);
}
