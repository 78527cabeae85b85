// The table as data, and the parser of its text with refusals 1, 2, 3, 5, 6, 7, 15 and 19. What its rows are is the business of `lookup`.
#![tactic(auto)]

mod parsing;

ghost use Rattle.std.specs.Prelude.{◌≡◌, ◌≤◌, length};
ghost use Rattle.tables.specs.Tables.{table_fault_at};
ghost use Rattle.tables.specs.TableWellFormed.{TableRight};

pub use parsing::{is_table, parse};
use statements::Fault;
use std::marker::Model;

// The numbers of the first line.
#[derive(Clone, Copy)]
struct TableHead {
    inputs: usize,
    faults: usize,
    cap: usize,
}

// It has the shape of `netlist::Circuit`: a head and arrays with a model, and methods that hand parts out. One struct for both would take the marks or the gates and
// outputs, the head, the model and its invariant as parameters, to share four methods of one line.
/// A table that a text can state. In contracts a table is its truth table.
#[derive(Clone, Copy)]
pub struct Table {
    // the marks are doubled, one for each row: 0, 1 for a free row, 2; each array is in use as far as the head says, with none past it: there is no heap
    head: TableHead,
    marks: [u8; 256],
    faults: [Fault; 32],
}

impl Model for Table {
    ghost use Rattle.tables.specs.Tables.{TruthTable};

    ghost Value = { TruthTable };

    ghost use Rattle.tables.specs.TableArrays.{truth_table_of, AcceptedTable, table_arrays, table-back};

    ghost view = { truth_table_of };

    ghost invariant = { AcceptedTable };

    ghost inverse = { table_arrays };

    ghost inverse_ok = { table-back };
}

impl Table {
    /// The table of these parts, as a text would state it; the marks are doubled: 0, 1 for a free row, 2.
    pub fn new(inputs: usize, marks: &[u8], faults: &[Fault], cap: usize) -> Table
        requires { TableRight (record { inputs = inputs; marks = marks.now; faults = faults.now; cap = cap }) }
        ensures { result ≡ record { inputs = inputs; marks = marks.now; faults = faults.now; cap = cap } }
    {
        let mut padded_marks = [0; 256];
        padded_marks[..marks.len()].copy_from_slice(marks);
        let mut padded_faults = [Fault::SOUND; 32];
        padded_faults[..faults.len()].copy_from_slice(faults);
        Table {
            head: TableHead {
                inputs,
                faults: faults.len(),
                cap,
            },
            marks: padded_marks,
            faults: padded_faults,
        }
    }

    pub fn inputs(&self) -> usize
        ensures value { result ≡ self.now.inputs }
        ensures right { TableRight self.now }
    {
        self.head.inputs
    }

    pub fn cap(&self) -> usize
        ensures { result ≡ self.now.cap }
    {
        self.head.cap
    }

    pub fn marks(&self) -> &[u8]
        ensures value { result.now ≡ self.now.marks }
        ensures right { TableRight self.now }
    {
        let due: usize = 1 << self.head.inputs;
        &self.marks[..due]
    }

    pub fn faults(&self) -> &[Fault]
        ensures value { result.now ≡ self.now.faults }
        ensures right { TableRight self.now }
    {
        &self.faults[..self.head.faults]
    }

    /// Fault `number` of the table, from 1; the fault that names no line for 0.
    pub fn fault(&self, number: usize) -> Fault
        requires { number ≤ length self.now.faults }
        ensures value { result ≡ table_fault_at self.now number }
        ensures right { TableRight self.now }
    {
        sections::fault_at(self.faults(), number)
    }
}
