// A device: a circuit or a table. In contracts it is its problem (`problem_of`), whichever text it came from.
ghost use Rattle.std.specs.Prelude.{◌≡◌, ◌^◌, ◌≤◌, length};
ghost use Rattle.devices.specs.Forms.{problem_of};
ghost use Rattle.devices.specs.Problems.{rows_at, outputs_at, Proper};

use netlist::Circuit;
use tables::Table;

// It has no model: two devices may have the same problem, and what is copied must be known from its model.
#[derive(Clone, Copy)]
pub enum Device {
    Gates(Circuit),
    Marks(Table),
}

// One `From` a variant: the language has no derive for it.
impl From<Circuit> for Device {
    ghost use Rattle.devices.specs.Devices.{circuit_problem};

    ghost from_gives = { λ n d. problem_of d ≡ circuit_problem n };

    fn from(circuit: Circuit) -> Self {
        Device::Gates(circuit)
    }
}

impl From<Table> for Device {
    ghost use Rattle.devices.specs.Devices.{table_problem};

    ghost from_gives = { λ t d. problem_of d ≡ table_problem t };

    fn from(table: Table) -> Self {
        Device::Marks(table)
    }
}

// Each method asks which of the two it is. A trait over both would say these promises a second time, and its two impls a third.
impl Device {
    pub fn inputs(&self) -> usize
        ensures value { result ≡ (problem_of self.now).inputs }
        ensures proper { Proper (problem_of self.now) }
    {
        match self {
            Device::Gates(circuit) => circuit.inputs(),
            Device::Marks(table) => table.inputs(),
        }
    }

    /// How many faults there are.
    pub fn faults(&self) -> usize
        ensures { result ≡ length (problem_of self.now).faulted }
    {
        match self {
            Device::Gates(circuit) => circuit.faults().len(),
            Device::Marks(table) => table.faults().len(),
        }
    }

    pub fn cap(&self) -> usize
        ensures { result ≡ (problem_of self.now).cap }
    {
        match self {
            Device::Gates(circuit) => circuit.cap(),
            Device::Marks(table) => table.cap(),
        }
    }

    /// The rows under fault `fault`, from 1, or sound for 0, as document 01 numbers faults.
    pub fn rows(&self, fault: usize, out: &mut [i32])
        requires { (fault ≤ length (problem_of self.now).faulted) × (length out.old ≡ 2 ^ (problem_of self.now).inputs) }
        ensures { out.new ≡ rows_at (problem_of self.now) fault }
    {
        match self {
            Device::Gates(circuit) => simulation::rows(circuit, circuit.fault(fault), out),
            Device::Marks(table) => lookup::rows(table, table.fault(fault), out),
        }
    }

    /// What the outputs show on each row, as one number: a table's only output is its mark.
    pub fn outputs(&self, fault: usize, out: &mut [i32])
        requires { (fault ≤ length (problem_of self.now).faulted) × (length out.old ≡ 2 ^ (problem_of self.now).inputs) }
        ensures { out.new ≡ outputs_at (problem_of self.now) fault }
    {
        match self {
            Device::Gates(circuit) => simulation::outputs(circuit, circuit.fault(fault), out),
            Device::Marks(_) => self.rows(fault, out),
        }
    }
}
