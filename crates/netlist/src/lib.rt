// The circuit as data, and the parser of the circuit text with refusals 1 to 7 and 19. What a circuit computes is the business of other crates.
#![tactic(auto)]

mod parsing;

ghost use Rattle.std.specs.Prelude.{◌≡◌, ◌≤◌, length};
ghost use Rattle.netlist.specs.Circuits.{fault_at};
ghost use Rattle.netlist.specs.WellFormed.{WellFormed};

use gate_lines::Gate;
pub use parsing::parse;
use statements::{Fault, Head, Output};
use std::marker::Model;

/// A circuit that a text can state. In contracts a circuit is its netlist.
#[derive(Clone, Copy)]
pub struct Circuit {
    // each array is in use as far as the head says, with none past it: there is no heap
    head: Head,
    gates: [Gate; 48],
    outputs: [Output; 4],
    faults: [Fault; 32],
}

impl Model for Circuit {
    ghost use Rattle.netlist.specs.Circuits.{Netlist};

    ghost Value = { Netlist };

    ghost use Rattle.netlist.specs.CircuitArrays.{netlist_of, Accepted, circuit_arrays, circuit-back};

    ghost view = { netlist_of };

    ghost invariant = { Accepted };

    ghost inverse = { circuit_arrays };

    ghost inverse_ok = { circuit-back };
}

impl Circuit {
    /// The circuit of these parts, as a text would state it.
    pub fn new(
        inputs: usize,
        gates: &[Gate],
        outputs: &[Output],
        faults: &[Fault],
        cap: usize,
    ) -> Circuit
        requires { WellFormed (record { inputs = inputs; gates = gates.now; outputs = outputs.now; faults = faults.now; cap = cap }) }
        ensures { result ≡ record { inputs = inputs; gates = gates.now; outputs = outputs.now; faults = faults.now; cap = cap } }
    {
        let mut padded_gates = [Gate::NONE; 48];
        padded_gates[..gates.len()].copy_from_slice(gates);
        let mut padded_outputs = [Output::NONE; 4];
        padded_outputs[..outputs.len()].copy_from_slice(outputs);
        let mut padded_faults = [Fault::SOUND; 32];
        padded_faults[..faults.len()].copy_from_slice(faults);
        Circuit {
            head: Head {
                inputs,
                gates: gates.len(),
                outputs: outputs.len(),
                faults: faults.len(),
                cap,
            },
            gates: padded_gates,
            outputs: padded_outputs,
            faults: padded_faults,
        }
    }

    pub fn inputs(&self) -> usize
        ensures value { result ≡ self.now.inputs }
        ensures well_formed { WellFormed self.now }
    {
        self.head.inputs
    }

    pub fn cap(&self) -> usize
        ensures { result ≡ self.now.cap }
    {
        self.head.cap
    }

    pub fn gates(&self) -> &[Gate]
        ensures { result.now ≡ self.now.gates }
    {
        &self.gates[..self.head.gates]
    }

    pub fn outputs(&self) -> &[Output]
        ensures value { result.now ≡ self.now.outputs }
        ensures few { length result.now ≤ 4 }
    {
        &self.outputs[..self.head.outputs]
    }

    pub fn faults(&self) -> &[Fault]
        ensures { result.now ≡ self.now.faults }
    {
        &self.faults[..self.head.faults]
    }

    /// Fault `number` of the circuit, from 1; the fault that names no line for 0.
    pub fn fault(&self, number: usize) -> Fault
        requires { number ≤ length self.now.faults }
        ensures { result ≡ fault_at self.now number }
    {
        sections::fault_at(self.faults(), number)
    }
}
