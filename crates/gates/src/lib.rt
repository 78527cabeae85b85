// The gate rule: a kind's value of the bits that a gate reads, case by case. Which lines those are, and on which rows, is the business of other crates.
//
// Bits are a number behind a leading 1, A's the highest, as note 3 of document 02 has them: `0b1_0110` is A, B, C, D = 0, 1, 1, 0. Each kind has a file with a
// line for each of its cases, two bits counting up, then three, then four, and one for `not`: 170 in all, those of `gate_table` in its order. The last arm of each
// `match`, which a number wants, is shown never to be taken (`prove!(false)`): without one of the cases it would be. It has a value since with `unreachable!()` the
// loops over rows are no vector code. The files stay apart, though they differ in their values alone: note 3 asks for cases that a reader lays beside a data sheet.
// Six of them ask for `Several` bits: a struct around the number would say it, and be made and taken apart on each row.
#![tactic(auto)]

mod and;
mod nand;
mod nor;
mod not;
mod or;
mod xnor;
mod xor;

ghost use Rattle.std.specs.Prelude.{[], ◌∷◌, ◌++◌, ◌≡◌, ◌+◌, ◌≤◌, ◌<◌};
ghost use Rattle.gates.specs.Gates.{gate_value, bits_of, CaseOf};

use kinds::Kind;

// One bit more, after the others.
#[tactic(auto, using(crate::proofs::Bits::bit_appended))]
pub fn with_bit(bits: u32, b: bool) -> u32
    requires { (1 ≤ bits) × (bits < 16) }
    ensures { (bits_of result ≡ bits_of bits ++ (b ∷ [])) × (bits + bits ≤ result) × (result ≤ bits + bits + 1) }
{
    if b { 2 * bits + 1 } else { 2 * bits }
}

// A `match`, since the kinds are all there are and each has a file of its own.
pub fn gate_value(kind: Kind, bits: u32) -> bool
    requires { CaseOf kind bits }
    ensures { result ≡ gate_value kind (bits_of bits) }
{
    match kind {
        Kind::And => and::value(bits),
        Kind::Or => or::value(bits),
        Kind::Nand => nand::value(bits),
        Kind::Nor => nor::value(bits),
        Kind::Xor => xor::value(bits),
        Kind::Xnor => xnor::value(bits),
        Kind::Not => not::value(bits),
    }
}
