// Walsh coefficients of lists: one coefficient, rows to spectrum and back.
//
// The calls of the papers have no `requires`: what a call cannot take it refuses, with document 01's number and place, and then
// leaves the lent result as it was.
#![tactic(auto)]

mod direct;
mod lists;

pub use direct::coefficient;
pub use lists::{rows, spectrum};
