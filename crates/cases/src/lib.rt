// How a stored case is written: its head, its numbers, and the lines that are due.
#![tactic(auto)]

pub mod heads;
pub mod lines;
pub mod numbers;
