// The plan call of document 01 on a text of either kind.
#![tactic(auto)]

mod plan_call;

pub use plan_call::plan;

// A leaf for crates of this repository, with a `requires`: no call of the papers.
pub use plan_call::plan_device;

// The working numbers of 32 bits that a plan asks for.
pub const WORKING_NUMBERS: usize = 4608;
