// What a text describes, a circuit or a table, its rows and what its outputs show. The calls that plan and report know this crate and neither parser.
#![tactic(auto)]

mod describing;
mod device;

pub use describing::describe;
pub use device::Device;
