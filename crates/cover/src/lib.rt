// The order of the labels, and which of them cover which fault, over lists of rows: where rows come from is the business of other crates. The set
// of labels that covers every fault is found by `search`.
#![tactic(auto)]

mod marks;
mod order;

pub use marks::{clear, mark, unchanged};
pub use order::labels_below;
