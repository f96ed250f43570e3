// For C and Rust: the three entry points and the label of a node, which `gemtweed_c` exports as a static library. include/gemtweed.h says how they are called.
#![tactic(auto)]

pub mod fold; // fold.rt: the three entry points
pub mod label; // label.rt: the label of a node, copied out
