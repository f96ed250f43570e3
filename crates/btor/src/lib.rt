// Sorts and operators of BTOR2 models: what the fold computes with. Every function is total and has no `requires`.
#![tactic(auto)]

pub mod node_type; // node_type.rt: the sorts, their codes, widths and all-ones
pub mod operators; // operators.rt: the operators on numbers
pub mod reading; // reading.rt: the Rust's reading and the standard's
