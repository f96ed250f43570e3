// From the text of a call to the text of its answer. No function needs anything of its caller.
#![tactic(auto)]

pub mod answer; // answer.rt: what is printed, once the numbers of a text are read
