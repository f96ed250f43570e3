// Kept cases at limits, each on a line with its answer: calls judged, labels, and whole calls with every word that they leave.
#![tactic(auto)]

mod asked; // asked.rt: what a case asks, and its answer held to the kept one
pub mod case; // case.rt: a line read
mod entry; // entry.rt: the entry points by their numbers
mod model; // model.rt: what a call is made on
mod part; // part.rt: the numbers of a part of a line
