// Reading the names bytes name by name: functions on the bytes and a place, and a reader that holds both. Every public function is total and has no `requires`.
#![tactic(auto)]

pub mod place; // place.rt: the name at a place of the bytes
pub mod reader; // reader.rt: a reader that holds the bytes and its place, and name k
