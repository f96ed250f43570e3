// Kept lists of cases, each with its answer: a list is read case by case, or whole, and its cases are tried one after another and counted.
#![tactic(auto)]

pub mod case; // case.rt: what a kind of case has to say of itself, and the cases of a list at hand counted
pub mod list; // list.rt: a list's bytes, read as they are needed
pub mod parts; // parts.rt: what the lists are made of, lines and numbers
pub mod replay; // replay.rt: a list's file, and what is printed of it
pub mod streamed; // streamed.rt: the same as case.rt where a list is read a case at a time
