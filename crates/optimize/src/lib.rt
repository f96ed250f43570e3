// The fold of a house table, after optimize.rs, over two lent buffers.
#![tactic(auto)]

mod bads; // bads.rt: which bads are kept
mod beginning; // beginning.rt: the buffers set up
mod buffers; // buffers.rt: the words of the rows
mod call; // call.rt: what a call fixes, its mode included
mod fold; // fold.rt: what a node folds to
mod folder; // folder.rt: the fold under way, and what is read and put in its buffers
mod form; // form.rt: what a visit does with a node, by its kind
mod input; // input.rt: a State takes an input
mod last_question; // last_question.rt: the one question under one-query
mod lists; // lists.rt: the lists of a model, and the visits of a list
mod mark; // mark.rt: what is recorded of a node
mod memory; // memory.rt: the walk down the Writes
pub mod optimize; // optimize.rt: the three entry points
mod reply; // reply.rt: what a solver replies
mod result; // result.rt: the sections of the result written
mod run; // run.rt: the fold of a judged call
mod sequentials; // sequentials.rt: which sequentials are kept
mod settle; // settle.rt: what comes after the visits of a node's operands
mod smt_solver; // smt_solver.rt: the five questions, and the replies in place of a solver
mod solve; // solve.rt: the questions about a node that stays, and what is recorded of it
mod visit; // visit.rt: visiting a node and rewriting it
mod walk; // walk.rt: what a walk counts
