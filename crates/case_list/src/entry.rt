// The entry points, by the numbers that a list has for them. The `Entry` of optimize is not public: what is tried here is its public functions.
use crate::model::Model;
use optimize::optimize::{
    optimize_model_impl, optimize_model_with_input, optimize_model_with_solver,
};
use tables::refusal::Refusal;

#[derive(Clone, Copy)]
pub enum EntryPoint {
    Impl,
    WithSolver,
    WithInput,
}

// A number above the last stands for the last.
impl From<u64> for EntryPoint {
    fn from(number: u64) -> EntryPoint {
        match number {
            0 => EntryPoint::Impl,
            1 => EntryPoint::WithSolver,
            _ => EntryPoint::WithInput,
        }
    }
}

impl EntryPoint {
    // A match and no function taken from a table: one of the three takes no mode.
    pub fn call(
        self,
        mode: u64,
        model: &Model,
        res: &mut [u64],
        scratch: &mut [u64],
    ) -> Result<usize, Refusal> {
        let words = model.words.as_slice();
        let names = model.names.as_slice();
        match self {
            EntryPoint::Impl => optimize_model_impl(mode, words, names, res, scratch),
            EntryPoint::WithSolver => optimize_model_with_solver(mode, words, names, res, scratch),
            EntryPoint::WithInput => optimize_model_with_input(words, names, res, scratch),
        }
    }
}
