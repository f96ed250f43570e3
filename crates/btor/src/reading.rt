// Whose reading of a model: the Rust's or the standard's (BTOR2, SMT-LIB).

// Of the operators only Div and Rem differ.
#[derive(Clone, Copy, Debug, PartialEq, Eq)]
pub enum Reading {
    Rust,
    Standard,
}
