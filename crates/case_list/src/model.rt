// What a call is made on: the words of a table, and the names bytes.
#[derive(Drop)]
pub struct Model {
    pub words: Vec<u64>,
    pub names: Vec<u8>,
}
