// The program's text: numbers out of bytes that arrive in chunks, those numbers as a library call wants them, and the answer printed into a
// lent buffer. No public function needs anything of its caller.
#![tactic(auto)]

pub mod reader; // reader.rt: decimal numbers, fed chunk by chunk
pub mod refused; // refused.rt: a refusal as it is printed
pub mod printer; // printer.rt: numbers, lines and the program's answer, into a lent buffer
pub mod split; // split.rt: the numbers as sections 1 to 6 and names bytes
