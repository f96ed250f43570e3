// Tables: cutting words and names bytes into sections, judging nodes and lists, labels. Every public function is total and has no `requires`.
#![tactic(auto)]

pub mod refusal; // refusal.rt: why a call is refused
pub mod limits; // limits.rt: the limits, the room and the highest mode
pub mod sections; // sections.rt: sections 1 to 6 of the words
pub mod node; // node.rt: the kinds of nodes, and the six words of one
pub mod rows; // rows.rt: the words of rows
pub mod form; // form.rt: rule 3 of a node by itself
pub mod sorts; // sorts.rt: rule 5 of a node
pub mod table; // table.rt: the words of a call with their sections
pub mod nodes; // nodes.rt: rules 3, 4 and 5 over the nodes
pub mod lists; // lists.rt: rules 6 and 7 over the lists
pub mod names; // names.rt: the names bytes, section 7
pub mod label; // label.rt: the label of a node
pub mod judge; // judge.rt: a call judged before the walk
