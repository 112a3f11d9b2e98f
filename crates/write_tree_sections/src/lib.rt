// Sections 0 to 2 of an image, out of a draft's words: nodes, children, named children.
#![tactic(auto)]

pub mod kinds; // kinds.rt: the record that is written for a node
pub mod texts_used; // texts_used.rt: how many texts a node uses
pub mod nodes; // nodes.rt: section 0
pub mod children; // children.rt: section 1
pub mod named; // named.rt: section 2
