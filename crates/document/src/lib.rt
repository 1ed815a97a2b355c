// A document as a table of parents and labels, and the nodes that a label fits, as a row of bits.
#![tactic(auto)]

pub mod table; // table.rt: the check of a document table, and its parents
pub mod labels; // labels.rt: the row of the nodes that a label fits
