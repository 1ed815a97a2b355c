// The match table of a query on a document, in the caller's workspace.
#![tactic(auto)]

mod kinship; // kinship.rt: from a child's row to its parent's
pub mod filling; // filling.rt: row by row, the last query node first
