// The plain tree query of an accepted word, built sign by sign in one pool of rows that the caller lends.
// The rows of the pending operands lie one behind the other, and each operand's links count from its own first row, so that the rows of an operand
// are the table of the definition literally. An operand without rows is empty. What is glued away frees its rows at once: 511 are enough.
#![tactic(auto)]

mod operand; // operand.rt: what a sign makes of the latest operands
pub mod build; // build.rt: one sign, and the whole word
