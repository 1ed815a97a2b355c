// Words: the signs, the reading of one number, and the check of a whole word (refusals 1 to 6).
#![tactic(auto)]

pub mod sign; // sign.rt: the table of signs
pub mod number; // number.rt: one number at a place of the word
pub mod cursor; // cursor.rt: the reading place, lent to the number reader
pub mod whole; // whole.rt: the check of a whole word
