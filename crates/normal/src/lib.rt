// The normal form of rows in image order, written behind what the writer has: up from s to t, the way above t, t's own factors, down to d.
#![tactic(auto)]

mod ends; // ends.rt: the rows of s and d, and t above or at both
pub mod form; // form.rt: the factors in order, and the word of them
pub mod weight; // weight.rt: the length of that word
