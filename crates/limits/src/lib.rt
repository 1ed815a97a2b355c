// The table "Limits and refusal numbers": each number stands in the code once, here, named as in the definitions (meaning, Limits
// and Number), in the header and in the second implementation. A request's refusals and limits are added here.
#![tactic(auto)]

pub mod refusal; // refusal.rt: the refusals, their numbers, and a refusal at its place
pub mod most; // most.rt: how long, how many and how large
