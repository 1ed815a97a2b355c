// The public calls. Each takes any bytes, numbers and lengths, refuses in the order of the specification, and answers by the floors below;
// nothing of the caller's is touched before the answer is known.
#![tactic(auto)]

mod entries; // entries.rt: the calls for C
mod question; // question.rt: whether a word selects a pair
mod writers; // writers.rt: the images and the normal form of a word

pub use entries::{
    pathplus_minimal_image, pathplus_normal_form, pathplus_plain_image, pathplus_selects,
};
pub use forms::Form;
pub use limits::refusal::{Refusal, Refused};
pub use question::selects;
pub use writers::{minimal_image, normal_form, plain_image, written};
