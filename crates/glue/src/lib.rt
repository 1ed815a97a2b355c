// Two tree queries glued to one, in the rows of two slices that the caller lends: a row is a parent and a label code.
// A row that is glued away is taken out at once, so that the rows left are the table of the definition literally.
// `parent` and `label` are two parameters and no struct: sweeps and depths take one of them, and pool lends `glue_two` a part of each, so a struct
// would be made there for every sign. So are x and y, of which x stands for y: each is asked for alone as often as with the other.
#![tactic(auto)]

mod merging; // merging.rt: one row stands for two
mod levels; // levels.rt: two nodes of a table, level by level
pub mod trees; // trees.rt: between two trees, and inside one
