// The length of a normal form, counted row by row before the first byte is written.
ghost use Rattle.std.specs.Prelude.{◌≡◌, suc, ◌<◌, ◌≤◌, length};
ghost use Rattle.meaning.specs.Limits.{most_nodes};
ghost use Rattle.meaning.specs.Number.{largest_label};
ghost use Rattle.meaning.specs.Normal.{normal, word_of};
ghost use Rattle.rows.specs.Rows.{lab_of};
ghost use Rattle.rows.specs.Trees.{tree_of};
ghost use Rattle.ways.specs.Ways.{IsClimb};
ghost use Rattle.normal.specs.Forms.{IsQuery, AreRows};
ghost use Rattle.normal.specs.Weights.{lab_weight, branching, row_weight, rows_weight};

use crate::ends::Ends;
use branches::on_way;
use rows::TreeRows;
use word::sign::Sign;

// A label's sign and the sign that joins it; a wildcard has none.
#[tactic(auto, unfolding(crate::specs::Weights::lab_weight), using(crate::proofs::Counting::label_some, crate::proofs::Counting::label_short))]
fn label_weight(x: u32) -> usize
    requires { x ≤ suc largest_label }
    ensures { (result ≡ lab_weight (lab_of x)) × (result ≤ 4) }
{
    if x == 0 {
        0
    } else {
        groups::number_length(Sign::Label(x - 1).number()) + 1
    }
}

// The children of row p that are off the ways are branches of their own.
#[tactic(auto, unfolding(crate::specs::Weights::branching, crate::specs::Weights::on_way))]
fn branches_at(rows: &TreeRows, ends: &Ends, p: usize) -> bool
    requires { p < most_nodes }
    ensures { result ≡ branching rows.now.kids rows.now.span ends.now.s ends.now.d p }
{
    on_way(rows, p, ends.s, ends.d) || 1 < rows.kids[p]
}

// What row u adds: its label, and, but for the top, its step and the projection of a branch.
#[tactic(auto, unfolding(crate::specs::Weights::row_weight, crate::specs::Weights::on_way))]
fn row_weight(rows: &TreeRows, ends: &Ends, u: usize) -> usize
    requires { IsClimb rows.now u u }
    ensures { (result ≡ row_weight rows.now.code rows.now.kids rows.now.span rows.now.up ends.now.s ends.now.d u)
        × (result ≤ 7) }
{
    let own = label_weight(rows.code[u]);
    if u == 0 {
        own
    } else if !on_way(rows, u, ends.s, ends.d) && branches_at(rows, ends, rows::at(&rows.up, u)) {
        own + 3
    } else {
        own + 2
    }
}

// What all rows add. A loop: std's `sum` takes its bound from a `requires`, and here it follows from what one row adds.
#[tactic(auto, using(crate::proofs::Counting::rows_next, crate::proofs::Counting::rows_none, crate::proofs::Counting::rows_all, crate::proofs::Counting::climb_self))]
fn rows_weight(rows: &TreeRows, ends: &Ends) -> usize
    requires { AreRows rows.now }
    ensures { result
        ≡ rows_weight rows.now.code rows.now.kids rows.now.span rows.now.up ends.now.s ends.now.d rows.now.len 0 }
{
    let mut weight: usize = 0;
    for u in 0..rows.len {
        weight += row_weight(rows, ends, u);
    }
    weight
}

// The length of the normal form, counted row by row. The first factor is joined to nothing, which takes one sign away; if t is not the top, there is
// one second projection, which puts it back.
#[tactic(auto, using(crate::proofs::Forms::form_empty, crate::proofs::Counting::unmarked, crate::proofs::Counting::counted_above, crate::proofs::Counting::counted_none, crate::proofs::Counting::counted_some))]
pub fn form_length(rows: &TreeRows) -> usize
    requires { IsQuery rows.now }
    ensures { result ≡ length (word_of (normal (tree_of rows.now))) }
{
    if rows.len == 0 {
        return 1;
    }
    let ends = Ends::of(rows);
    let weight = rows_weight(rows, &ends);
    if ends.t != 0 {
        return weight;
    }
    if weight == 0 {
        return 1;
    }
    weight - 1
}
