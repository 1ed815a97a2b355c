// Branches and a node's own factors, written behind what the writer has. Factors are joined from the left: the first of them went to place `from`, so
// a factor that goes to a later place is followed by the sign of composition. A row is told by its tree and its number: a type of both, with `IsRow`
// for its invariant, would be made anew for each child. `from` goes beside the writer and not into it: each branch starts a chain with a first of its
// own.
#![tactic(auto)]

ghost use Rattle.std.specs.Prelude.{◌||◌, [], ◌∷◌, suc, ◌+◌, ◌<◌, ◌≤◌, ◌≡◌, length, get_or, ltb};
ghost use Rattle.meaning.specs.Limits.{most_nodes};
ghost use Rattle.meaning.specs.Number.{num, largest_label};
ghost use Rattle.meaning.specs.Normal.{branch as branchOf};
ghost use Rattle.rows.specs.Rows.{covers};
ghost use Rattle.word.specs.Sign.{number_of, Numbered};
ghost use Rattle.groups.specs.Filled.{filled, Fits};
ghost use Rattle.branches.specs.Joining.{joint, factor, Takes, filled_by};
ghost use Rattle.branches.specs.Factors.{IsRow, label_at, chain_at, own_at};

use groups::Writer;
use rows::TreeRows;
use word::sign::Sign;

// The factor that went to place `at` is joined to what stands before it.
#[tactic(auto, using(crate::proofs::Joining::joint_none))]
pub fn join(w: &mut Writer, from: usize, at: usize)
    requires { Fits w.old (joint (ltb from at)) }
    ensures { w.new ≡ filled w.old (joint (ltb from at)) }
{
    if from < at {
        w.put_number(Sign::Composition.number());
    }
}

// The factors that went to place `at` are put under a projection, and that is joined to what stands before it.
#[tactic(auto, using(crate::proofs::Joining::fits_rest, crate::proofs::Joining::filled_both))]
pub fn project(w: &mut Writer, from: usize, at: usize, projection: Sign)
    requires { Numbered projection × Fits w.old (factor from at (num (number_of projection))) }
    ensures { w.new ≡ filled w.old (factor from at (num (number_of projection))) }
{
    w.put_number(projection.number());
    join(w, from, at);
}

// A factor of one sign.
pub fn put_sign(w: &mut Writer, from: usize, sign: Sign)
    requires { Numbered sign × Fits w.old (factor from w.old.length (num (number_of sign))) }
    ensures { w.new ≡ filled w.old (factor from w.old.length (num (number_of sign))) }
{
    let at = w.length;
    project(w, from, at, sign);
}

// "its label, if any": code L + 1 is the sign 9 + L
fn put_label(w: &mut Writer, rows: &TreeRows, from: usize, u: usize)
    requires { (u < most_nodes) × (get_or rows.now.code u 0 ≤ suc largest_label)
        × Takes from w.old (label_at rows.now.code u) }
    ensures { w.new ≡ filled_by from w.old (label_at rows.now.code u) }
{
    let x = rows.code[u];
    if x != 0 {
        put_sign(w, from, Sign::Label(x - 1));
    }
}

// "A branch is written as a chain", under one first projection.
#[cycle(branch_chain)]
fn branch(w: &mut Writer, rows: &TreeRows, from: usize, u: usize)
    requires { IsRow rows.now u × (from ≤ w.old.length)
        × Takes from w.old (branchOf (chain_at rows.now.code rows.now.span u) ∷ []) }
    ensures { w.new ≡ filled_by from w.old (branchOf (chain_at rows.now.code rows.now.span u) ∷ []) }
{
    let at = w.length;
    chain(w, rows, at, u);
    project(w, from, at, Sign::FirstProjection);
}

// "Child, the node's label, and then, if it has exactly one child, the chain goes on with that child; if it has more, one first projection each."
#[cycle(branch_chain)]
fn chain(w: &mut Writer, rows: &TreeRows, from: usize, u: usize)
    requires { IsRow rows.now u × (from ≤ w.old.length)
        × Takes from w.old (chain_at rows.now.code rows.now.span u) }
    ensures { w.new ≡ filled_by from w.old (chain_at rows.now.code rows.now.span u) }
{
    put_sign(w, from, Sign::Child);
    put_label(w, rows, from, u);
    if rows.kids[u] == 1 {
        return chain(w, rows, from, u + 1);
    }
    for c in rows.children(u) {
        branch(w, rows, from, c);
    }
}

// Row c is on the way to row x or to row y.
pub fn on_way(rows: &TreeRows, c: usize, x: usize, y: usize) -> bool
    requires { c < most_nodes }
    ensures { result ≡ (covers rows.now.span c x || covers rows.now.span c y) }
{
    rows.holds(c, x) || rows.holds(c, y)
}

// "A node's own factors are its label, if any, and then one first projection for each child off those ways", the ways to row x and to row y.
// Inlined into the ways, which call it once for each row.
#[inline]
pub fn own(w: &mut Writer, rows: &TreeRows, from: usize, u: usize, x: usize, y: usize)
    requires { IsRow rows.now u × (from ≤ w.old.length)
        × Takes from w.old (own_at rows.now.code rows.now.span x y u) }
    ensures { w.new ≡ filled_by from w.old (own_at rows.now.code rows.now.span x y u) }
{
    put_label(w, rows, from, u);
    for c in rows.children(u) {
        if !on_way(rows, c, x, y) {
            branch(w, rows, from, c);
        }
    }
}
