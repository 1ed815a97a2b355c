// The folding test: "u folds onto v when u's label is a wildcard or equals v's, u's marks are among v's, and every child of u folds onto some child
// of v", over rows in image order of which some have gone. Row u stands in one tree and row v in another: brothers of one tree are held against each
// other by lending it twice. A row is told by its tree and its number: a type of both, with `Stands` for its invariant, would be made anew for each
// child.
#![tactic(auto)]

ghost use Rattle.std.specs.Prelude.{◌≡◌, ◌<◌};
ghost use Rattle.meaning.specs.Limits.{most_nodes};
ghost use Rattle.meaning.specs.Folding.{LabLe, TagLe};
ghost use Rattle.rows.specs.Rows.{lab_of};
ghost use Rattle.onto.specs.Left.{nodes_of, tag_of, gone_at, Gone};
ghost use Rattle.onto.specs.Onto.{Tells, MarksLe, FitsLeft, ChildrenFold, OntoRow, Lands, Stands};

use rows::{GONE, Marks, TreeRows, at};

// "u's marks are among v's": most rows bear none.
#[tactic(auto, using(crate::proofs::Onto::marks_none, crate::proofs::Onto::marks_tell))]
fn marks_fit(s: u8, t: u8) -> bool
    ensures { Tells (MarksLe s t) result }
{
    s == 0 || (s & t) % 4 == s % 4
}

// "u's label is a wildcard or equals v's", by their codes
#[tactic(auto, using(crate::proofs::Onto::label_any, crate::proofs::Onto::label_tells))]
fn label_fits(x: u32, y: u32) -> bool
    ensures { Tells (LabLe (lab_of x) (lab_of y)) result }
{
    x == 0 || x == y
}

// "u's label is a wildcard or equals v's, u's marks are among v's": the labels first, since most pairs differ in them.
fn fits(t: &TreeRows, u: usize, other: &TreeRows, v: usize) -> bool
    requires { (u < most_nodes) × (v < most_nodes) }
    ensures { Tells (TagLe (tag_of (nodes_of t.now) u) (tag_of (nodes_of other.now) v)) result }
{
    label_fits(t.code[u], other.code[v]) && marks_fit(t.mark[u], other.mark[v])
}

// Row u has gone.
pub fn is_gone(mark: &Marks, u: usize) -> bool
    requires { u < most_nodes }
    ensures { result ≡ gone_at mark.now u }
{
    bits::bit_of(mark[u], GONE)
}

// The mark of a row that goes.
pub fn gone(mark: u8) -> u8
    ensures { Gone mark result }
{
    mark | 128
}

// Row b is still there, and row a fits it.
#[tactic(auto, using(crate::proofs::Onto::left_fits, crate::proofs::Onto::gone_fits))]
fn fits_left(t: &TreeRows, a: usize, other: &TreeRows, b: usize) -> bool
    requires { (a < most_nodes) × (b < most_nodes) }
    ensures { Tells (FitsLeft (nodes_of t.now) a (nodes_of other.now) b) result }
{
    !is_gone(&other.mark, b) && fits(t, a, other, b)
}

// Row a folds onto some child of row v. A child that it does not fit costs no call, and none does where a has nothing below it.
#[cycle(children_fold_lands)]
fn lands(t: &TreeRows, a: usize, other: &TreeRows, v: usize) -> bool
    requires { Stands (nodes_of t.now) a × Stands (nodes_of other.now) v }
    ensures { Tells (Lands (nodes_of t.now) a (nodes_of other.now) v) result }
{
    for b in other.children(v) {
        if fits_left(t, a, other, b) && (at(&t.span, a) == 1 || children_fold(t, a, other, b)) {
            return true;
        }
    }
    false
}

// "every child of u folds onto some child of v"
#[cycle(children_fold_lands)]
fn children_fold(t: &TreeRows, u: usize, other: &TreeRows, v: usize) -> bool
    requires { Stands (nodes_of t.now) u × Stands (nodes_of other.now) v }
    ensures { Tells (ChildrenFold (nodes_of t.now) u (nodes_of other.now) v) result }
{
    for a in t.children(u) {
        if !is_gone(&t.mark, a) && !lands(t, a, other, v) {
            return false;
        }
    }
    true
}

// "u's label is a wildcard or equals v's, u's marks are among v's, and every child of u folds onto some child of v"
#[tactic(auto, using(crate::proofs::Onto::both_tell, crate::proofs::Onto::first_fails))]
pub fn folds_onto(t: &TreeRows, u: usize, other: &TreeRows, v: usize) -> bool
    requires { Stands (nodes_of t.now) u × Stands (nodes_of other.now) v }
    ensures { Tells (OntoRow (nodes_of t.now) u (nodes_of other.now) v) result }
{
    fits(t, u, other, v) && children_fold(t, u, other, v)
}
