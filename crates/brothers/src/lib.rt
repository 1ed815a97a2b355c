// The children of one row folded to the end: they are listed, each that folds onto another one goes, and the search goes on from its place.
// A row goes, with all below it, by a bit of its mark.
#![tactic(auto)]

ghost use Rattle.std.specs.Prelude.{◌≡◌, ◌+◌, ◌<◌, ◌≤◌, length, get_or};
ghost use Rattle.meaning.specs.Limits.{most_nodes};
ghost use Rattle.onto.specs.Left.{nodes_of, Remarked};
ghost use Rattle.onto.specs.Onto.{Stands};
ghost use Rattle.brothers.specs.Brothers.{Listed, Searchable, FirstFoldable, TakenOut, ChildrenFolded};

use onto::{folds_onto, gone, is_gone};
use rows::{Marks, Starts, TreeRows, wide};

// Lists the children of row p that are still there. Returns how many there are. A row is stored first and then counted, which spares a branch. The
// list is a table and the number k beside it, here and below: a table is lent as one pointer (docs/DECISIONS.md, "Tables of one number a node").
fn list_children(t: &TreeRows, p: usize, child: &mut Starts) -> usize
    requires { Stands (nodes_of t.now) p }
    ensures { Listed t.now.mark t.now.span p child.new result }
{
    let mut k: usize = 0;
    for c in t.children(p) {
        child[k] = c as u16;
        if !is_gone(&t.mark, c) {
            k += 1;
        }
    }
    k
}

// The first foldable pair: the place of the first of k listed children, from place `from` on, that folds onto another of them.
fn first_foldable(t: &TreeRows, child: &Starts, from: usize, k: usize) -> Option<usize>
    requires { Searchable (nodes_of t.now) child.now k }
    ensures { FirstFoldable (nodes_of t.now) child.now from k result }
{
    'pair: {
        for i in from..k {
            let u = wide(child[i]);
            for j in 0..k {
                if i != j && folds_onto(t, u, t, wide(child[j])) {
                    break 'pair Some(i);
                }
            }
        }
        None
    }
}

// The i-th listed child goes, and the last in the list, at k, takes its place there.
#[tactic(auto, using(crate::proofs::Children::loses))]
fn take_out(mark: &mut Marks, child: &mut Starts, i: usize, k: usize)
    requires { (i < most_nodes) × (k < most_nodes) × (get_or child.old i 0 < most_nodes) }
    ensures { TakenOut mark.old child.old i k mark.new child.new }
{
    let c = wide(child[i]);
    mark[c] = gone(mark[c]);
    child[i] = child[k];
}

// Each child of row p that folds onto another one goes. The search goes on from its place in the list: what did not fold before does not fold after.
pub fn fold_children(t: &mut TreeRows, p: usize, child: &mut Starts)
    requires { Stands (nodes_of t.old) p }
    ensures { ChildrenFolded (nodes_of t.old) p t.new.mark
        × Remarked t.old t.new
        × (length child.new ≡ length child.old) }
{
    let mut k = list_children(t, p, child);
    // most rows have one child or none
    if k < 2 {
        return;
    }
    let mut i: usize = 0;
    while let Some(next) = first_foldable(t, child, i, k) {
        i = next;
        k -= 1;
        take_out(&mut t.mark, child, i, k);
    }
}
