// Folding rows in image order to the end, and the rows that are left put together.
#![tactic(auto)]

ghost use Rattle.std.specs.Prelude.{◌≡◌, ◌⊎◌, ◌≤◌, ◌<◌, length, get_or};
ghost use Rattle.meaning.specs.Limits.{most_nodes};
ghost use Rattle.rows.specs.Rows.{no_row};
ghost use Rattle.onto.specs.Left.{nodes_of, Remarked};
ghost use Rattle.fold.specs.Kept.{Whole, RowsFolded, parent_moved, Movable, RowMoved, Remains, RowsKept, SameShape};

use onto::is_gone;
use rows::{Links, NO_ROW, Starts, TreeRows, at, wide};

// "Folding stops when no two brothers anywhere in the tree are left that fold": from the last row to the first. The table `child` is lent to work in.
pub fn fold_rows(t: &mut TreeRows, child: &mut Starts)
    requires { Whole t.old.mark t.old.span t.old.len }
    ensures { RowsFolded (nodes_of t.old) t.old.len t.new.mark
        × Remarked t.old t.new
        × (length child.new ≡ length child.old) }
{
    for p in (0..t.len).rev() {
        brothers::fold_children(t, p, child);
    }
}

// The new number of row i's parent.
#[tactic(auto, using(crate::proofs::Moved::parent_top, crate::proofs::Moved::parent_row))]
fn parent_moved(up: &Links, moved: &[u16], i: usize) -> u16
    requires { (most_nodes ≤ length moved.now) × (i < most_nodes)
        × ((get_or up.now i 0 ≡ no_row) ⊎ (get_or up.now i 0 < most_nodes)) }
    ensures { result ≡ parent_moved up.now moved.now i }
{
    let p = up[i];
    if p == NO_ROW { NO_ROW } else { moved[wide(p)] }
}

// Row i is put at place j.
fn move_row(t: &mut TreeRows, i: usize, parent: &mut Links, moved: &mut [u16], j: usize)
    requires { Movable t.old.up i j × (most_nodes ≤ length moved.old) }
    ensures { RowMoved t.old.code t.old.mark t.old.up i parent.old moved.old j
        t.new.code t.new.mark parent.new moved.new
        × SameShape t.old t.new }
{
    t.code[j] = t.code[i];
    t.mark[j] = t.mark[i];
    parent[j] = parent_moved(&t.up, moved, i);
    moved[i] = j as u16;
}

// The rows that are still there, in their order, are put to the front, each with the new number of its parent. Returns how many there are.
// The slice `moved` is lent to work in: the new place of each row is noted there. It is beside the rows, not among them: their numbers of children
// stay.
pub fn keep_rows(t: &mut TreeRows, parent: &mut Links, moved: &mut [u16]) -> usize
    requires { Remains t.old.code t.old.mark t.old.span t.old.up t.old.len × (most_nodes ≤ length moved.old) }
    ensures { RowsKept t.old.code t.old.mark t.old.span t.old.len
        t.new.code t.new.mark parent.new result
        × SameShape t.old t.new × (length moved.new ≡ length moved.old) }
{
    let mut i: usize = 0;
    let mut j: usize = 0;
    // no `for`: a row that has gone is stepped over with all below it, and the rows change meanwhile, so no iterator over them can be held
    while i < t.len {
        if is_gone(&t.mark, i) {
            i += at(&t.span, i);
        } else {
            move_row(t, i, parent, moved, j);
            j += 1;
            i += 1;
        }
    }
    j
}
