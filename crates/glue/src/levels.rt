// "Gluing two nodes glues their parents too, level by level": two rows of one table, and where three of its nodes go.
ghost use Rattle.std.specs.Prelude.{◌≡◌, ◌-◌, ◌<◌};
ghost use Rattle.meaning.specs.Gluing.{glue, moved};
ghost use Rattle.theory.proofs.Apart.{Safe};
ghost use Rattle.rows.specs.Table.{parent_of, table};
ghost use Rattle.glue.specs.Rows.{RowsFit};
ghost use Rattle.glue.specs.Levels.{next_of, Leads, marked, joined_of, onward};

use crate::merging::{meet_labels, merge_rows, or_else, renumber, row_above};

// A table with three of its nodes.
#[derive(Clone, Copy)]
pub struct Joined {
    pub rows: usize,
    pub s: usize,
    pub d: usize,
    pub d2: usize,
}

// The parents u and v of two rows that became one, once y is out and x stands for it; none where one of the two has no parent.
fn next_level(x: usize, y: usize, u: u16, v: u16) -> Option<(usize, usize)>
    ensures { result ≡ next_of (moved x y) (parent_of u) (parent_of v) }
{
    let p = row_above(u)?;
    let q = row_above(v)?;
    Some((renumber(x, y, p), renumber(x, y, q)))
}

// Row y of the n rows goes into row x, unless their labels clash; then the parents of the two are next, if both have one. No row below `from` is
// taken out.
fn glue_level(
    parent: &mut [u16],
    label: &mut [u32],
    from: usize,
    n: usize,
    x: usize,
    y: usize,
) -> Option<Option<(usize, usize)>>
    requires { RowsFit n parent.old label.old × (x < n) × (y < n) × (x ≡ y → ⊥) × Safe from (table n parent.old label.old) x y }
    ensures { Leads from n x y (table n parent.old label.old) result
        (table (n - 1) parent.new label.new) }
{
    let u = parent[x];
    let v = parent[y];
    let m = meet_labels(label[x], label[y])?;
    merge_rows(parent, label, from, n, x, y, or_else(u, v), m);
    Some(next_level(x, y, u, v))
}

// One row less, and where the three nodes are then.
fn renumbered(t: Joined, x: usize, y: usize) -> Joined
    requires { 0 < t.rows }
    ensures { result ≡ onward (moved x y) t }
{
    Joined {
        rows: t.rows - 1,
        s: renumber(x, y, t.s),
        d: renumber(x, y, t.d),
        d2: renumber(x, y, t.d2),
    }
}

// Glues row b to row a and their parents, until one has no parent or both are the same row; two labels that clash give none.
pub fn glue_rows(
    parent: &mut [u16],
    label: &mut [u32],
    from: usize,
    t: Joined,
    a: usize,
    b: usize,
) -> Option<Joined>
    requires { RowsFit t.rows parent.old label.old × Safe from (table t.rows parent.old label.old) a b }
    ensures { let T = table t.rows parent.old label.old in
        joined_of result parent.new label.new ≡ marked (glue t.rows T a b) t.s t.d t.d2 }
{
    let mut r = t;
    let mut x = a;
    let mut y = b;
    while x != y {
        let n = r.rows;
        let next = glue_level(parent, label, from, n, x, y)?;
        r = renumbered(r, x, y);
        let Some((p, q)) = next else {
            return Some(r);
        };
        x = p;
        y = q;
    }
    Some(r)
}
