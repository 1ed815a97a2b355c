// Two tree queries glued to one: "between two trees until one of them has no further ancestor, inside one tree until the two ancestors are the
// same node".
ghost use Rattle.std.specs.Prelude.{◌≡◌, cond, List, ℕ, ◌+◌, ◌≤◌, ◌<◌, length, get_or, drop};
ghost use Rattle.std.proofs.Math.Option.{some};
ghost use Rattle.meaning.specs.TreeQuery.{TreeQuery};
ghost use Rattle.meaning.specs.Gluing.{join, across, depth, two};
ghost use Rattle.theory.proofs.Plain.{TreeO};
ghost use Rattle.rows.specs.Table.{parent_of, table};
ghost use Rattle.glue.specs.Rows.{pool_rows, Relinked, RowsFit};
ghost use Rattle.glue.specs.Levels.{marked, marked_at, joined_of};
ghost use Rattle.glue.specs.Trees.{query_from, kept, rows_in, built_of, built_from, chosen, InTree, within_of};

use crate::levels::{Joined, glue_rows};
use crate::merging::{row_above, sweep};
use rows::NO_ROW;

// A tree query that was built: its number of rows and its two marks. What may be empty is an `Option` of it.
#[derive(Clone, Copy)]
pub struct Built {
    pub rows: usize,
    pub s: usize,
    pub d: usize,
}

// What a table keeps of a query that may be empty: of empty no rows, and marks that do not matter.
pub fn kept(built: Option<Built>) -> Built
    ensures { result ≡ kept built }
{
    built.unwrap_or(Built {
        rows: 0,
        s: 0,
        d: 0,
    })
}

// A link that counts from the first row of the other table.
fn shifted(na: u16, p: u16) -> u16
    requires { (na ≤ pool_rows) × ((q : ℕ) → parent_of p ≡ some q → q < pool_rows) }
    ensures { Relinked (λ q. na + q) p result }
{
    if p == NO_ROW {
        return NO_ROW;
    }
    na + p
}

// Two tables side by side become one: the links of the nb rows behind the first na grow by na.
fn shift_rows(parent: &mut [u16], na: usize, nb: usize)
    requires sizes { (na + nb ≤ pool_rows) × (na + nb ≤ length parent.old) }
    requires low_links { (i p : ℕ) → i < nb → parent_of (get_or (drop na parent.old) i 0) ≡ some p → p < pool_rows }
    ensures { (L : List ℕ) → table (na + nb) parent.new L
        ≡ join (table na parent.old L) (table nb (drop na parent.old) (drop na L)) }
{
    let k = na as u16;
    sweep(parent, na, na + nb, 0, |p| shifted(k, p));
}

// "Composition glues the first's d to the second's s; intersection glues s to s".
fn meeting(p: Built, both: bool) -> usize
    ensures { result ≡ cond both p.s p.d }
{
    if both {
        return p.s;
    }
    p.d
}

// The query p in the first rows and the query q in the rows behind them: their first gluing, and where p's s and d and q's d are then.
fn glue_across(
    parent: &mut [u16],
    label: &mut [u32],
    p: Built,
    q: Built,
    both: bool,
) -> Option<Joined>
    requires rows_fit { RowsFit (p.rows + q.rows) parent.old label.old }
    requires tree_queries { TreeQuery (query_from 0 p parent.old label.old) × TreeQuery (query_from p.rows q parent.old label.old) }
    ensures { let A = table p.rows parent.old label.old in
        let B = table q.rows (drop p.rows parent.old) (drop p.rows label.old) in
        joined_of result parent.new label.new
        ≡ marked (across A (cond both p.s p.d) B q.s) p.s p.d (length A + q.d) }
{
    let na = p.rows;
    shift_rows(parent, na, q.rows);
    let t = Joined {
        rows: na + q.rows,
        s: p.s,
        d: p.d,
        d2: na + q.d,
    };
    glue_rows(parent, label, na, t, meeting(p, both), na + q.s)
}

// How many edges lead from row x up to the top.
fn depth_of(parent: &[u16], n: usize, x: usize) -> usize
    requires { (n ≤ length parent.now) × (x < n) × ((i p : ℕ) → i < n → parent_of (get_or parent.now i 0) ≡ some p → p < n) }
    ensures { (L : List ℕ) → result ≡ depth n (table n parent.now L) x }
{
    let mut i = x;
    for k in 0..n {
        let Some(p) = row_above(parent[i]) else {
            return k;
        };
        i = p;
    }
    n
}

// Glues node d2 to node d inside one tree; none, which is empty, "when the two lie at different depths". The marks are s and d.
fn glue_within(parent: &mut [u16], label: &mut [u32], t: Joined) -> Option<Built>
    requires { RowsFit t.rows parent.old label.old × InTree (marked_at t parent.old label.old) }
    ensures { built_of result parent.new label.new ≡ within_of (marked_at t parent.old label.old) }
{
    let n = t.rows;
    let x = t.d;
    let y = t.d2;
    let a = depth_of(parent, n, x);
    let b = depth_of(parent, n, y);
    if a != b {
        return None;
    }
    let r = glue_rows(parent, label, 0, t, x, y)?;
    Some(Built {
        rows: r.rows,
        s: r.s,
        d: r.d,
    })
}

// Composition, or intersection, which "glues s to s, then d to d in that result". "Empty in any operand gives empty." `both` is a bool: an enum of
// the two would be made of the sign by the test that makes the bool.
pub fn glue_two(
    parent: &mut [u16],
    label: &mut [u32],
    p: Option<Built>,
    q: Option<Built>,
    both: bool,
) -> Option<Built>
    requires rows_fit { RowsFit (rows_in p + rows_in q) parent.old label.old }
    requires trees { TreeO (built_of p parent.old label.old) × TreeO (built_from (rows_in p) q parent.old label.old) }
    ensures { built_of result parent.new label.new ≡ two (chosen both)
        (built_of p parent.old label.old) (built_from (rows_in p) q parent.old label.old) }
{
    let p = p?;
    let q = q?;
    let t = glue_across(parent, label, p, q, both)?;
    if both {
        return glue_within(parent, label, t);
    }
    Some(Built {
        rows: t.rows,
        s: t.s,
        d: t.d2,
    })
}
