// Whether a query selects a pair, by its match table: the ways from s and from d up to the top, each node at its only possible place.
#![tactic(auto)]

ghost use Rattle.std.specs.Prelude.{◌≡◌, ◌↔◌, List, true, ℕ, ◌≤◌, ◌<◌, length, get_or, MatchOption};
ghost use Rattle.meaning.specs.Limits.{most_nodes, most_rows};
ghost use Rattle.meaning.specs.Tree.{Takes};
ghost use Rattle.meaning.specs.Matching.{doc_of, table_bytes};
ghost use Rattle.rows.specs.Rows.{tree_rows};
ghost use Rattle.pair.specs.Pair.{Asked, Step, OneWay, TwoWays};

use document::table::parent_at;
use rows::TreeRows;

// A row of the query and the document node that it lies on.
#[derive(Clone, Copy)]
struct Place {
    row: usize,
    node: usize,
}

// The table is any bytes that are long enough, with a clause, as `pair_selected` is lent it (docs/PROMISES.md names it). Table, rows and parents are
// three references here and below: a struct of them would be made for one call.
// Whether row u may lie on node x and the row above it on x's parent.
fn can_climb(w: &[u8], u: usize, x: usize) -> bool
    requires { (u < most_nodes) × (x < most_rows) × (table_bytes ≤ length w.now) }
    ensures { (result ≡ true) ↔ Step w.now u x }
{
    x != 0 && bits::test_bit(w, u, x)
}

// The row above, on the parent of the node; None where it may not lie there.
fn climb(w: &[u8], rows: &TreeRows, parents: &[u32], from: Place) -> Option<Place>
    requires { (from.row < most_nodes) × (from.node < most_rows) × (table_bytes ≤ length w.now) × (from.node < length parents.now) }
    ensures { MatchOption result (Step w.now from.row from.node → ⊥) (λ p. Step w.now from.row from.node
        × (p.row ≡ get_or rows.now.up from.row 0) × (p.node ≡ get_or parents.now from.node 0)) }
{
    if !can_climb(w, from.row, from.node) {
        return None;
    }
    Some(Place {
        row: rows::at(&rows.up, from.row),
        node: parent_at(parents, from.node),
    })
}

// Whether the way from a row up to the top can be laid with the row on its node.
fn climbs(w: &[u8], rows: &TreeRows, parents: &[u32], from: Place) -> bool
    requires { (mark : List ℕ) × (q : Asked w.now mark rows.now.up parents.now) × (from.row < q.rows) × (from.node < length parents.now) }
    ensures { (mark : List ℕ) (q : Asked w.now mark rows.now.up parents.now) → from.row < q.rows
        → (result ≡ true) ↔ OneWay w.now rows.now.up parents.now q.span from.row from.node }
{
    let mut at = from;
    while 0 < at.row {
        let Some(above) = climb(w, rows, parents, at) else {
            return false;
        };
        at = above;
    }
    bits::test_bit(w, 0, at.node)
}

// The place at which the ways up from two places meet: the later row steps up, with its place, until both are at one row, and there the nodes must be
// the same. None where the two ways can't be laid at once up to there.
fn meet(w: &[u8], rows: &TreeRows, parents: &[u32], mut s: Place, mut d: Place) -> Option<Place>
    requires { (mark : List ℕ) × (q : Asked w.now mark rows.now.up parents.now) × (s.row < q.rows) × (d.row < q.rows)
        × (s.node < length parents.now) × (d.node < length parents.now) }
    ensures { (mark : List ℕ) (q : Asked w.now mark rows.now.up parents.now) → s.row < q.rows → d.row < q.rows
        → MatchOption result (TwoWays w.now rows.now.up parents.now q.span s.row s.node d.row d.node → ⊥)
        (λ p. (p.row < q.rows) × (p.node < length parents.now)
        × (TwoWays w.now rows.now.up parents.now q.span s.row s.node d.row d.node
        ↔ OneWay w.now rows.now.up parents.now q.span p.row p.node)) }
{
    while s.row != d.row {
        if d.row < s.row {
            s = climb(w, rows, parents, s)?;
        } else {
            d = climb(w, rows, parents, d)?;
        }
    }
    if s.node != d.node {
        return None;
    }
    Some(s)
}

// Whether a query that is not empty selects (m, n), by its match table: the ways up from s on m and from d on n meet, and from there one way leads to
// the top.
pub fn pair_selected(workspace: &[u8], rows: &TreeRows, parents: &[u32], m: usize, n: usize) -> bool
    requires { Asked workspace.now rows.now.mark rows.now.up parents.now × (m < length parents.now) × (n < length parents.now) }
    ensures { (q : Asked workspace.now rows.now.mark rows.now.up parents.now)
        → (result ≡ true) ↔ Takes (tree_rows q.code rows.now.mark q.span q.rows) (doc_of parents.now q.labels) m n }
{
    let s = Place {
        row: rows::row_of(&rows.mark, rows::S),
        node: m,
    };
    let d = Place {
        row: rows::row_of(&rows.mark, rows::D),
        node: n,
    };
    let Some(met) = meet(workspace, rows, parents, s, d) else {
        return false;
    };
    climbs(workspace, rows, parents, met)
}
