// The match table of a query in rows on a document, filled from the last query node to the first.
ghost use Rattle.std.specs.Prelude.{◌≡◌, List, true, ℕ, ◌≤◌, ◌<◌, length};
ghost use Rattle.meaning.specs.Matching.{doc_of, MatchTable, table_bytes};
ghost use Rattle.rows.specs.Rows.{tree_rows};
ghost use Rattle.document.specs.Nodes.{RowIs, RowClear};
ghost use Rattle.matching.specs.Table.{Query, LiesOn, Needs, Ready};

use crate::kinship::keep_parents;
use document::labels::label_row;
use document::table::Document;
use rows::TreeRows;

// Whether a child of query node u lies nowhere.
fn child_nowhere(w: &[u8], rows: &TreeRows, u: usize) -> bool
    requires { (table_bytes ≤ length w.now) × Query rows.now × (u < rows.now.len) }
    ensures { result ≡ true → (c : ℕ) × (u < c) × (c < rows.now.len) × Needs rows.now.span u c × RowClear w.now c }
{
    for c in rows.children(u) {
        if bits::row_clear(w, c) {
            return true;
        }
    }
    false
}

// Fills the clear row u: the nodes whose label fits, less those that lack a child for some child of u.
// Where the row is empty nothing is left to take away.
fn fill_row(w: &mut [u8], rows: &TreeRows, u: usize, document: &Document<'_>)
    requires { Ready w.old rows.now document.now u }
    ensures { RowIs w.old u (LiesOn rows.now document.now u) w.new }
{
    label_row(w, u, rows.code[u], document.labels);
    for c in rows.children(u) {
        if bits::row_clear(w, u) {
            return;
        }
        keep_parents(w, u, c, document);
    }
}

// Fills row u, when the rows behind it are filled. Where a child of u lies nowhere u lies nowhere, and the row stays clear.
fn match_row(w: &mut [u8], rows: &TreeRows, u: usize, document: &Document<'_>)
    requires { Ready w.old rows.now document.now u }
    ensures { RowIs w.old u (LiesOn rows.now document.now u) w.new }
{
    if child_nowhere(w, rows, u) {
        return;
    }
    fill_row(w, rows, u, document);
}

// Fills the match table of a query's rows on a document, from the last query node to the first. No rows are empty: all bits stay clear.
pub fn match_table(workspace: &mut [u8], rows: &TreeRows, document: &Document<'_>)
    requires { Query rows.now × (table_bytes ≤ length workspace.old) }
    ensures { (mark : List ℕ) → MatchTable (tree_rows rows.now.code mark rows.now.span rows.now.len)
        (doc_of document.now.parents.now document.now.labels.now) workspace.old workspace.new }
{
    bits::clear(workspace);
    for u in (0..rows.len).rev() {
        match_row(workspace, rows, u, document);
    }
}
