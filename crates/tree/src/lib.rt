// From a table that is a tree query to its rows in image order: the plain tree, and the minimal tree. No rows: empty.
// What a caller has read, in whatever language, it puts into such a table. The lists to work in are lent, so that a caller may use them before.
#![tactic(auto)]

ghost use Rattle.std.specs.Prelude.{◌≡◌, ℕ, ◌<◌, ◌≤◌, get_or};
ghost use Rattle.meaning.specs.Limits.{most_nodes};
ghost use Rattle.meaning.specs.Tree.{plain_tree};
ghost use Rattle.meaning.specs.Image.{ordered};
ghost use Rattle.rows.specs.Table.{table_tree, left_of, image_tree};
ghost use Rattle.rows.specs.Trees.{IsTree, tree_of};
ghost use Rattle.tree.specs.Tables.{IsQuery, query_at, Ends, RowsAre, Sortable};

use limits::most::MOST_NODES;
pub use order::Lists;
use order::Table;
use rows::{Links, Marks, Starts, TreeRows};

// A table that is a tree query: the parents and label codes of its first n rows, and its nodes s and d. No rows, and no `Option`: empty is a table
// without rows to a reader of any language.
#[derive(Clone, Copy)]
pub struct Query<'a> {
    pub parent: &'a [u16],
    pub label: &'a [u32],
    pub n: usize,
    pub s: usize,
    pub d: usize,
}

// Marks s and d among the first n nodes, which bear no mark: bit 0 is s, bit 1 is d.
fn mark_ends(mark: &mut Marks, n: usize, s: usize, d: usize)
    requires { (n ≤ most_nodes) × (0 < n → (s < n) × (d < n)) × ((i : ℕ) → i < n → get_or mark.old i 0 ≡ 0) }
    ensures { Ends mark.new n s d }
{
    if n == 0 {
        return;
    }
    mark[s] = 1;
    mark[d] |= 2;
}

// The tree with brothers in the order of the table.
fn laid_rows(query: Query<'_>, lists: &mut Lists, rows: &mut TreeRows)
    requires { IsQuery query }
    ensures { RowsAre (plain_tree (query_at query.entry)) rows.new }
{
    let mut mark = [0u8; MOST_NODES];
    mark_ends(&mut mark, query.n, query.s, query.d);
    let table = Table {
        parent: query.parent,
        code: query.label,
        mark: &mark,
        n: query.n,
    };
    order::tree_rows(table, lists, rows);
}

// The rows that are left, all or those that folding to the end leaves, moved together, and the parent of each. Their numbers of children and their
// spans mean nothing until they are put in order. The table `child` is lent to work in.
fn left_rows(folded: bool, rows: &mut TreeRows, child: &mut Starts, parent: &mut Links)
    requires { IsTree rows.old }
    ensures { let r = rows.new in
        Sortable parent.new r.code r.mark r.len
        × (ordered (table_tree parent.new r.code r.mark r.len) ≡ ordered (left_of folded (tree_of rows.old))) }
{
    if !folded {
        *parent = rows.up;
        return;
    }
    fold::fold_rows(rows, child);
    rows.len = fold::keep_rows(rows, parent, child);
}

// The tree of rows with these parents, who stand before their children, with brothers in image order. The rows are written over their own place, from
// copies of their label codes and marks.
fn ordered_rows(parent: &Links, lists: &mut Lists, rows: &mut TreeRows)
    requires { Sortable parent.now rows.old.code rows.old.mark rows.old.len }
    ensures { RowsAre (ordered (table_tree parent.now rows.old.code rows.old.mark rows.old.len)) rows.new }
{
    let code = rows.code;
    let mark = rows.mark;
    let table = Table {
        parent,
        code: &code,
        mark: &mark,
        n: rows.len,
    };
    order::image_rows(table, lists, rows);
}

// The plain tree, or the minimal tree: laid out, folded to the end if it is to be, then put in order. `folded` is a flag with a name, as in
// `left_of`: the forms that a caller asks for are three (crate forms), two of them of the minimal tree, and one more enum would say no more.
pub fn query_rows(folded: bool, query: Query<'_>, lists: &mut Lists, rows: &mut TreeRows)
    requires { IsQuery query }
    ensures { RowsAre (image_tree folded (query_at query.entry)) rows.new }
{
    let mut parent = [0u16; MOST_NODES];
    laid_rows(query, lists, rows);
    left_rows(folded, rows, &mut lists.next, &mut parent);
    ordered_rows(&parent, lists, rows);
}
