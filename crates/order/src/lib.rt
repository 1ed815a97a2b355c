// Brothers in ascending byte order: from a table of parents to rows in image order.
// The children of each row become a list, which is in order from the start; then the tree is laid out as rows.
#![tactic(auto)]

mod children; // children.rt: the children of each row, as lists
mod key; // key.rt: one number for the head of a record
mod sorting; // sorting.rt: comparing two brothers, and putting all in order
mod laying; // laying.rt: lists laid out as rows

ghost use Rattle.std.specs.Prelude.{◌≡◌};
ghost use Rattle.meaning.specs.Image.{ordered};
ghost use Rattle.rows.specs.Table.{ParentsFirst};
ghost use Rattle.rows.specs.Trees.{IsTree, HasRoom, tree_of};
ghost use Rattle.order.specs.Contract.{IsTable, tree_of_table, Lent};

use crate::laying::lay;
pub use children::Lists;
use limits::most::MOST_NODES;
use rows::{Marks, TreeRows};

// The first n rows of a table of parents: parent[i] is the row of i's parent, and NO_ROW at the top; code[i] and mark[i] are what row i bears. That
// they are a tree is a clause and no invariant: `image_rows` and `tree_rows`, which docs/PROMISES.md names, take any slices of which it holds.
#[derive(Clone, Copy)]
pub struct Table<'a> {
    pub parent: &'a [u16],
    pub code: &'a [u32],
    pub mark: &'a Marks,
    pub n: usize,
}

// The tree of a table as rows in image order. A row's parent stands before it, and the top is row 0. The lists are lent to work in, and what they are
// left with means nothing.
pub fn image_rows(table: Table<'_>, lists: &mut Lists, rows: &mut TreeRows)
    requires { IsTable table × ParentsFirst table.parent.now table.n }
    ensures { IsTree rows.new × (tree_of rows.new ≡ ordered (tree_of_table table.entry)) × (rows.new.len ≡ table.entry.n)
        × HasRoom rows.new }
{
    let mut key = [0u64; MOST_NODES];
    lists.sort_rows(table, &mut key);
    lay(table, lists, rows);
}

// The tree of a table whose rows stand in any order, as rows with brothers in the order of the table. The rest is as in `image_rows`. What differs is
// one call in two, and its promise: a function that takes the step as a closure would be no shorter, and its clauses longer.
pub fn tree_rows(table: Table<'_>, lists: &mut Lists, rows: &mut TreeRows)
    requires { IsTable table }
    ensures { IsTree rows.new × (tree_of rows.new ≡ tree_of_table table.entry) × (rows.new.len ≡ table.entry.n)
        × HasRoom rows.new × Lent lists.new.first lists.new.next }
{
    lists.gather(table.parent, table.n);
    lay(table, lists, rows);
}
