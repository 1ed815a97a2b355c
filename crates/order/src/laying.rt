// A tree of links laid out as rows in image order.
ghost use Rattle.std.specs.Prelude.{◌≡◌};
ghost use Rattle.rows.specs.Trees.{IsTree, HasRoom, tree_of};
ghost use Rattle.order.specs.Links.{Listed};
ghost use Rattle.order.specs.Contract.{Tagged, tree_of_lists};

use crate::Table;
use crate::children::Lists;
use rows::{NO_ROW, TreeRows, at, wide};

// The parent of the top, as a row number: no `Option`, for it goes into the table of parents as it is.
const TOP: usize = NO_ROW as usize;

// Lays the tree at slot n out as rows. It goes down to the first child; where there is none, all below row u is laid out, and it goes on to u's next
// brother. The rows' own parents lead back up, so no call is open for a row: until all below a row is laid out, its span is its row in the table, and
// its number of children is that of its earlier brothers.
pub fn lay(table: Table<'_>, lists: &Lists, rows: &mut TreeRows)
    requires { Tagged table.code.now table.mark.now table.n × Listed table.n lists.now.first lists.now.next }
    ensures { IsTree rows.new × (tree_of rows.new ≡ tree_of_lists table.entry lists.now) × (rows.new.len ≡ table.entry.n)
        × HasRoom rows.new }
{
    let n = table.n;
    let mut v: usize = 0;
    let mut u = TOP;
    let mut x = at(&lists.first, n);
    // how many children of row u are laid out
    let mut k: u16 = 0;
    loop {
        if x < n {
            rows.code[v] = table.code[x];
            rows.mark[v] = table.mark[x];
            rows.kids[v] = k;
            rows.span[v] = x as u16;
            rows.up[v] = u as u16;
            x = at(&lists.first, x);
            u = v;
            k = 0;
            v += 1;
            continue;
        }
        if u == TOP {
            rows.len = n;
            return;
        }
        x = at(&lists.next, wide(rows.span[u]));
        rows.span[u] = (v - u) as u16;
        let before = rows.kids[u];
        rows.kids[u] = k;
        k = before + 1;
        u = wide(rows.up[u]);
    }
}
