// From an accepted word to the rows of its plain or of its minimal tree. What gluing works in is lent on to what comes after it: clearing a table
// takes longer than most of the work on a short word.
#![tactic(auto)]

ghost use Rattle.meaning.specs.Gluing.{plain};
ghost use Rattle.rows.specs.Table.{image_tree};
ghost use Rattle.query.specs.Trees.{Accepted, RowsOf};

use glue::trees::kept;
use limits::most::MOST_NODES;
use pool::build::{POOL_ROWS, build};
use rows::TreeRows;
use tree::{Lists, Query, query_rows};

// The plain tree, or the minimal tree, as rows in image order. That the word is accepted is a clause and no type: `word_rows` and `build`, which
// docs/PROMISES.md names, take any bytes of which it holds.
pub fn word_rows(folded: bool, word: &[u8], rows: &mut TreeRows)
    requires { Accepted word.now }
    ensures { RowsOf (λ e. image_tree folded (plain e)) word.now rows.new }
{
    let mut parent = [0u16; POOL_ROWS];
    let mut label = [0u32; POOL_ROWS];
    let mut lists = Lists {
        first: [0; MOST_NODES + 1],
        next: [0; MOST_NODES + 1],
    };
    let mut row = [0u16; MOST_NODES];
    let built = kept(build(
        word,
        &mut parent,
        &mut label,
        &mut lists.first,
        &mut lists.next,
        &mut row,
    ));
    let query = Query {
        parent: &parent,
        label: &label,
        n: built.rows,
        s: built.s,
        d: built.d,
    };
    query_rows(folded, query, &mut lists, rows);
}
