// Whether a word selects a pair of nodes on the document of a table: refusals 1 to 6, then 8, 9, 10, or yes or no with the match table in the
// workspace's first 32,768 bytes.
ghost use Rattle.meaning.specs.Matching.{doc_of};
ghost use Rattle.meaning.specs.Promise.{Selected};
ghost use Rattle.meaning.specs.Word.{answered};
ghost use Rattle.limits.specs.Refusal.{outcome_of};
ghost use Rattle.query.specs.Trees.{Accepted};
ghost use Rattle.rows.specs.Trees.{tree_of};
ghost use Rattle.normal.specs.Forms.{IsQuery};
ghost use Rattle.pathplus.specs.Answer.{question};
ghost use Rattle.pathplus.specs.Pair.{NotRefused, Taken};

use document::table::Document;
use limits::refusal::Refusal::{BadTable, NoSuchNode, WorkspaceTooShort};
use limits::refusal::Refused;
use rows::TreeRows;
use word::whole::check_word;

// The bytes of the match table: 256 rows of 128 bytes.
const TABLE_BYTES: usize = 32768;

// Whether the rows take the pair, with their match table in the workspace; no rows are empty, which selects nothing.
// The document, the pair and the workspace stay parameters: a struct of them would be made for `tell` alone, and `taken` would take it apart again.
fn taken(rows: &TreeRows, document: &Document<'_>, m: usize, n: usize, workspace: &mut [u8]) -> bool
    requires { IsQuery rows.now × NotRefused document.now.parents.now document.now.labels.now m n workspace.old }
    ensures { Taken (tree_of rows.now) (doc_of document.now.parents.now document.now.labels.now) m n result workspace.old workspace.new }
{
    matching::filling::match_table(workspace, rows, document);
    if rows.len == 0 {
        return false;
    }
    pair::pair_selected(workspace, rows, document.parents, m, n)
}

// Yes or no, once nothing is left to refuse. `NotRefused` has all of refusals 8, 9 and 10, so a good table too, which `Document` holds: one notion.
fn tell(word: &[u8], document: &Document<'_>, m: usize, n: usize, workspace: &mut [u8]) -> bool
    requires { Accepted word.now × NotRefused document.now.parents.now document.now.labels.now m n workspace.old }
    ensures { Selected (question word.now document.now.parents.now document.now.labels.now m n workspace.old)
        (answered result) workspace.new }
{
    let mut rows = TreeRows::none();
    query::word_rows(true, word, &mut rows);
    taken(&rows, document, m, n, workspace)
}

// The pair question of an accepted word: refusals 8, 9 and 10.
fn ask(
    word: &[u8],
    parents: &[u32],
    labels: &[u32],
    m: u64,
    n: u64,
    workspace: &mut [u8],
) -> Result<bool, Refused>
    requires { Accepted word.now }
    ensures { Selected (question word.now parents.now labels.now m n workspace.old)
        (outcome_of result) workspace.new }
{
    let Some(document) = Document::checked(parents, labels) else {
        return Err(BadTable.at(0));
    };
    let nodes = parents.len() as u64;
    if nodes <= m || nodes <= n {
        return Err(NoSuchNode.at(0));
    }
    if workspace.len() < TABLE_BYTES {
        return Err(WorkspaceTooShort.at(TABLE_BYTES));
    }
    Ok(tell(word, &document, m as usize, n as usize, workspace))
}

// Whether a word selects the pair (m,n) on the document of a table.
pub fn selects(
    word: &[u8],
    parents: &[u32],
    labels: &[u32],
    m: u64,
    n: u64,
    workspace: &mut [u8],
) -> Result<bool, Refused>
    ensures { Selected (question word.now parents.now labels.now m n workspace.old)
        (outcome_of result) workspace.new }
{
    check_word(word)?;
    ask(word, parents, labels, m, n, workspace)
}
