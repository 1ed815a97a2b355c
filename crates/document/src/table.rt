// The check of a document table: "two lists of equal length, 1 to 1,024: parent numbers and labels."
ghost use Rattle.std.specs.Prelude.{◌≡◌, ◌&&◌, ◌<◌, true, false, length, get_or, leb, MatchOption};
ghost use Rattle.meaning.specs.Number.{largest_label};
ghost use Rattle.meaning.specs.Matching.{parent_ok, good_table};

use limits::most::{LARGEST_LABEL, MOST_ROWS};

// Whether node x may have this parent number and this label.
fn good_row(x: u32, parent: u32, label: u32) -> bool
    ensures { result ≡ (parent_ok x parent && leb label largest_label) }
{
    if LARGEST_LABEL < label {
        return false;
    }
    if x == 0 {
        return parent == 0;
    }
    parent < x
}

// "A table is two lists of equal length, 1 to 1,024 .. Node 0 has parent 0; every other parent number is smaller than the node's own."
// It reads every row, behind a bad one too, and compares 32-bit numbers: so the compiler makes vector instructions of the loop.
pub fn good_table(parents: &[u32], labels: &[u32]) -> bool
    ensures { result ≡ good_table parents.now labels.now }
{
    let n = parents.len();
    if n == 0 || MOST_ROWS < n || labels.len() != n {
        return false;
    }
    let mut good = true;
    for (x, parent) in parents.iter().enumerate() {
        good &= good_row(x as u32, *parent, labels[x]);
    }
    good
}

// A document: a table that passed the check.
#[derive(Clone, Copy)]
pub struct Document<'a> {
    pub parents: &'a [u32],
    pub labels: &'a [u32],
    ghost good: { good_table parents.now labels.now ≡ true },
}

impl<'a> Document<'a> {
    // The document of a table, if the table is good.
    pub fn checked(parents: &'a [u32], labels: &'a [u32]) -> Option<Document<'a>>
        ensures { MatchOption result (good_table parents.now labels.now ≡ false)
            (λ d. (d.parents.now ≡ parents.now) × (d.labels.now ≡ labels.now)) }
    {
        if !good_table(parents, labels) {
            return None;
        }
        Some(Document { parents, labels })
    }
}

// The parent number of node x.
pub fn parent_at(parents: &[u32], x: usize) -> usize
    requires { x < length parents.now }
    ensures { result ≡ get_or parents.now x 0 }
{
    parents[x] as usize
}
