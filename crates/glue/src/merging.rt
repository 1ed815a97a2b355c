// One row stands for two: row y is taken out of a table, row x stands for it, and the rows behind y count one less.
ghost use Rattle.std.specs.Prelude.{◌≡◌, ℕ, ◌+◌, ◌-◌, ◌≤◌, ◌<◌, length, get_or};
ghost use Rattle.std.proofs.Math.Option.{some};
ghost use Rattle.meaning.specs.Gluing.{meet, move, moved, merged, or_else};
ghost use Rattle.rows.specs.Rows.{lab_of, no_row};
ghost use Rattle.rows.specs.Table.{parent_of, table};
ghost use Rattle.glue.specs.Rows.{pool_rows, given, Relinked, Swept};

use rows::{NO_ROW, wide};

// x stands for y.
fn stand_in(x: usize, y: usize, i: usize) -> usize
    ensures { result ≡ move x y i }
{
    if i == y {
        return x;
    }
    i
}

// The number of row i once row y is out and x stands for it.
pub fn renumber(x: usize, y: usize, i: usize) -> usize
    ensures { result ≡ moved x y i }
{
    let j = stand_in(x, y, i);
    if y < j {
        return j - 1;
    }
    j
}

// A link, renumbered. All of it in u16, and each way out a choice between numbers: a loop of it then takes eight links at a time.
fn relinked(x: u16, y: u16, p: u16) -> u16
    requires { (x < no_row) × (y < no_row) }
    ensures { Relinked (moved x y) p result }
{
    if p == y {
        if y < x {
            return x - 1;
        }
        return x;
    }
    if p == NO_ROW {
        return NO_ROW;
    }
    if y < p {
        return p - 1;
    }
    p
}

// "Wildcard glued to a label is that label"; two different labels clash, and give none.
pub fn meet_labels(l: u32, k: u32) -> Option<u32>
    ensures { given lab_of result ≡ meet (lab_of l) (lab_of k) }
{
    if l == 0 {
        return Some(k);
    }
    if k == 0 {
        return Some(l);
    }
    if l == k {
        return Some(l);
    }
    None
}

// The row that a link leads to: the top's leads to none.
pub fn row_above(p: u16) -> Option<usize>
    ensures { given (λ i. i) result ≡ parent_of p }
{
    if p == NO_ROW {
        return None;
    }
    Some(wide(p))
}

// The parent of whichever has one.
pub fn or_else(u: u16, v: u16) -> u16
    ensures { parent_of result ≡ or_else (parent_of u) (parent_of v) }
{
    if u == NO_ROW {
        return v;
    }
    u
}

// The entries from `from` to `end`, links or labels, become, each by the rule, those `gap` further on.
pub fn sweep<T: Copy, F: Fn(T) -> T>(
    entries: &mut [T],
    from: usize,
    end: usize,
    gap: usize,
    rule: F,
)
    requires sizes { (from ≤ end) × (end + gap ≤ length entries.old) }
    requires callable { (z : _) (i : ℕ) → from ≤ i → i < end → F.pre rule (get_or entries.old (i + gap) z) }
    ensures { (z : _) → Swept z (F.post rule) gap from end entries.old entries.new }
{
    for i in from..end {
        entries[i] = rule(entries[i + gap]);
    }
}

// Row y is taken out of the n rows; x stands for it with the parent u and the label code l. The rows below `from` link to rows below `from`, and y is
// none of them: they stay as they are.
pub fn merge_rows(
    parent: &mut [u16],
    label: &mut [u32],
    from: usize,
    n: usize,
    x: usize,
    y: usize,
    u: u16,
    l: u32,
)
    requires sizes { (from ≤ y) × (y < n) × (x < n) × (x ≡ y → ⊥) × (n ≤ pool_rows) × (n ≤ length parent.old) × (n ≤ length label.old) }
    requires low_links { (i p : ℕ) → i < from → parent_of (get_or parent.old i 0) ≡ some p → p < from }
    ensures { table (n - 1) parent.new label.new
        ≡ merged (table n parent.old label.old) x y (parent_of u) (lab_of l) }
{
    let last = n - 1;
    let a = x as u16;
    let b = y as u16;
    let rule = |p| relinked(a, b, p);
    sweep(parent, from, y, 0, rule);
    sweep(parent, y, last, 1, rule);
    // tried: with `copy_within`, which has a loop for each direction, gluing took 3 to 11% longer on six of seven words of 255 steps
    sweep(label, y, last, 1, |l| l);
    let z = renumber(x, y, x);
    parent[z] = rule(u);
    label[z] = l;
}
