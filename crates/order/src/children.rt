// The children of each row, as lists.
ghost use Rattle.std.specs.Prelude.{◌≡◌, ◌+◌, ◌≤◌};
ghost use Rattle.meaning.specs.Limits.{most_nodes};
ghost use Rattle.order.specs.Links.{slot_of};
ghost use Rattle.order.specs.Gathering.{Cleared, Hangs, Gathered};
ghost use Rattle.order.specs.Contract.{Lent};

use rows::{NO_ROW, Starts, link};

// `first` has a row's first child, `next` its next brother. Behind the n rows `first` has one more slot, for the list of the top, which has no
// parent. A link that is not below n leads nowhere: memory is fixed, and an `Option` for each link would double it. They are lent and never copied.
#[derive(Drop)]
pub struct Lists {
    pub first: Starts,
    pub next: Starts,
}

// Where the list of p's children starts in `first`.
pub fn slot(p: usize, n: usize) -> usize
    ensures { (result ≡ slot_of n p) × (result ≤ n) }
{
    if p < n {
        return p;
    }
    n
}

impl Lists {
    // Empties the lists of n rows and of the top, and the counts that sorting keeps in `next`.
    pub(crate) fn clear(&mut self, n: usize)
        requires { n ≤ most_nodes }
        ensures { Cleared (n + 1) self.new.first self.new.next × Lent self.new.first self.new.next }
    {
        self.first[..=n].fill(NO_ROW);
        self.next[..=n].fill(0);
    }

    // Gives each parent the list of its children, in the order of the table.
    pub(crate) fn gather(&mut self, parent: &[u16], n: usize)
        requires { Hangs parent.now n }
        ensures { Gathered parent.now n 0 self.new.first self.new.next × Lent self.new.first self.new.next }
    {
        self.clear(n);
        // from the last row to the first: a row is put in front of its later brothers
        for i in (0..n).rev() {
            let p = slot(link(parent, i), n);
            self.next[i] = self.first[p];
            self.first[p] = i as u16;
        }
    }
}
