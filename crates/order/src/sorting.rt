// Brothers in ascending byte order: each row is put in its place among its later brothers, so that the lists of children are in order from the start.
ghost use Rattle.std.specs.Prelude.{◌≡◌, ◌<◌, ◌≤◌, get_or};
ghost use Rattle.meaning.specs.Limits.{most_nodes};
ghost use Rattle.rows.specs.Table.{ParentsFirst};
ghost use Rattle.order.specs.Links.{Finite, compared_at, goes_first, spot_at, Ready, PutAmong};
ghost use Rattle.order.specs.Contract.{IsTable};
ghost use Rattle.order.specs.Sorting.{IsSorted};

use crate::Table;
use crate::children::{Lists, slot};
use crate::key::{Keys, key_of};
use rows::{at, link};
use std::cmp::Ordering;

// The keys and n go beside the lists, not into them: there are keys only while brothers are put in order, and gluing works in the lists before there
// are rows. Both stay in registers from call to call.
impl Lists {
    // The brothers from x on against the brothers from y on: the first two, then their later brothers. Equal keys have equally many children, so two
    // lists that are compared end together, and records are compared byte by byte although none is written. Only children are compared by a call, so
    // at most one frame a level is open.
    fn compare(&self, key: &Keys, n: usize, x: usize, y: usize) -> Ordering
        requires { let Ends = Finite n self.now.first self.now.next in (n ≤ most_nodes) × Ends x × Ends y }
        ensures { result ≡ compared_at n self.now.first self.now.next key.now x y }
    {
        let mut a = x;
        let mut b = y;
        while a < n {
            if n <= b {
                return Ordering::Greater;
            }
            let o = key[a].cmp(&key[b]);
            if o.is_ne() {
                return o;
            }
            let o = self.compare(key, n, at(&self.first, a), at(&self.first, b));
            if o.is_ne() {
                return o;
            }
            a = at(&self.next, a);
            b = at(&self.next, b);
        }
        if b < n {
            return Ordering::Less;
        }
        Ordering::Equal
    }

    // Whether the record of the tree at c goes before that of the tree at q or is equal to it. Later brothers don't matter.
    fn goes_first(&self, key: &Keys, n: usize, c: usize, q: usize) -> bool
        requires { let Ends = Finite n self.now.first self.now.next in
            (n ≤ most_nodes) × (c < n) × (q < n) × Ends (get_or self.now.first c 0) × Ends (get_or self.now.first q 0) }
        ensures { result ≡ goes_first n self.now.first self.now.next key.now c q }
    {
        let o = key[c].cmp(&key[q]);
        // no `match`: the compiler makes a number of its three ways out first. Tried: a turn of `spot` has 17 instructions then, for 8
        if o.is_ne() {
            return o.is_lt();
        }
        self.compare(key, n, at(&self.first, c), at(&self.first, q))
            .is_le()
    }

    // The last tree of the list at q that goes before the tree at c, if there is one. It changes nothing: `place` does, by two links.
    fn spot(&self, key: &Keys, n: usize, c: usize, q: usize) -> Option<usize>
        requires { let Ends = Finite n self.now.first self.now.next in
            (n ≤ most_nodes) × (c < n) × Ends (get_or self.now.first c 0) × Ends q }
        ensures { result ≡ spot_at n self.now.first self.now.next key.now c q }
    {
        let mut p = None;
        let mut i = q;
        while i < n {
            if self.goes_first(key, n, c, i) {
                return p;
            }
            p = Some(i);
            i = at(&self.next, i);
        }
        p
    }

    // Puts the tree at c into the list at q, which is in order, and returns the first tree.
    fn place(&mut self, key: &Keys, n: usize, c: usize, q: usize) -> usize
        requires { Ready n self.old.first self.old.next c q }
        ensures { (self.new.first ≡ self.old.first) × PutAmong n self.old.first self.old.next key.now c q self.new.next result }
    {
        match self.spot(key, n, c, q) {
            None => {
                self.next[c] = q as u16;
                c
            }
            Some(p) => {
                self.next[c] = self.next[p];
                self.next[p] = c as u16;
                q
            }
        }
    }

    // Puts all brothers in order, from the last row to the first: what lies below a row comes after it in the table, and is in order when the row is
    // placed; until then `next` has the number of its children. A list in order already costs one comparison a row.
    pub(crate) fn sort_rows(&mut self, table: Table<'_>, key: &mut Keys)
        requires { IsTable table × ParentsFirst table.parent.now table.n }
        ensures { IsSorted table.entry self.new }
    {
        let n = table.n;
        self.clear(n);
        for i in (0..n).rev() {
            key[i] = key_of(table.code[i], table.mark[i], self.next[i]);
            let p = slot(link(table.parent, i), n);
            let h = at(&self.first, p);
            let q = self.place(key, n, i, h);
            self.first[p] = q as u16;
            self.next[p] += 1;
        }
    }
}
