// The children of a row, one after the other: each begins where all below the one before it ends.
ghost use Rattle.std.specs.Prelude.{◌≡◌, ℕ, ◌+◌, ◌-◌, ◌<◌, ◌≤◌, get_or};
ghost use Rattle.meaning.specs.Limits.{most_nodes};
ghost use Rattle.rows.specs.Rows.{Reaches};

use crate::{Links, TreeRows, at};

// The brothers from row `next` up to row `end`.
#[derive(Clone, Copy)]
pub struct Brothers<'a> {
    pub span: &'a Links,
    pub next: usize,
    pub end: usize,
    pub ghost inside: { end ≤ most_nodes },
    pub ghost onward: { (c : ℕ) → next ≤ c → c < end → 0 < get_or span.now c 0 },
}

impl<'a> Iterator for Brothers<'a> {
    ghost use Rattle.std.specs.Iterator.{at_most};
    ghost use Rattle.rows.specs.Brothers.{GivesBrother};

    type Item = usize;

    ghost next_gives = { GivesBrother };

    ghost remaining = { λ b. at_most (b.end - b.next) };

    fn next(&mut self) -> Option<usize> {
        if self.end <= self.next {
            return None;
        }
        let c = self.next;
        self.next = c + at(self.span, c);
        Some(c)
    }
}

impl TreeRows {
    // The children of row u.
    pub fn children(&self, u: usize) -> Brothers<'_>
        requires { Reaches self.now.span u }
        ensures { (result.next ≡ u + 1) × (result.end ≡ u + get_or self.now.span u 0) × (result.span.now ≡ self.now.span) }
    {
        Brothers {
            span: &self.span,
            next: u + 1,
            end: u + at(&self.span, u),
        }
    }
}
