// The ways of a normal form over rows in image order, written behind what the writer has: up from s to t, the way above t, down to d.
// The first factor of all goes to place `from` of the room, so a factor that goes to a later place is joined to what stands before it.
#![tactic(auto)]

ghost use Rattle.std.specs.Prelude.{[], ◌≡◌, ◌<◌, ◌≤◌};
ghost use Rattle.meaning.specs.Normal.{above_factor};
ghost use Rattle.rows.specs.Rows.{below};
ghost use Rattle.branches.specs.Joining.{Takes, filled_by};
ghost use Rattle.branches.specs.Factors.{IsRow};
ghost use Rattle.ways.specs.Ways.{Covers, Part, Pair, IsClimb, Lowest, Among, ups_at, downs_at, way_at};

use groups::Writer;
use rows::TreeRows;
use word::sign::Sign;

// "Let t be the lowest node above or at both s and d": up from s to the first row that holds d.
pub fn lowest(rows: &TreeRows, s: usize, d: usize) -> usize
    requires { Pair rows.now.span rows.now.up s d }
    ensures { Lowest rows.now.span s d result }
{
    let mut t = s;
    while !rows.holds(t, d) {
        t = rows::at(&rows.up, t);
    }
    t
}

// The child of row u at or below which row x lies. Its own loop: a `for` over the children would want an answer behind the last, where none is due.
#[tactic(auto, using(crate::proofs::Steps::children_start, crate::proofs::Steps::children_here))]
fn child_to(rows: &TreeRows, u: usize, x: usize) -> usize
    requires { Part rows.now.span u × (u < x) × Covers rows.now.span u x }
    ensures { Among result (below rows.now.span u) × Covers rows.now.span result x }
{
    let mut c = u + 1;
    loop {
        let next = c + rows::at(&rows.span, c);
        if x < next {
            return c;
        }
        c = next;
    }
}

// `rise`, `way` and `fall` stay apart: a way up is proved by what it has written, a way down by what is left, and only `fall` ends in own factors.
//
// "For each node from s up to just below t, its own factors and then parent." These are the first factors of all.
pub fn rise(w: &mut Writer, rows: &TreeRows, s: usize, t: usize)
    requires { IsClimb rows.now t s
        × Takes w.old.length w.old (ups_at rows.now.code rows.now.span s t) }
    ensures { w.new
        ≡ filled_by w.old.length w.old (ups_at rows.now.code rows.now.span s t) }
{
    let from = w.length;
    let mut x = s;
    while x != t {
        branches::own(w, rows, from, x, s, s);
        branches::put_sign(w, from, Sign::Parent);
        x = rows::at(&rows.up, x);
    }
}

// "The way from the top down to t (own factors of each node above t, each followed by child)", a chain of factors of its own.
#[tactic(auto, using(crate::proofs::Writing::row_part))]
fn way(w: &mut Writer, rows: &TreeRows, t: usize)
    requires { IsRow rows.now t
        × Takes w.old.length w.old (way_at rows.now.code rows.now.span t 0) }
    ensures { w.new
        ≡ filled_by w.old.length w.old (way_at rows.now.code rows.now.span t 0) }
{
    let from = w.length;
    let mut x: usize = 0;
    while x != t {
        let c = child_to(rows, x, t);
        branches::own(w, rows, from, x, t, t);
        branches::put_sign(w, from, Sign::Child);
        x = c;
    }
}

// "If t is not the top, one second projection" of that way.
pub fn above(w: &mut Writer, rows: &TreeRows, from: usize, t: usize)
    requires { IsRow rows.now t
        × Takes from w.old (above_factor (way_at rows.now.code rows.now.span t 0) []) }
    ensures { w.new
        ≡ filled_by from w.old (above_factor (way_at rows.now.code rows.now.span t 0) []) }
{
    if t == 0 {
        return;
    }
    let at = w.length;
    way(w, rows, t);
    branches::project(w, from, at, Sign::SecondProjection);
}

// "For each node below t down to d, child and its own factors."
#[tactic(auto, using(crate::proofs::Writing::row_part))]
pub fn fall(w: &mut Writer, rows: &TreeRows, from: usize, t: usize, d: usize)
    requires { IsRow rows.now t × Covers rows.now.span t d × (from ≤ w.old.length)
        × Takes from w.old (downs_at rows.now.code rows.now.span d t) }
    ensures { w.new
        ≡ filled_by from w.old (downs_at rows.now.code rows.now.span d t) }
{
    let mut x = t;
    while x != d {
        x = child_to(rows, x, d);
        branches::put_sign(w, from, Sign::Child);
        branches::own(w, rows, from, x, d, d);
    }
}
