// The factors of a normal form in their order, and the form itself, written behind what the writer has.
ghost use Rattle.std.specs.Prelude.{◌≡◌, ◌+◌, ◌≤◌, length};
ghost use Rattle.meaning.specs.Normal.{normal, word_of};
ghost use Rattle.rows.specs.Trees.{tree_of};
ghost use Rattle.groups.specs.Filled.{filled};
ghost use Rattle.branches.specs.Joining.{Takes, filled_by};
ghost use Rattle.ways.specs.Ways.{Covers, IsClimb};
ghost use Rattle.normal.specs.Forms.{IsQuery, form_at};

use crate::ends::Ends;
use groups::Writer;
use rows::TreeRows;
use word::sign::Sign;

// "The factors, in order", joined from the left.
fn factors(w: &mut Writer, rows: &TreeRows, ends: &Ends)
    requires { IsClimb rows.now ends.now.t ends.now.s × Covers rows.now.span ends.now.t ends.now.d
        × Takes w.old.length w.old (form_at rows.now.code rows.now.span ends.now.s ends.now.d ends.now.t) }
    ensures { w.new
        ≡ filled_by w.old.length w.old (form_at rows.now.code rows.now.span ends.now.s ends.now.d ends.now.t) }
{
    let from = w.length;
    ways::rise(w, rows, ends.s, ends.t);
    ways::above(w, rows, from, ends.t);
    branches::own(w, rows, from, ends.t, ends.s, ends.d);
    ways::fall(w, rows, from, ends.t, ends.d);
}

// The normal form of rows, written behind what the writer has; no rows are empty, the word 0. "With no factor at all the word is 1."
#[tactic(auto, using(crate::proofs::Forms::form_empty))]
pub fn put_form(w: &mut Writer, rows: &TreeRows)
    requires { IsQuery rows.now
        × (w.old.length + length (word_of (normal (tree_of rows.now))) ≤ length w.old.room.now) }
    ensures { w.new ≡ filled w.old (word_of (normal (tree_of rows.now))) }
{
    if rows.len == 0 {
        return w.put_number(Sign::Empty.number());
    }
    let from = w.length;
    factors(w, rows, &Ends::of(rows));
    if w.length == from {
        w.put_number(Sign::Itself.number());
    }
}
