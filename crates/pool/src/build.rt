// The plain tree query of an accepted word: sign by sign, with the same number reader as the check of the word.
ghost use Rattle.std.specs.Prelude.{◌≡◌, ◌≤◌, ◌<◌, length};
ghost use Rattle.meaning.specs.Expression.{Expr};
ghost use Rattle.meaning.specs.Gluing.{plain};
ghost use Rattle.meaning.specs.Limits.{most_pending};
ghost use Rattle.meaning.specs.Word.{answered, and_then, read_word};
ghost use Rattle.glue.specs.Rows.{pool_rows};
ghost use Rattle.glue.specs.Trees.{built_of};
ghost use Rattle.pool.specs.Pool.{held, SameSlices, Passes, Applies, PoolForNone, PoolForOnly};

use crate::operand::Pool;
use glue::trees::Built;
use word::cursor::{Cursor, read_sign};

// The rows of the pool: an operand has at most one more than it has steps, so 255 steps and 256 pending operands use 511.
pub const POOL_ROWS: usize = 512;

impl<'a> Pool<'a> {
    // One sign of an accepted word.
    fn apply_sign(&mut self, number: u32)
        requires { Passes (held self.old) self.old.pending number }
        ensures slices { SameSlices self.old self.new }
        ensures sign { Applies (held self.old) self.old.pending number (held self.new) self.new.pending }
    {
        let latest = self.make(number);
        self.put_latest(latest);
    }

    // "One reading place moves through the word, sign by sign": one cursor, lent to the number reader for each sign.
    // No number of an accepted word is broken. After the last sign its expression alone is pending.
    fn apply_signs(&mut self, word: &[u8])
        requires { ((e : Expr) × (read_word word.now ≡ answered e)) × PoolForNone (held self.old) × (self.old.pending ≡ 0) }
        ensures slices { SameSlices self.old self.new }
        ensures only { (e : Expr) × (read_word word.now ≡ answered e) × PoolForOnly (held self.new) e }
    {
        let mut cursor = Cursor { at: 0 };
        while cursor.at < word.len() {
            let read = read_sign(&mut cursor, word).unwrap();
            self.apply_sign(read.value);
        }
    }
}

// The word is accepted, and the caller lends the rows of the pool, a mark of each kind for each operand that may be pending, and one start of an
// operand more; what they hold before does not matter. Afterwards the first r.rows rows are the plain tree query, with its marks in r; none: it
// is empty.
pub fn build(
    word: &[u8],
    parent: &mut [u16],
    label: &mut [u32],
    first: &mut [u16],
    s: &mut [u16],
    d: &mut [u16],
) -> Option<Built>
    requires accepted { (e : Expr) × (read_word word.now ≡ answered e) }
    requires sizes { (pool_rows ≤ length parent.old) × (pool_rows ≤ length label.old)
        × (most_pending < length first.old) × (most_pending ≤ length s.old) × (most_pending ≤ length d.old) }
    ensures { and_then (read_word word.now) (λ e. answered (plain e))
        ≡ answered (built_of result parent.new label.new) }
{
    first[0] = 0;
    let mut pool = Pool {
        parent,
        label,
        first,
        s,
        d,
        pending: 0,
    };
    pool.apply_signs(word);
    pool.operand(0)
}
