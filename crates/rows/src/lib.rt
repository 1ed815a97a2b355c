// Rows in image order, as the code reads them: links and spans are numbers of sixteen bits, marks are read by bits.
// One call for each read keeps the proofs of its callers short.
#![tactic(auto)]

pub mod brothers; // brothers.rt: the children of a row, one after the other

ghost use Rattle.std.specs.Prelude.{◌≡◌, ◌<◌, length, get_or, set};
ghost use Rattle.meaning.specs.Limits.{most_nodes};
ghost use Rattle.rows.specs.Rows.{Borne, FirstRow, covers};

use limits::most::MOST_NODES;

// A number of sixteen bits for each node: links, spans, numbers of children.
pub type Links = [u16; MOST_NODES];

// The same, and one more for the top, which has no parent.
pub type Starts = [u16; MOST_NODES + 1];

// A label code for each node: "0 wildcard, else L+1", as an image has it.
pub type Codes = [u32; MOST_NODES];

// A mark for each node.
pub type Marks = [u8; MOST_NODES];

// A tree in image order: the first `len` rows, and no rows for empty. Five tables and no table of rows: most walks read one or two of the five.
// It is lent and never copied, for it takes some kilobytes. It has no invariant: it is filled, folded and put in order in its place, and what reads
// it (`form_length`, `put_form`, `match_table` and others that docs/PROMISES.md names) takes it from whoever has the fact, `IsTree` or `IsQuery`.
#[derive(Drop)]
pub struct TreeRows {
    pub code: Codes,
    pub mark: Marks,
    pub kids: Links,
    pub span: Links,
    pub up: Links,
    pub len: usize,
}

// The parent of the top: no row. A number and no `Option<u16>`: that takes twice the memory, and links are renumbered in 16 bits, eight at a time
// (glue).
pub const NO_ROW: u16 = 65535;

// The bits of a mark: "mark (0 none, 1 s, 2 d, 3 both)". Numbers and no enum: an image has the byte as it is.
pub const S: usize = 0;

pub const D: usize = 1;

// While a tree is folded, the bit of a row that has gone, with all below it.
pub const GONE: usize = 7;

// A link as a row number.
pub fn wide(p: u16) -> usize
    ensures { (result ≡ p) × (result < 65536) }
{
    usize::from(p)
}

// What stands at i: a link, a span or a count.
pub fn link(t: &[u16], i: usize) -> usize
    requires { i < length t.now }
    ensures { (result ≡ get_or t.now i 0) × (result < 65536) }
{
    wide(t[i])
}

// What stands for node u in a table of one number a node. A table of a fixed size is lent as one pointer, a slice as a pointer to two words.
pub fn at<const N: usize>(t: &[u16; N], u: usize) -> usize
    requires { u < N }
    ensures { (result ≡ get_or t.now u 0) × (result < 65536) }
{
    wide(t[u])
}

// Puts v at i.
pub fn set_link(t: &mut [u16], i: usize, v: usize)
    requires { (i < length t.old) × (v < 65536) }
    ensures { t.new ≡ set t.old i v }
{
    t[i] = v as u16;
}

// The first row that bears the mark: bit S or bit D.
pub fn row_of(mark: &Marks, bit: usize) -> usize
    requires { (bit < 8) × Borne mark.now bit }
    ensures { FirstRow mark.now bit result }
{
    // tried: `position` becomes vector instructions, and a normal form of a small query takes 35 to 45 ns more, some 8%, where none may be slower
    let mut u: usize = 0;
    while !bits::bit_of(mark[u], bit) {
        u += 1;
    }
    u
}

impl TreeRows {
    // No rows yet.
    pub fn none() -> Self
        ensures { result.len ≡ 0 }
    {
        TreeRows {
            code: [0; MOST_NODES],
            mark: [0; MOST_NODES],
            kids: [0; MOST_NODES],
            span: [0; MOST_NODES],
            up: [0; MOST_NODES],
            len: 0,
        }
    }

    // Row x lies at or below row c.
    #[tactic(auto, unfolding(crate::specs::Rows::covers))]
    pub fn holds(&self, c: usize, x: usize) -> bool
        requires { c < most_nodes }
        ensures { result ≡ covers self.now.span c x }
    {
        c <= x && x < c + at(&self.span, c)
    }
}
