// From a child's row to its parent's: the parents of the nodes in a row are flagged, byte by byte, and a row keeps the flagged nodes.
ghost use Rattle.std.specs.Prelude.{◌≡◌, true, ℕ, ◌+◌, ◌*◌, ◌≤◌, ◌<◌, length};
ghost use Rattle.meaning.specs.Limits.{most_nodes, most_rows};
ghost use Rattle.meaning.specs.Matching.{bit_at, table_bytes};
ghost use Rattle.bits.specs.Bits.{bit_of};
ghost use Rattle.document.specs.Nodes.{RowIs};
ghost use Rattle.matching.specs.Table.{FromByte, ParentOf, Added, RowInside};

use document::table::{Document, parent_at};
use limits::most::MOST_ROWS;

// A flag for each node of a document, 1 where it is set: numbers and no `bool`s, since `meet` (bits) is promised for any bytes (docs/PROMISES.md).
type Flags = [u8; MOST_ROWS];

// Flags the parents of the nodes whose bits are set in a byte, node `first` being its lowest bit.
fn mark_parents(byte: u8, first: usize, document: &Document<'_>, has: &mut Flags)
    requires { (first ≤ most_rows)
        × ((k : ℕ) → bit_of byte k ≡ true → first + k < length document.now.parents.now) }
    ensures { Added has.old (FromByte document.now.parents.now byte first) has.new }
{
    for k in 0..8 {
        if bits::bit_of(byte, k) {
            has[parent_at(document.parents, first + k)] = 1;
        }
    }
}

// As mark_parents. Empty bytes, and full ones, as a wildcard's row has many, need no test of each bit: for the number 255, written out, the
// compiler drops the tests.
fn mark_byte(byte: u8, first: usize, document: &Document<'_>, has: &mut Flags)
    requires { (first ≤ most_rows)
        × ((k : ℕ) → bit_of byte k ≡ true → first + k < length document.now.parents.now) }
    ensures { Added has.old (FromByte document.now.parents.now byte first) has.new }
{
    match byte {
        0 => {}
        255 => mark_parents(255, first, document, has),
        _ => mark_parents(byte, first, document, has),
    }
}

// Flags the parents of the nodes in row c. Node 0, the root, has none: the first byte is read without its lowest bit.
fn mark_row(w: &[u8], c: usize, document: &Document<'_>, has: &mut Flags)
    requires { (c < most_nodes) × (128 * c + 128 ≤ length w.now)
        × RowInside w.now c document.now.parents.now }
    ensures { Added has.old (ParentOf w.now c document.now.parents.now (length document.now.parents.now)) has.new }
{
    let at = 128 * c;
    let bytes = document.parents.len().div_ceil(8);
    let b = w[at] >> 1;
    mark_parents(b, 1, document, has);
    for i in 1..bytes {
        mark_byte(w[at + i], 8 * i, document, has);
    }
}

// Keeps of row u the nodes that have a child in row c. Parents are flagged by bytes: brothers would wait for each other to set bits of one byte.
pub fn keep_parents(w: &mut [u8], u: usize, c: usize, document: &Document<'_>)
    requires { (u < most_nodes) × (c < most_nodes) × (table_bytes ≤ length w.old) × RowInside w.old c document.now.parents.now
        × RowInside w.old u document.now.parents.now }
    ensures { RowIs w.old u
        (λ v. (bit_at w.old u v ≡ true) × ParentOf w.old c document.now.parents.now (length document.now.parents.now) v)
        w.new }
{
    let mut has = [0u8; MOST_ROWS];
    mark_row(w, c, document, &mut has);
    bits::meet(w, u, &has, document.parents.len().div_ceil(8));
}
