// The nodes of a document that a label code fits ("0 wildcard, else L+1"), as a row of bits: eight to a byte.
ghost use Rattle.std.specs.Prelude.{◌≡◌, ◌↔◌, true, ℕ, ◌+◌, ◌*◌, ◌≤◌, ◌<◌, length};
ghost use Rattle.meaning.specs.Limits.{most_nodes, most_rows};
ghost use Rattle.bits.specs.Bits.{bit_of};
ghost use Rattle.document.specs.Nodes.{Suits, RowUpTo, RowIs, RowClear};

// Whether the label of node x fits a label code ("0 wildcard, else L+1").
fn fits_at(code: u32, labels: &[u32], x: usize) -> bool
    requires { x < length labels.now }
    ensures { (result ≡ true) ↔ Suits code labels.now x }
{
    if code == 0 {
        return true;
    }
    code - 1 == labels[x]
}

// Which of eight nodes a label code fits, as the bits of a byte.
fn label_byte(code: u32, labels: &[u32], from: usize) -> u8
    requires { from + 8 ≤ length labels.now }
    ensures { (k : ℕ) → k < 8 → (bit_of result k ≡ true) ↔ Suits code labels.now (from + k) }
{
    if code == 0 {
        return 255;
    }
    let label = code - 1;
    bits::sift(255, labels, from, |l| l == label)
}

// The last nodes of row u, those that do not fill a byte, one by one.
fn label_rest(w: &mut [u8], u: usize, code: u32, labels: &[u32], from: usize)
    requires { (u < most_nodes) × (128 * u + 128 ≤ length w.old) × (length labels.now ≤ most_rows) × (from ≤ length labels.now)
        × RowUpTo w.old u (Suits code labels.now) from }
    ensures { RowIs w.old u (Suits code labels.now) w.new }
{
    for v in from..labels.len() {
        if fits_at(code, labels, v) {
            bits::set_bit(w, u, v);
        }
    }
}

// Fills the clear row u with the nodes that a label code fits: eight at a time, then the rest.
pub fn label_row(w: &mut [u8], u: usize, code: u32, labels: &[u32])
    requires { (u < most_nodes) × (128 * u + 128 ≤ length w.old) × (length labels.now ≤ most_rows) × RowClear w.old u }
    ensures { RowIs w.old u (Suits code labels.now) w.new }
{
    let at = 128 * u;
    let bytes = labels.len() / 8;
    for i in 0..bytes {
        w[at + i] = label_byte(code, labels, 8 * i);
    }
    label_rest(w, u, code, labels, 8 * bytes);
}
