// Rows of bits in lent bytes: bit v of row u is "bit v mod 8 of byte 128u + v div 8 (lowest bit is 0)".
// A match table has 256 such rows. The functions take any slice that is long enough for the row they are asked for (docs/PROMISES.md names them).
// So bytes and the number of a row stay apart, with their clause: a type of 256 rows would ask for more.
#![tactic(auto)]

ghost use Rattle.std.specs.Prelude.{◌≡◌, Bool, ℕ, ◌+◌, ◌*◌, ◌≤◌, ◌<◌, length, get_or};
ghost use Rattle.meaning.specs.Matching.{bit_at};
ghost use Rattle.bits.specs.Bits.{bit_of, row_clear, BitKept, BitSet, Sifted, Met, Cleared};

// Whether bit k of a byte is set.
pub fn bit_of(b: u8, k: usize) -> bool
    requires { k < 8 }
    ensures { result ≡ bit_of b k }
{
    (b >> k) & 1 == 1
}

// The byte with bit k cleared unless `on` says so. Eight of these make a few vector instructions; bits set one by one do not.
pub fn keep_bit(b: u8, k: usize, on: bool) -> u8
    requires { k < 8 }
    ensures { BitKept b k on result }
{
    if on {
        return b;
    }
    b & (255 - (1 << k))
}

// Whether bit v of row u is set.
pub fn test_bit(w: &[u8], u: usize, v: usize) -> bool
    requires { (u < 256) × (v < 1024) × (128 * u + 128 ≤ length w.now) }
    ensures { result ≡ bit_at w.now u v }
{
    bit_of(w[128 * u + v / 8], v % 8)
}

// Sets bit v of row u.
pub fn set_bit(w: &mut [u8], u: usize, v: usize)
    requires { (u < 256) × (v < 1024) × (128 * u + 128 ≤ length w.old) }
    ensures { BitSet w.old u v w.new }
{
    let i = 128 * u + v / 8;
    let k = v % 8;
    w[i] = w[i] | (1 << k);
}

// The bits of b that the test keeps: bit k by what it says of item `from + k`, told for a test that answers as a function g. Where no bit is set no
// item is read.
pub fn sift<T: Copy, F: Fn(T) -> bool>(b: u8, items: &[T], from: usize, keeps: F) -> u8
    requires size { from + 8 ≤ length items.now }
    requires callable { (z : _) (k : ℕ) → k < 8 → F.pre keeps (get_or items.now (from + k) z) }
    ensures { (z : _) (g : ℕ → Bool) → ((k : ℕ) (on : Bool) → k < 8 → F.post keeps (get_or items.now (from + k) z) on → on ≡ g k)
        → Sifted b g 8 result }
{
    if b == 0 {
        return 0;
    }
    let mut r = b;
    for k in 0..8 {
        r = keep_bit(r, k, keeps(items[from + k]));
    }
    r
}

// Takes from the first bytes of row u the bits whose flags are not 1.
pub fn meet(w: &mut [u8], u: usize, flags: &[u8], bytes: usize)
    requires { (u < 256) × (128 * u + 128 ≤ length w.old) × (1024 ≤ length flags.now) × (bytes ≤ 128) }
    ensures { Met w.old u flags.now (8 * bytes) w.new }
{
    let at = 128 * u;
    for i in 0..bytes {
        w[at + i] = sift(w[at + i], flags, 8 * i, |f| f == 1);
    }
}

// Whether row u has no bit set. It reads the whole row, where `all` would stop early: the compiler makes a few vector instructions of it.
pub fn row_clear(w: &[u8], u: usize) -> bool
    requires { (u < 256) × (128 * u + 128 ≤ length w.now) }
    ensures { result ≡ row_clear w.now u }
{
    let at = 128 * u;
    let mut clear = true;
    for b in &w[at..at + 128] {
        clear &= *b == 0;
    }
    clear
}

// Clears the 256 rows.
pub fn clear(w: &mut [u8])
    requires { 32768 ≤ length w.old }
    ensures { Cleared w.old 32768 w.new }
{
    w[..32768].fill(0);
}
