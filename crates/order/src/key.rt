// One key a row stands for the first three numbers of its record: two brothers are compared without writing their records out.
ghost use Rattle.std.specs.Prelude.{◌≡◌, ◌<◌};
ghost use Rattle.order.specs.Keys.{three_bytes, key_of};

use limits::most::MOST_NODES;

// A key for each node.
pub type Keys = [u64; MOST_NODES];

// The bytes of x, filled up to three, as one number: it compares as the bytes do, where x itself would not (128 is written 80 01, 255 is FF 01, and
// 256 is 80 02).
#[tactic(auto, using(crate::proofs::Keys::three_one, crate::proofs::Keys::three_two, crate::proofs::Keys::three_three))]
fn bytes_of(x: u64) -> u64
    requires { x < 2097152 }
    ensures { (result ≡ three_bytes x) × (result < 16777216) }
{
    if x < 128 {
        return 65536 * x;
    }
    let a = 65536 * (128 + x % 128);
    if x < 16384 {
        return a + 256 * (x / 128);
    }
    a + 256 * (128 + x / 128 % 128) + x / 16384
}

// The key of a row with label code l, mark m and c children: each as its bytes, and a mark is one byte.
#[tactic(auto, unfolding(crate::specs::Keys::key_of))]
pub fn key_of(l: u32, m: u8, c: u16) -> u64
    requires { l < 2097152 }
    ensures { result ≡ key_of l m c }
{
    (bytes_of(u64::from(l)) * 256 + u64::from(m)) * 16777216 + bytes_of(u64::from(c))
}
