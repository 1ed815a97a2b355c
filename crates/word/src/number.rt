// Numbers: "groups of seven bits, low group first; a byte's top bit is set when another group follows. Only the shortest writing of a number
// is read." One reader for any largest number, and its case for the signs of a word.
ghost use Rattle.std.specs.Prelude.{◌≡◌};
ghost use Rattle.meaning.specs.Number.{read_up_to, read_number};
ghost use Rattle.word.specs.Answer.{got_of};

use crate::sign::LARGEST_SIGN;

// A number that was read, and the place after it.
#[derive(Clone, Copy)]
pub struct Read {
    pub value: u32,
    pub next: usize,
}

// A byte below GROUP is a last group; any other is GROUP more than its group, and another follows.
const GROUP: u64 = 128;

// The number at any place of any bytes, where one can be read that is not above `top`; `value` is what the groups before place `i` stand for,
// `weight` what one of the next group counts. Where another group is read neither is above `top`, so 64 bits hold them with that group, whatever
// `top` is.
pub fn read_up_to(bytes: &[u8], at: usize, top: u32) -> Option<Read>
    ensures { got_of at result ≡ read_up_to top bytes.now at }
{
    let most = u64::from(top);
    let mut value: u64 = 0;
    let mut weight: u64 = 1;
    for i in at..bytes.len() {
        let group = u64::from(bytes[i]);
        if group < GROUP {
            // not the shortest writing
            if group == 0 && 1 < weight {
                return None;
            }
            value += group * weight;
            if most < value {
                return None;
            }
            return Some(Read {
                value: value as u32,
                next: i + 1,
            });
        }
        value += (group - GROUP) * weight;
        weight *= GROUP;
        // a group that follows is not 0, so the number is at least this weight
        if most < weight {
            return None;
        }
    }
    None
}

// The sign at any place of a word.
pub fn read_number(word: &[u8], at: usize) -> Option<Read>
    ensures { got_of at result ≡ read_number word.now at }
{
    read_up_to(word, at, LARGEST_SIGN)
}
