// Bytes into a lent room: one byte, or a number "in seven-bit groups, the shortest writing". A writer keeps beside the room where the next byte goes.
#![tactic(auto)]

ghost use Rattle.std.specs.Prelude.{◌≡◌, [], ◌∷◌, ◌<◌, length};
ghost use Rattle.meaning.specs.Number.{num};
ghost use Rattle.groups.specs.Filled.{filled, Fits};

// "The caller's room together with the number of bytes already filled."
#[derive(Drop)]
pub struct Writer<'a> {
    pub room: &'a mut [u8],
    pub length: usize,
}

impl<'a> Writer<'a> {
    // One byte more.
    #[tactic(auto, unfolding(crate::specs::Put::put))]
    pub fn put_byte(&mut self, b: u8)
        requires { self.old.length < length self.old.room.now }
        ensures { self.new ≡ filled self.old (b ∷ []) }
    {
        // the length is read once, before the byte is stored: for all that the compiler knows, the byte may lie upon it
        let at = self.length;
        self.room[at] = b;
        self.length = at + 1;
    }

    // "Low group first; a byte's top bit is set when another group follows."
    pub fn put_number(&mut self, x: u32)
        requires { Fits self.old (num x) }
        ensures { self.new ≡ filled self.old (num x) }
    {
        let mut rest = x;
        while 128 <= rest {
            self.put_byte((128 + rest % 128) as u8);
            rest /= 128;
        }
        self.put_byte(rest as u8);
    }
}

// How many bytes a number takes.
pub fn number_length(x: u32) -> usize
    ensures { result ≡ length (num x) }
{
    let mut rest = x;
    let mut bytes: usize = 1;
    while 128 <= rest {
        rest /= 128;
        bytes += 1;
    }
    bytes
}
