// "One reading place moves through the word, sign by sign": the number reader on a cursor that is lent to it.
ghost use Rattle.std.specs.Prelude.{◌≡◌};
ghost use Rattle.meaning.specs.Number.{read_number};
ghost use Rattle.word.specs.Answer.{got_of};
ghost use Rattle.word.specs.Cursor.{place_past};

use crate::number::{Read, read_number};

// The reading place.
#[derive(Drop)]
pub struct Cursor {
    pub at: usize,
}

// The number where the cursor stands; the cursor moves past it. No number that can be read, no move.
pub fn read_sign<'c, 'a>(cursor: &'c mut Cursor, word: &'a [u8]) -> Option<Read>
    ensures { (got_of cursor.old.at result ≡ read_number word.now cursor.old.at)
        × (cursor.new.at ≡ place_past cursor.old.at result) }
{
    let read = read_number(word, cursor.at)?;
    cursor.at = read.next;
    Some(read)
}
