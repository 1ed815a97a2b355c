// The forms of n rows, in a room that the caller lends: the image, plain or minimal as the rows are, or the normal form.
// The length comes first: a room that is too short is refused before its first byte is written.
#![tactic(auto)]

ghost use Rattle.std.specs.Prelude.{◌≡◌, ◌≤◌, length};
ghost use Rattle.meaning.specs.Limits.{most_nodes};
ghost use Rattle.meaning.specs.Normal.{normal, word_of};
ghost use Rattle.rows.specs.Trees.{tree_of};
ghost use Rattle.groups.specs.Put.{Written as PutBytes};
ghost use Rattle.image.specs.Listing.{listing_of};
ghost use Rattle.limits.specs.Refusal.{outcome_of};
ghost use Rattle.normal.specs.Forms.{IsQuery};
ghost use Rattle.forms.specs.Form.{is_folded, bytes_of, Fitted};

use groups::Writer;
use limits::refusal::Refusal::RoomTooShort;
use limits::refusal::Refused;
use rows::TreeRows;

// What is written of a tree.
#[derive(Clone, Copy)]
pub enum Form {
    Plain,
    Minimal,
    Normal,
}

impl Form {
    // Whether the form is of the minimal tree, and not of the plain tree.
    pub fn is_folded(self) -> bool
        ensures { result ≡ is_folded self }
    {
        match self {
            Form::Plain => false,
            Form::Minimal | Form::Normal => true,
        }
    }

    // How many bytes the form of the rows has.
    #[tactic(auto, unfolding(crate::specs::Form::bytes_of))]
    fn length(self, rows: &TreeRows) -> usize
        requires { IsQuery rows.now }
        ensures { result ≡ length (bytes_of self rows.now) }
    {
        match self {
            Form::Plain | Form::Minimal => image::image_length(rows),
            Form::Normal => normal::weight::form_length(rows),
        }
    }

    // The form of the rows, written into the front of the room; how many bytes it has.
    #[tactic(auto, unfolding(crate::specs::Form::bytes_of))]
    fn write(self, room: &mut [u8], rows: &TreeRows) -> usize
        requires { IsQuery rows.now × (length (bytes_of self rows.now) ≤ length room.old) }
        ensures { PutBytes room.old 0 (bytes_of self rows.now) room.new result }
    {
        match self {
            Form::Plain | Form::Minimal => write_image(room, rows),
            Form::Normal => write_word(room, rows),
        }
    }
}

// Two functions, each with a writer of its own. Tried: with one writer for both, which the word's functions are lent, the image's leaves the
// registers, and the plain image of 61 nodes took 5% more.
fn write_image(room: &mut [u8], rows: &TreeRows) -> usize
    requires { (rows.now.len ≤ most_nodes) × (length (listing_of rows.now) ≤ length room.old) }
    ensures { PutBytes room.old 0 (listing_of rows.now) room.new result }
{
    let mut w = Writer { room, length: 0 };
    image::put_image(&mut w, rows);
    w.length
}

// The normal form, as a word.
fn write_word(room: &mut [u8], rows: &TreeRows) -> usize
    requires { IsQuery rows.now × (length (word_of (normal (tree_of rows.now))) ≤ length room.old) }
    ensures { PutBytes room.old 0 (word_of (normal (tree_of rows.now))) room.new result }
{
    let mut w = Writer { room, length: 0 };
    normal::form::put_form(&mut w, rows);
    w.length
}

// The form of the rows in the front of the room, and its length, or refusal 7.
pub fn fit(room: &mut [u8], form: Form, rows: &TreeRows) -> Result<usize, Refused>
    requires { IsQuery rows.now }
    ensures { Fitted (bytes_of form rows.now) room.old (outcome_of result) room.new }
{
    let length = form.length(rows);
    if room.len() < length {
        return Err(RoomTooShort.at(length));
    }
    Ok(form.write(room, rows))
}
