// The images and the normal form of a word: refusals 1 to 6, then 7, or the form in the first bytes of the room.
ghost use Rattle.meaning.specs.Promise.{Writes, PlainImage, MinimalImage, NormalForm};
ghost use Rattle.query.specs.Trees.{Accepted};
ghost use Rattle.limits.specs.Refusal.{outcome_of};
ghost use Rattle.forms.specs.Form.{form_of};

use forms::Form;
use limits::refusal::Refused;
use rows::TreeRows;
use word::whole::check_word;

// The form of an accepted word.
fn write_accepted(form: Form, word: &[u8], room: &mut [u8]) -> Result<usize, Refused>
    requires { Accepted word.now }
    ensures { Writes (form_of form) word.now room.old (outcome_of result) room.new }
{
    let mut rows = TreeRows::none();
    query::word_rows(form.is_folded(), word, &mut rows);
    forms::fit(room, form, &rows)
}

// The form of a word.
pub fn written(form: Form, word: &[u8], room: &mut [u8]) -> Result<usize, Refused>
    ensures { Writes (form_of form) word.now room.old (outcome_of result) room.new }
{
    check_word(word)?;
    write_accepted(form, word, room)
}

// The plain tree image of a word. It and the two below stay beside `written`: the library's interface has the three names, and so has C's.
pub fn plain_image(word: &[u8], room: &mut [u8]) -> Result<usize, Refused>
    ensures { PlainImage word.now room.old (outcome_of result) room.new }
{
    written(Form::Plain, word, room)
}

// The minimal tree image of a word.
pub fn minimal_image(word: &[u8], room: &mut [u8]) -> Result<usize, Refused>
    ensures { MinimalImage word.now room.old (outcome_of result) room.new }
{
    written(Form::Minimal, word, room)
}

// The normal form of a word.
pub fn normal_form(word: &[u8], room: &mut [u8]) -> Result<usize, Refused>
    ensures { NormalForm word.now room.old (outcome_of result) room.new }
{
    written(Form::Normal, word, room)
}
