// The calls as C has them, declared in include/pathplus.h, and the number that each answer is given as: a refusal's number in the upper 32 bits, and
// its place or the answer in the lower 32. The crate pathplus_c exports them.
ghost use Rattle.std.specs.Prelude.{◌≡◌};
ghost use Rattle.meaning.specs.Image.{plain_image, minimal_image};
ghost use Rattle.meaning.specs.Normal.{normal_form};
ghost use Rattle.limits.specs.Refusal.{outcome_of};
ghost use Rattle.forms.specs.Form.{form_of};
ghost use Rattle.pathplus.specs.Answer.{question, number_of, Short, WritesC, SelectedC};

use crate::question::selects;
use crate::writers::written;
use forms::Form;
use limits::refusal::Refused;

// What one in the upper 32 bits counts.
const UPPER: u64 = 1 << 32;

// An answer as the number that C is given.
fn answer_number(answer: Result<usize, Refused>) -> u64
    requires { Short (outcome_of answer) }
    ensures { result ≡ number_of (outcome_of answer) }
{
    match answer {
        Ok(value) => value as u64,
        Err(refused) => u64::from(refused.why.number()) * UPPER + refused.place as u64,
    }
}

// The form of a word, for C.
fn form_number(form: Form, word: &[u8], room: &mut [u8]) -> u64
    ensures { WritesC (form_of form) word.now room.old result room.new }
{
    answer_number(written(form, word, room))
}

// The four calls under C's names: pathplus_c exports each of them.
pub fn pathplus_plain_image(word: &[u8], room: &mut [u8]) -> u64
    ensures { WritesC plain_image word.now room.old result room.new }
{
    form_number(Form::Plain, word, room)
}

pub fn pathplus_minimal_image(word: &[u8], room: &mut [u8]) -> u64
    ensures { WritesC minimal_image word.now room.old result room.new }
{
    form_number(Form::Minimal, word, room)
}

pub fn pathplus_normal_form(word: &[u8], room: &mut [u8]) -> u64
    ensures { WritesC normal_form word.now room.old result room.new }
{
    form_number(Form::Normal, word, room)
}

pub fn pathplus_selects(
    word: &[u8],
    parents: &[u32],
    labels: &[u32],
    m: u64,
    n: u64,
    workspace: &mut [u8],
) -> u64
    ensures { SelectedC (question word.now parents.now labels.now m n workspace.old)
        result workspace.new }
{
    let answer = selects(word, parents, labels, m, n, workspace);
    answer_number(answer.map(usize::from))
}
