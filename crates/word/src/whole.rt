// The check of a word: refusals 1 to 6, "signs from left to right, the first bad sign deciding". Only the numbers of pending operands and of
// steps are kept.
ghost use Rattle.std.specs.Prelude.{◌≡◌, length};
ghost use Rattle.meaning.specs.Word.{Pending, takes, read_word};
ghost use Rattle.limits.specs.Refusal.{outcome_of};
ghost use Rattle.word.specs.Answer.{counts_of, counting, at_last, all_signs, verdict};

use crate::cursor::{Cursor, read_sign};
use crate::sign::{Kind, kind_of};
use limits::most::{LONGEST_WORD, MOST_PENDING, MOST_STEPS};
use limits::refusal::Refusal::{
    BadNumber, MissingOperand, NotOneOperand, TooManyPending, TooManySteps, WordTooLong,
};
use limits::refusal::Refused;

// The pending operands and the steps so far, counted.
#[derive(Clone, Copy)]
struct Counts {
    pending: usize,
    steps: usize,
}

// One sign, whatever the pending operands are that `counts` counts; "at one sign 4 goes before 5".
fn take_sign(counts: Counts, sign: u32, at: usize) -> Result<Counts, Refused>
    ensures { (st : Pending) → counts_of st ≡ counts → outcome_of result ≡ counting (takes sign st at) }
{
    let Counts { pending, steps } = counts;
    match kind_of(sign) {
        Kind::Operand if MOST_PENDING <= pending => Err(TooManyPending.at(at)),
        Kind::Operand => Ok(Counts {
            pending: pending + 1,
            steps,
        }),
        Kind::Step if MOST_PENDING <= pending => Err(TooManyPending.at(at)),
        Kind::Step if MOST_STEPS <= steps => Err(TooManySteps.at(at)),
        Kind::Step => Ok(Counts {
            pending: pending + 1,
            steps: steps + 1,
        }),
        Kind::Unary if pending < 1 => Err(MissingOperand.at(at)),
        Kind::Unary => Ok(counts),
        Kind::Binary if pending < 2 => Err(MissingOperand.at(at)),
        Kind::Binary => Ok(Counts {
            pending: pending - 1,
            steps,
        }),
    }
}

// "One reading place moves through the word, sign by sign": one cursor, lent to the number reader for each sign.
fn check_signs(word: &[u8]) -> Result<Counts, Refused>
    ensures { at_last result (length word.now) ≡ verdict (all_signs word.now) }
{
    let mut counts = Counts {
        pending: 0,
        steps: 0,
    };
    let mut cursor = Cursor { at: 0 };
    while cursor.at < word.len() {
        let at = cursor.at;
        let Some(read) = read_sign(&mut cursor, word) else {
            return Err(BadNumber.at(at));
        };
        counts = take_sign(counts, read.value, at)?;
    }
    Ok(counts)
}

// Any bytes: the refusal and its place, or that the word is accepted.
pub fn check_word(word: &[u8]) -> Result<(), Refused>
    ensures { outcome_of result ≡ verdict (read_word word.now) }
{
    if LONGEST_WORD < word.len() {
        return Err(WordTooLong.at(LONGEST_WORD));
    }
    let counts = check_signs(word)?;
    if counts.pending == 1 {
        return Ok(());
    }
    Err(NotOneOperand.at(word.len()))
}
