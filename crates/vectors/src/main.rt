// Goes through a corpus of the second implementation on standard input and makes every call in it, as C makes it. A call that differs has a
// line. So has a case that is damaged, and it is the last. The last line counts the cases and the calls that were gone through.
#![tactic(auto)]

mod call;
mod input;

ghost use Rattle.std.specs.Prelude.{◌≤◌, IfOk};

use input::{Damage, Input};
use pathplus::{pathplus_minimal_image, pathplus_normal_form, pathplus_plain_image};
use std::io;
use std::io::{Print, Read};

// What a corpus begins with.
const CORPUS: &[u8; 8] = b"GULPHCO1";

// No word of the corpus is longer.
const WORD: usize = 65536;

// The line of a call that differs: its case, and its place there, from 1. Where the case is damaged, that is told instead.
// `rt` stands beside the input, here and below: a struct of both is no plainer, with a lifetime for `rt` and `self.input` at each step.
fn judge<P: Print, R>(
    rt: &P,
    input: &Input<R>,
    case: u32,
    call: u64,
    same: bool,
) -> io::Result<()> {
    if same || input.left.is_err() {
        return Ok(());
    }
    println!(rt; "{case} differs in call {call}")
}

// Makes the calls of one case, "plain image, minimal image, normal form; u32 number of questions (0 or 1), the questions", and answers how many
// they are. Each writer is called in a closure: passed by its name it has no proof here (tried), since its module is not exported.
fn run_calls<P: Print, R: Read>(
    rt: &P,
    input: &mut Input<R>,
    case: u32,
    word: &[u8],
) -> io::Result<u64>
    ensures { IfOk result (λ n. n ≤ 4) }
{
    let plain = input.form(word, |word, room| pathplus_plain_image(word, room))?;
    judge(rt, input, case, 1, plain)?;
    let minimal = input.form(word, |word, room| pathplus_minimal_image(word, room))?;
    judge(rt, input, case, 2, minimal)?;
    let normal = input.form(word, |word, room| pathplus_normal_form(word, room))?;
    judge(rt, input, case, 3, normal)?;
    if input.number()? == 0 {
        return Ok(3);
    }
    let question = input.question(word)?;
    judge(rt, input, case, 4, question)?;
    Ok(4)
}

// Goes through one case, "u32 length of what follows; word;" and its calls, and answers how many they are, or what is wrong with it.
fn run_case<P: Print, R: Read>(
    rt: &P,
    input: &mut Input<R>,
    case: u32,
) -> io::Result<Result<u64, Damage>>
    ensures { IfOk result (λ made. IfOk made (λ n. n ≤ 4)) }
{
    input.left = Ok(4); // Its length. Where that is cut off, so is what follows
    input.left = Ok(input.number()? as usize);
    let length = input.number()? as usize;
    let mut buffer = [0; WORD];
    let n = input.bytes(&mut buffer, length)?;
    let calls = run_calls(rt, input, case, &buffer[..n])?;
    Ok(input.ended().map(|()| calls))
}

fn write_counts<P: Print>(rt: &P, cases: u32, calls: u64) -> io::Result<()> {
    println!(rt; "{cases} cases, {calls} calls")
}

// Goes through so many cases, or up to the first that is damaged.
fn walk<P: Print, R: Read>(rt: &P, input: &mut Input<R>, cases: u32) -> io::Result<()> {
    let mut calls: u64 = 0;
    for i in 0..cases {
        match run_case(rt, input, i)? {
            Ok(made) => calls += made,
            Err(damage) => {
                println!(rt; "{i} {damage}")?;
                return write_counts(rt, i, calls);
            }
        }
    }
    write_counts(rt, cases, calls)
}

// The corpus is "the eight bytes `GULPHCO1`, u32 number of cases, u32 length of the longest case, the cases".
fn main(rt: HostRuntime) -> io::Result<()> {
    let mut input = Input {
        from: rt.stdin(),
        left: Ok(16),
    };
    if input.long()? != u64::from_le_bytes(*CORPUS) {
        return println!(rt; "no corpus");
    }
    let cases = input.number()?;
    input.number()?;
    walk(&rt, &mut input, cases)
}
