// Many words in one run: standard input has one word a line, in hex, with blanks between its bytes. Each line is written again, and below it what
// the program writes for its word, or that it is no word. A line that starts with `#` is a comment: it is written again and nothing more.
#![tactic(auto)]

ghost use Rattle.streams.specs.Counts.{IsPrefixLen};

use report::LONGEST_TEXT;
use std::io;
use std::io::Write;
use streams::read_full;

// A byte more than the longest word has: enough for a word to be refused.
const WORD: usize = 4097;

// As much of standard input as is read.
const TEXT: usize = 65536;

// What may stand between two bytes: a blank, and the end of the line.
fn is_between(c: &u8) -> bool {
    matches!(c, b' ' | b'\n')
}

// Whether the line is a word: the two digits of each byte stand together, and nothing but blanks between the bytes.
fn is_word(line: &[u8]) -> bool {
    let mut half = false;
    for c in line {
        if is_between(c) && !half {
            continue;
        }
        if !c.is_ascii_hexdigit() {
            return false;
        }
        half = !half;
    }
    !half
}

// The bytes of the line, as many as the word holds; how many they are.
fn bytes_of(line: &[u8], word: &mut [u8]) -> usize
    ensures { IsPrefixLen result word.new }
{
    let mut digits = line.iter().filter_map(|c| char::from(*c).to_digit(16));
    for (n, byte) in word.iter_mut().enumerate() {
        let (Some(high), Some(low)) = (digits.next(), digits.next()) else {
            return n;
        };
        *byte = (high * 16 + low) as u8;
    }
    word.len()
}

// What the program writes for the word. `reduce` has these lines too: report, below both, makes bytes and knows no stream.
fn write_text<W: Write>(to: &mut W, word: &[u8]) -> io::Result<()> {
    let mut text = [0u8; LONGEST_TEXT];
    let length = report::program_text(word, &mut text);
    to.write_all(&text[..length])
}

// What is due for a line that is a word: a function of its own, since one that holds an array clears it at its entry, for lines that are no word too.
fn report_word<W: Write>(to: &mut W, line: &[u8]) -> io::Result<()> {
    let mut word = [0; WORD];
    let n = bytes_of(line, &mut word);
    write_text(to, &word[..n])
}

fn report_line<W: Write>(to: &mut W, line: &[u8]) -> io::Result<()> {
    if !is_word(line) {
        return to.write_all(b"no word\n");
    }
    report_word(to, line)
}

// The line again, and behind it what is due for its word. A comment has nothing behind it.
fn answer_line<W: Write>(to: &mut W, line: &[u8]) -> io::Result<()> {
    to.write_all(line)?;
    if line.starts_with(b"#") {
        return Ok(());
    }
    report_line(to, line)
}

// Each line keeps its line feed; the last may have none.
fn answer_lines<W: Write>(to: &mut W, text: &[u8]) -> io::Result<()> {
    for line in text.split_inclusive(|c| *c == b'\n') {
        answer_line(to, line)?;
    }
    Ok(())
}

fn main(rt: HostRuntime) -> io::Result<()> {
    let mut text = [0; TEXT];
    let n = read_full(&mut rt.stdin(), &mut text)?;
    answer_lines(&mut rt.stdout(), &text[..n])
}
