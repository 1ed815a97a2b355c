// The program: "It reads up to 4,097 bytes of standard input as one word" and writes the text of it. A byte past the longest word is enough
// to refuse.
#![tactic(auto)]

use report::LONGEST_TEXT;
use std::io;
use std::io::Write;
use streams::read_full;

fn main(rt: HostRuntime) -> io::Result<()> {
    let mut word = [0u8; 4097];
    let read = read_full(&mut rt.stdin(), &mut word)?;
    let mut text = [0u8; LONGEST_TEXT];
    let length = report::program_text(&word[..read], &mut text);
    rt.stdout().write_all(&text[..length])
}
