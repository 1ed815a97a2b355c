// What the program writes for one word, put together in a lent buffer: "three lines, each a name, a blank and lower-case hex: plain image, minimal
// image, normal form"; "A refusal is one line, `refused N P`, number and place in decimal."
#![tactic(auto)]

ghost use Rattle.std.specs.Prelude.{◌≡◌, ◌<◌};
ghost use Rattle.meaning.specs.Program.{hex_digit, hex, decimal, line, refusal_line, program_text};
ghost use Rattle.groups.specs.Put.{Written as PutBytes};
ghost use Rattle.groups.specs.Filled.{filled, Fits};
ghost use Rattle.query.specs.Trees.{Accepted};
ghost use Rattle.report.specs.Form.{form_bytes};

use forms::Form;
use groups::Writer;
use word::whole::check_word;

// No image and no normal form has more bytes.
const LONGEST: usize = 2048;

// No text has more bytes: two images of 1,538 and a normal form of 2,048, two digits each, and their names, blanks and line feeds.
pub const LONGEST_TEXT: usize = 10272;

// ---------------------------------------------------------------- characters, each behind what the writer has

// "lower-case hex": the digit of a number below 16. std's `from_digit` answers an `Option` of a `char`: two steps more to a byte.
fn digit(n: u8) -> u8
    requires { n < 16 }
    ensures { result ≡ hex_digit n }
{
    if n < 10 { b'0' + n } else { b'a' + (n - 10) }
}

fn put_bytes(w: &mut Writer<'_>, bytes: &[u8])
    requires { Fits w.old bytes.now }
    ensures { w.new ≡ filled w.old bytes.now }
{
    for b in bytes {
        w.put_byte(*b);
    }
}

// Two digits a byte, the higher first.
// By hand: crate hex writes into a slice of just twice the length, which would be cut out of the room first, and answers with a Result.
fn put_hex(w: &mut Writer<'_>, bytes: &[u8])
    requires { Fits w.old (hex bytes.now) }
    ensures { w.new ≡ filled w.old (hex bytes.now) }
{
    for b in bytes {
        w.put_byte(digit(*b / 16));
        w.put_byte(digit(*b % 16));
    }
}

// The digits of the number's tenth, then its last one.
// By hand: `write!` would want a fmt::Write of the writer, with a failure to rule out, and a law that its decimal is the one that is promised.
fn put_decimal(w: &mut Writer<'_>, x: usize)
    requires { Fits w.old (decimal x) }
    ensures { w.new ≡ filled w.old (decimal x) }
{
    if x < 10 {
        return w.put_byte(b'0' + x as u8);
    }
    put_decimal(w, x / 10);
    w.put_byte(b'0' + (x % 10) as u8);
}

// ---------------------------------------------------------------- lines

// "a name, a blank and lower-case hex", and a line feed.
fn put_named(w: &mut Writer<'_>, name: &[u8], bytes: &[u8])
    requires { Fits w.old (line name.now bytes.now) }
    ensures { w.new ≡ filled w.old (line name.now bytes.now) }
{
    put_bytes(w, name);
    w.put_byte(b' ');
    put_hex(w, bytes);
    w.put_byte(b'\n');
}

// The line of one form of an accepted word. No form is refused: all fit into the room.
fn put_line(w: &mut Writer<'_>, form: Form, name: &[u8], word: &[u8])
    requires { Accepted word.now × Fits w.old (line name.now (form_bytes form word.now)) }
    ensures { w.new ≡ filled w.old (line name.now (form_bytes form word.now)) }
{
    let mut room = [0u8; LONGEST];
    let length = pathplus::written(form, word, &mut room).unwrap();
    let answer = &room[..length];
    put_named(w, name, answer);
}

// "plain image, minimal image, normal form"
fn put_lines(w: &mut Writer<'_>, word: &[u8])
    requires { Accepted word.now × Fits w.old (program_text word.now) }
    ensures { w.new ≡ filled w.old (program_text word.now) }
{
    put_line(w, Form::Plain, b"plain", word);
    put_line(w, Form::Minimal, b"minimal", word);
    put_line(w, Form::Normal, b"normal", word);
}

// "`refused N P`, number and place in decimal"
fn put_refusal(w: &mut Writer<'_>, number: usize, place: usize)
    requires { Fits w.old (refusal_line number place) }
    ensures { w.new ≡ filled w.old (refusal_line number place) }
{
    put_bytes(w, b"refused ");
    put_decimal(w, number);
    w.put_byte(b' ');
    put_decimal(w, place);
    w.put_byte(b'\n');
}

// The text for a word.
fn put_text(w: &mut Writer<'_>, word: &[u8])
    requires { Fits w.old (program_text word.now) }
    ensures { w.new ≡ filled w.old (program_text word.now) }
{
    match check_word(word) {
        Err(refused) => put_refusal(w, refused.why.number() as usize, refused.place),
        Ok(()) => put_lines(w, word),
    }
}

// The text for a word, from the front of the buffer on; the answer is how many bytes it has.
pub fn program_text(word: &[u8], text: &mut [u8; LONGEST_TEXT]) -> usize
    ensures { PutBytes text.old 0 (program_text word.now) text.new result }
{
    let mut w = Writer {
        room: text,
        length: 0,
    };
    put_text(&mut w, word);
    w.length
}
