// What comes next on standard input, and what is then left of its case. "All numbers are little-endian, and every list comes after its length."
// Where the input has ended, zeros come. Where a read fails, its error is the answer: what was read before it stays read, and what is left of the
// case counts what came as a whole.
ghost use Rattle.std.specs.Prelude.{◌≡◌, ◌≤◌, length, IfOk, OnErr};
ghost use Rattle.streams.specs.Counts.{IsPrefixLen};

use std::io::Read;
use std::{fmt, io};
use streams::read_full;

// What is wrong with a case: it has another length than it says, the corpus ends in it, or a length in it is above what the buffer holds.
#[derive(Clone, Copy)]
pub enum Damage {
    EndsElsewhere,
    CutOff,
    TooLong,
}

impl fmt::Display for Damage {
    fn fmt<W: fmt::Write>(&self, f: &mut fmt::Formatter<W>) -> fmt::Result {
        match self {
            Damage::EndsElsewhere => write!(f, "ends elsewhere"),
            Damage::CutOff => write!(f, "is cut off"),
            Damage::TooLong => write!(f, "is longer than its buffer"),
        }
    }
}

// The corpus from here on, and how many bytes are left of the case, or what is wrong with it. What is wrong first stays, and reading goes on to the
// end of the case: a read that fails there is still told.
#[derive(Drop)]
pub struct Input<R> {
    pub from: R,
    pub left: Result<usize, Damage>,
}

// What is left when so many bytes were asked for, so many could be held, and so many came.
fn rest(left: usize, asked: usize, held: usize, came: usize) -> Result<usize, Damage> {
    if held < asked {
        return Err(Damage::TooLong);
    }
    if came < asked {
        return Err(Damage::CutOff);
    }
    left.checked_sub(asked).ok_or(Damage::EndsElsewhere)
}

impl<R: Read> Input<R> {
    fn count(&mut self, asked: usize, held: usize, came: usize) {
        self.left = self.left.and_then(|left| rest(left, asked, held, came));
    }

    // So many bytes, put at the start of the buffer; how many they are, or as many as it holds.
    pub fn bytes(&mut self, buffer: &mut [u8], asked: usize) -> io::Result<usize>
        ensures ok { IfOk result (λ n. IsPrefixLen n buffer.new) }
        ensures err { OnErr result ((self.new.left ≡ self.old.left) × (length buffer.new ≡ length buffer.old)) }
    {
        let held = asked.min(buffer.len());
        let came = read_full(&mut self.from, &mut buffer[..held])?;
        self.count(asked, held, came);
        Ok(held)
    }

    pub fn number(&mut self) -> io::Result<u32>
        ensures { OnErr result (self.new.left ≡ self.old.left) }
    {
        let mut bytes = [0; 4];
        self.bytes(&mut bytes, 4)?;
        Ok(u32::from_le_bytes(bytes))
    }

    // Two numbers, the lower first, and not eight bytes at once: a case can end between them, and what is wrong with it then is told of the second.
    pub fn long(&mut self) -> io::Result<u64> {
        let low = self.number()?;
        let high = self.number()?;
        Ok(u64::from(high) << 32 | u64::from(low))
    }

    // A length that is promised to be at most so much.
    pub fn length(&mut self, most: usize) -> io::Result<usize>
        ensures ok { IfOk result (λ n. n ≤ most) }
        ensures err { OnErr result (self.new.left ≡ self.old.left) }
    {
        let length = self.number()? as usize;
        if length <= most {
            return Ok(length);
        }
        self.count(length, most, 0);
        Ok(most)
    }

    // A list of numbers, put at the start of list; how many they are.
    pub fn list(&mut self, list: &mut [u32]) -> io::Result<usize>
        ensures ok { IfOk result (λ n. IsPrefixLen n list.new) }
        ensures err { OnErr result (length list.new ≡ length list.old) }
    {
        let rows = self.length(list.len())?;
        for row in &mut list[..rows] {
            *row = self.number()?;
        }
        Ok(rows)
    }

    // Whether the case ends here.
    pub fn ended(&self) -> Result<(), Damage> {
        match self.left? {
            0 => Ok(()),
            _ => Err(Damage::EndsElsewhere),
        }
    }
}
