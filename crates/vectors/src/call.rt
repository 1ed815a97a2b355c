// One call and its comparison with what is told of it: the result, and every byte of the lent buffer and behind it.
use crate::input::Input;
use std::io;
use std::io::Read;

// What a buffer is filled with before the call.
const FILLED: u8 = 0xA5;

// A room and what lies behind it.
const ROOM: usize = 2064;

// A workspace and what lies behind it.
const WORKSPACE: usize = 32784;

// No list of parents or labels is longer.
const ROWS: usize = 1026;

// How many bytes of an answer are told: a result is the answer's length, or a refusal, which has none.
fn answer_length(res: u64) -> usize {
    u32::try_from(res).unwrap_or(0) as usize
}

// FNV-1a of 32 bits.
fn checksum(buffer: &[u8]) -> u32 {
    buffer.iter().fold(2166136261, |sum, byte| {
        (sum ^ u32::from(*byte)).wrapping_mul(16777619)
    })
}

impl<R: Read> Input<R> {
    // Whether one form of the word comes out as told: "u32 room length, u64 result, the answer's bytes if it is no refusal".
    pub fn form<F: FnOnce(&[u8], &mut [u8]) -> u64>(
        &mut self,
        word: &[u8],
        write: F,
    ) -> io::Result<bool>
        requires { F.IsAlwaysCallable write }
    {
        let lent = self.length(ROOM)?;
        let told = self.long()?;
        let mut bytes = [FILLED; ROOM];
        self.bytes(&mut bytes, answer_length(told))?;
        let mut room = [FILLED; ROOM];
        let result = write(word, &mut room[..lent]);
        Ok(result == told && room == bytes)
    }

    // Whether the question for a table is answered as told: "u64 m, u64 n, u32 workspace length", then "u64 result, u32 checksum".
    fn answer(&mut self, word: &[u8], parents: &[u32], labels: &[u32]) -> io::Result<bool> {
        let m = self.long()?;
        let n = self.long()?;
        let lent = self.length(WORKSPACE)?;
        let mut workspace = [FILLED; WORKSPACE];
        let result = pathplus::pathplus_selects(
            word,
            parents,
            labels,
            m,
            n,
            &mut workspace[..lent],
        );
        let told = self.long()?;
        let sum = self.number()?;
        Ok(result == told && checksum(&workspace) == sum)
    }

    // Whether a question comes out as told: "parents; labels;" and the question for them.
    pub fn question(&mut self, word: &[u8]) -> io::Result<bool> {
        let mut parents = [0; ROWS];
        let p = self.list(&mut parents)?;
        let mut labels = [0; ROWS];
        let l = self.list(&mut labels)?;
        self.answer(word, &parents[..p], &labels[..l])
    }
}
