// Writing answers.
ghost use Rattle.std.specs.Prelude.{◌≡◌, ◌+◌, ◌*◌, ◌≤◌, length, IfOk};
ghost use Rattle.replay.specs.declared.answers.TheConstants.{ANSWERS};

use areas::WORD;
use std::io;
use std::io::{Stdout, Write};

// So many bytes of answers are gathered.
const ANSWERS: usize = 131072;

// Standard output, and the answers not yet written to it: they are gathered in one area, which is written where the next piece has no room.
// Once a write has failed the caller is to stop.
#[derive(Drop)]
pub struct Answers {
    stdout: Stdout,
    bytes: [u8; ANSWERS],
    put: usize,
    ghost inside: { put ≤ ANSWERS },
}

impl Answers {
    pub fn new(stdout: Stdout) -> Self {
        Answers {
            stdout,
            bytes: [0; ANSWERS],
            put: 0,
        }
    }

    pub fn flush(&mut self) -> io::Result<()>
        ensures { IfOk result (λ _. self.new.put ≡ 0) }
    {
        self.stdout.write_all(&self.bytes[..self.put])?;
        self.put = 0;
        Ok(())
    }

    // The place of the next n bytes.
    fn room(&mut self, n: usize) -> io::Result<usize>
        requires { n ≤ ANSWERS }
        ensures { IfOk result (λ from. from + n ≤ ANSWERS) }
    {
        if ANSWERS - self.put < n {
            self.flush()?;
        }
        let from = self.put;
        self.put += n;
        Ok(from)
    }

    pub fn put_bytes(&mut self, s: &[u8]) -> io::Result<()>
        requires { length s.now ≤ ANSWERS }
    {
        let from = self.room(s.len())?;
        self.bytes[from..from + s.len()].copy_from_slice(s);
        Ok(())
    }

    pub fn put_words(&mut self, words: &[u32]) -> io::Result<()>
        requires { 4 * length words.now ≤ ANSWERS }
    {
        let from = self.room(4 * words.len())?;
        let bytes = &mut self.bytes[from..from + 4 * words.len()];
        for (b, word) in bytes.as_chunks_mut().0.iter_mut().zip(words) {
            *b = word.to_le_bytes();
        }
        Ok(())
    }

    pub fn put_flag(&mut self, flag: bool) -> io::Result<()> {
        self.put_bytes(&[flag as u8])
    }

    // The first n words of an area that was lent; whether those past them are unchanged.
    pub fn put_front(&mut self, area: &[u32], n: usize) -> io::Result<bool>
        requires { 4 * length area.now ≤ ANSWERS }
    {
        let (words, rest) = areas::cut(area, n);
        self.put_words(words)?;
        Ok(areas::unchanged(rest, WORD))
    }
}
