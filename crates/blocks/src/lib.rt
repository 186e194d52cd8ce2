// What every program of the kit does around its own work: blocks of standard input come in, answers go out on standard output, and words
// for a person on standard error. No contract can say what is read or written, so nothing else of a program stands here; .ci/programs
// tests the built programs. Leans on std's three streams alone.
#![tactic(auto)]

ghost use Rattle.std.specs.Prelude.{◌<◌, ◌≤◌, ◌≡◌, length};
ghost use Rattle.blocks.specs.Stream.{Came, Gone, closed, is_open, most_blocks};

use std::io::{Read, Stderr, Stdin, Stdout};

// Whether a program has to go on: Ok while the stream is open, with how many blocks may still come, and Err where it is closed, with as
// many as when it closed. The field is this crate's own, so that only a read that gave nothing and a write that failed close a stream: a
// program whose contract asks for a closed one cannot give up before. A proved loop has to end, and nothing says that the input does: so
// blocks count down, from a number that no run uses up.
#[derive(Clone, Copy)]
pub struct Stream {
    left: Result<u64, u64>,
}

impl Stream {
    // Nothing was read or written yet.
    pub fn open() -> Stream
        ensures { result ≡ record { left = Ok most_blocks } }
    {
        Stream { left: Ok(u64::MAX) }
    }

    pub fn goes_on(&self) -> bool
        ensures { result ≡ is_open self.now }
    {
        self.left.is_ok()
    }

    // Reads what there is, once, and answers how many bytes came; None closes the stream, at the end of the input. It does not wait for
    // a full block, so that a person or a pipe has the answer to a line before the next one is asked for.
    pub fn read_block(&mut self, mut stdin: Stdin, block: &mut [u8]) -> Option<usize>
        requires { 0 < length block.old }
        ensures { Came self.old (length block.old) result self.new }
    {
        let left = self.left.ok()?;
        // until a block has come the stream is closed
        self.left = Err(left);
        let fewer = left.checked_sub(1)?;
        let bytes = stdin.read(block).unwrap_or(0);
        if bytes == 0 {
            return None;
        }
        self.left = Ok(fewer);
        Some(bytes)
    }

    // Where answers cannot be written nobody reads them any more, and the stream is closed.
    pub fn write_answers(&mut self, stdout: Stdout, answers: &[u8])
        ensures { Gone self.old self.new }
    {
        if stdout.write_all(answers).is_err()
            && let Ok(left) = self.left
        {
            self.left = Err(left);
        }
    }
}

// Reads the input from its start into a buffer, until it ends or the buffer is full, and answers what came. A turn goes on by as many bytes
// as a read gave, which no iterator says.
pub fn read_text(mut stdin: Stdin, text: &mut [u8]) -> &[u8]
    ensures { length result.now ≤ length text.old }
{
    let mut done = 0;
    while done < text.len() {
        let n = stdin.read(&mut text[done..]).unwrap_or(0);
        if n == 0 {
            break;
        }
        done += n;
    }
    &text[..done]
}

// Words for a person. Nothing depends on whether they could be written.
pub fn write_words(stderr: Stderr, words: &[u8]) {
    let _ = stderr.write_all(words);
}
