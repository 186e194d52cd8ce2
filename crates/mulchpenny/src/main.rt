// Mulchpenny's console: answers each line of standard input on standard output. Input is read in blocks, and the answers to a block are
// out before the next read, so that a person or a pipe sees each answer at once. What is done with a block is proved, by `feed` and
// `console`; what is read and written no contract can say, and .ci/programs tests it.
#![tactic(auto)]

ghost use Rattle.std.specs.Prelude.{◌≡◌, ◌<◌, ◌≤◌};
ghost use Rattle.common.specs.Words.{false, length};
ghost use Rattle.blocks.specs.Stream.{Gone, is_open};
ghost use Rattle.desk.specs.Desk.{SoundDesk};
ghost use Rattle.feed.specs.Feed.{enough};
ghost use Rattle.feed.specs.Answers.{console_of};
ghost use Rattle.lines.specs.Carried.{carried};
ghost use Rattle.mulchpenny.specs.Block.{BlockGives, LastGives};

use blocks::Stream;
use desk::Desk;
use lines::Carry;
use plan::Plan;
use std::io::{Stdin, Stdout};

const MEMORY: usize = Plan::MOST_SLOTS * Plan::SLOT_BYTES;

// A block, and the answers to it that are written at once.
const BLOCK: usize = 65_536;

// Answers the lines that end in a block: all of them, unless the answers cannot be written, which closes the stream. Answers where in the
// block it stopped.
fn answer_block(
    stdout: Stdout,
    desk: &mut Desk,
    memory: &mut [u8],
    carry: &mut Carry,
    piece: &[u8],
    out: &mut [u8],
    stream: &mut Stream,
) -> usize
    requires { (enough ≤ length out.old) × SoundDesk desk.old }
    ensures block_gives { BlockGives (console_of desk.old memory.old) (carried carry.old) piece.now
        result (console_of desk.new memory.new) (carried carry.new) stream.new }
    ensures goes_on { SoundDesk desk.new × Gone stream.old stream.new }
{
    let mut at: usize = 0;
    while at < piece.len() {
        let fed = feed::feed(desk, memory, carry, piece, at, out);
        at = fed.next;
        stream.write_answers(stdout, &out[..fed.written]);
        if !stream.goes_on() {
            return at;
        }
    }
    at
}

// Answers a last line without its end, as if its end had come: where a byte of it came, one line end more is a block.
fn answer_last(
    stdout: Stdout,
    desk: &mut Desk,
    memory: &mut [u8],
    carry: &mut Carry,
    out: &mut [u8],
    mut stream: Stream,
)
    requires { (enough ≤ length out.old) × SoundDesk desk.old }
    ensures { LastGives (console_of desk.old memory.old) (carried carry.old) (console_of desk.new memory.new) (carried carry.new) }
{
    if carry.used == 0 {
        return;
    }
    answer_block(stdout, desk, memory, carry, b"\n", out, &mut stream);
}

// Answers the whole input, block by block, until the stream is closed.
fn answer_all(
    stdin: Stdin,
    stdout: Stdout,
    memory: &mut [u8],
    piece: &mut [u8],
    out: &mut [u8],
) -> Stream
    requires { (0 < length piece.old) × (enough ≤ length out.old) }
    ensures { is_open result ≡ false }
{
    let mut desk = Desk::new();
    let mut carry = Carry::new();
    let mut stream = Stream::open();
    while stream.goes_on() {
        let Some(n) = stream.read_block(stdin, piece) else {
            answer_last(stdout, &mut desk, memory, &mut carry, out, stream);
            return stream;
        };
        answer_block(
            stdout,
            &mut desk,
            memory,
            &mut carry,
            &piece[..n],
            out,
            &mut stream,
        );
    }
    stream
}

fn main(rt: HostRuntime) {
    let mut memory = [0u8; MEMORY];
    let mut piece = [0u8; BLOCK];
    let mut out = [0u8; BLOCK];
    answer_all(rt.stdin(), rt.stdout(), &mut memory, &mut piece, &mut out);
}
