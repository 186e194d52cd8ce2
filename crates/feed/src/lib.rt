// Blocks of input to answers: the lines that end in a block are answered one after another, until the block is used up or the room for
// answers is short. A line that has not ended goes on in the next block: its start is the carry.
//
// A desk is 2 KB: it is lent, and the loop lends its plan and its state on. It remembers the window that a receive looked into for the next
// one.
#![tactic(auto)]

ghost use Rattle.std.specs.Prelude.{◌≡◌, ◌++◌, ◌-◌, ◌≤◌};
ghost use Rattle.common.specs.Words.{length, take};
ghost use Rattle.common.specs.Stores.{part};
ghost use Rattle.digits.specs.Hex.{most_bytes};
ghost use Rattle.desk.specs.Desk.{SoundDesk};
ghost use Rattle.console.specs.Framing.{framed_bytes};
ghost use Rattle.lines.specs.Lines.{carry_limit, cut};
ghost use Rattle.lines.specs.Carried.{carried};
ghost use Rattle.feed.specs.Outcome.{console_of, fed_from, HeldOutcome, Outcome};

use desk::Desk;
use digits::hex::BYTES;
use frames::frame::{frame_of, payload_in};
use lines::Carry;

// Room that every answer has.
pub const ENOUGH: usize = 64;

// Where in the block it stopped, and how many bytes of answers were written.
#[derive(Drop)]
pub struct Fed {
    pub next: usize,
    pub written: usize,
}

// The bytes of the line that goes on at a place and ends before `end`, and how many they are. Nothing is carried any more.
fn bytes_until(
    held: &mut [u8],
    used: &mut usize,
    piece: &[u8],
    at: usize,
    end: usize,
    bytes: &mut [u8],
) -> usize
    requires { (used.old ≤ carry_limit) × (carry_limit ≤ length held.old) × (at ≤ end) × (end ≤ length piece.now)
        × (most_bytes ≤ length bytes.old) }
    ensures count { result ≤ most_bytes }
    ensures bytes { take result bytes.new ≡ framed_bytes (cut (take used.old held.old ++ part piece.now at (end - at))) }
    ensures emptied { used.new ≡ 0 }
{
    let n = lines::join(held, *used, piece, at, end);
    *used = 0;
    let line = lines::line_of(held, n, piece, at, end);
    console::bytes_in(line, bytes)
}

// Feeds a block from a place on. The carry is the first `used` bytes of `held`, a buffer of any length that has room for a carry. What
// `held` has behind them means nothing.
pub fn feed_held(
    desk: &mut Desk,
    memory: &mut [u8],
    held: &mut [u8],
    used: &mut usize,
    piece: &[u8],
    from: usize,
    out: &mut [u8],
) -> Fed
    requires { (used.old ≤ carry_limit) × (carry_limit ≤ length held.old) × (from ≤ length piece.now) × SoundDesk desk.old }
    ensures outcome { HeldOutcome (fed_from (console_of desk.old memory.old) (take used.old held.old) piece.now from out.old)
        piece.now from out.old result desk.new memory.new held.new used.new out.new }
    ensures carry_fits { (used.new ≤ carry_limit) × (length held.new ≡ length held.old) }
    ensures sound_desk { SoundDesk desk.new }
{
    let mut remembered = None;
    let mut at = from;
    let mut w: usize = 0;
    // the bytes of one line after another: each turn reads only what it wrote
    let mut bytes = [0; BYTES];
    while ENOUGH <= out.len() - w {
        let e = lines::end_of(piece, at);
        if piece.len() <= e {
            *used = lines::keep(held, *used, &piece[at..]);
            return Fed {
                next: e,
                written: w,
            };
        }
        let n = bytes_until(held, used, piece, at, e, &mut bytes);
        let framed = &bytes[..n];
        let frame = frame_of(framed);
        at = e + 1;
        if calls::is_call(frame) {
            let runs = desk.running;
            let done = calls::call_line(
                runs,
                true,
                &desk.plan,
                &mut desk.state,
                memory,
                frame,
                payload_in(framed),
                &mut out[w..],
                remembered,
            );
            remembered = done.remembered;
            w += done.written;
        } else {
            let written = desk::set_table(desk, memory, frame, &mut out[w..]);
            // another plan has other windows
            remembered = None;
            w += written;
        }
    }
    Fed {
        next: at,
        written: w,
    }
}

// The same with a `Carry`.
pub fn feed(
    desk: &mut Desk,
    memory: &mut [u8],
    carry: &mut Carry,
    piece: &[u8],
    from: usize,
    out: &mut [u8],
) -> Fed
    requires { (from ≤ length piece.now) × SoundDesk desk.old }
    ensures outcome { Outcome (fed_from (console_of desk.old memory.old) (carried carry.old) piece.now from out.old)
        piece.now from out.old result desk.new memory.new carry.new out.new }
    ensures sound_desk { SoundDesk desk.new }
{
    feed_held(
        desk,
        memory,
        &mut carry.held,
        &mut carry.used,
        piece,
        from,
        out,
    )
}
