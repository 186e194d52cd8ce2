// Lines out of blocks. A line that lies inside a block is used where it stands; a line that has not ended is carried over to the next
// block: in a `Carry`, or in a buffer that the caller lends, of which the first `used` bytes are the carry. The console answers every line
// of over 100 bytes in one way, so 101 bytes are kept of a line and the rest is let go.
#![tactic(auto)]

ghost use Rattle.std.specs.Prelude.{◌≡◌, ◌+◌, ◌-◌, ◌≤◌};
ghost use Rattle.common.specs.Words.{length, replicate};
ghost use Rattle.common.specs.Stores.{part};
ghost use Rattle.lines.specs.Lines.{carry_limit};
ghost use Rattle.lines.specs.Ends.{stride, feed_in, end_of};
ghost use Rattle.lines.specs.Strides.{skip_of};
ghost use Rattle.lines.specs.Held.{carried_of, held_of, joined_of, joined_in, LineGives};

pub const CARRY_LIMIT: usize = 101;

const LINE_FEED: u8 = 10;

// Bytes that are looked at together: a fixed count without a way out is compiled to one comparison.
const STRIDE: usize = 16;

// Whether one of the next bytes, a stride of them, is a line feed.
fn near(piece: &[u8], from: usize) -> bool
    requires { from + stride ≤ length piece.now }
    ensures { result ≡ feed_in piece.now from stride }
{
    // `any` has a way out
    let mut seen = false;
    for byte in &piece[from..from + STRIDE] {
        if *byte == LINE_FEED {
            seen = true;
        }
    }
    seen
}

// Passes over whole strides that have no line feed, up to the first that has one or is cut short by the block's end.
fn skip(piece: &[u8], from: usize) -> usize
    requires { from ≤ length piece.now }
    ensures { result ≡ skip_of piece.now from }
{
    let mut i = from;
    while STRIDE <= piece.len() - i {
        if near(piece, i) {
            return i;
        }
        i += STRIDE;
    }
    i
}

// The place of the first line feed from a place on, or the block's end.
pub fn end_of(piece: &[u8], from: usize) -> usize
    requires { from ≤ length piece.now }
    ensures { result ≡ end_of piece.now from }
{
    // `position` and `enumerate` count twice, which shows in the time of short lines
    for i in skip(piece, from)..piece.len() {
        if piece[i] == LINE_FEED {
            return i;
        }
    }
    piece.len()
}

// Puts a part of a line behind the carry, as far as it is kept, and answers the carry's new length.
pub fn keep(held: &mut [u8], used: usize, xs: &[u8]) -> usize
    requires { (used ≤ carry_limit) × (carry_limit ≤ length held.old) }
    ensures { (result ≡ carried_of used xs.now) × (held.new ≡ held_of held.old used xs.now) }
{
    let n = xs.len().min(CARRY_LIMIT - used);
    let end = used + n;
    held[used..end].copy_from_slice(&xs[..n]);
    end
}

// Where the line that ends at `to` was begun by a carry, puts its part of this block behind the carry; answers how many bytes of the
// line stand in the buffer then, none where the whole line lies in the block.
pub fn join(held: &mut [u8], used: usize, piece: &[u8], from: usize, to: usize) -> usize
    requires { (used ≤ carry_limit) × (carry_limit ≤ length held.old) × (from ≤ to) × (to ≤ length piece.now) }
    ensures { (result ≡ joined_of used (part piece.now from (to - from)))
        × (held.new ≡ joined_in held.old used (part piece.now from (to - from))) }
{
    if used == 0 {
        return 0;
    }
    keep(held, used, &piece[from..to])
}

// The start of a line that has not ended: the first `used` bytes of `held`. What `held` has behind them means nothing.
#[derive(Drop)]
pub struct Carry {
    pub held: [u8; CARRY_LIMIT],
    pub used: usize,
    ghost within: { used ≤ carry_limit },
    ghost room: { carry_limit ≤ length held },
}

impl Carry {
    // Nothing is carried.
    pub fn new() -> Carry
        ensures used { result.used ≡ 0 }
        ensures held { result.held ≡ replicate carry_limit 0 }
    {
        Carry {
            held: [0; CARRY_LIMIT],
            used: 0,
        }
    }

    // Puts a part of a line behind the carry, as far as it is kept.
    pub fn keep(&mut self, xs: &[u8])
        ensures used { self.new.used ≡ carried_of self.old.used xs.now }
        ensures held { self.new.held ≡ held_of self.old.held self.old.used xs.now }
    {
        self.used = keep(&mut self.held, self.used, xs);
    }

    // Takes the line that ends at `to` out of the carry. Where the carry began it, its part of this block is put behind the carry; answers
    // how many bytes of the line stand in `held` then, none where the whole line lies in the block.
    pub fn join(&mut self, piece: &[u8], from: usize, to: usize) -> usize
        requires { (from ≤ to) × (to ≤ length piece.now) }
        ensures joined { result ≡ joined_of self.old.used (part piece.now from (to - from)) }
        ensures held { self.new.held ≡ joined_in self.old.held self.old.used (part piece.now from (to - from)) }
        ensures emptied { self.new.used ≡ 0 }
    {
        let n = join(&mut self.held, self.used, piece, from, to);
        self.used = 0;
        n
    }
}

// The line, where it stands.
pub fn line_of<'a>(held: &'a [u8], n: usize, piece: &'a [u8], from: usize, to: usize) -> &'a [u8]
    requires { (n ≤ length held.now) × (from ≤ to) × (to ≤ length piece.now) }
    ensures { LineGives held.entry n piece.entry from to result }
{
    if 0 < n {
        return &held[..n];
    }
    let end = from + (to - from).min(CARRY_LIMIT);
    &piece[from..end]
}
