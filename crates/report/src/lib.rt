// Why an AADL text or its table is refused, in words for people.
#![tactic(auto)]

mod expected; // expected.rt: what was expected, in words
mod found; // found.rt: what stands at a place
mod planned; // planned.rt: planning's refusals in words
mod unread; // unread.rt: the reader's refusals in words

ghost use Rattle.std.specs.Prelude.{◌≤◌};
ghost use Rattle.common.specs.Words.{length};

pub use planned::say_refused;
use std::fmt::Display;
use std::io::Write;
pub use unread::say_unread;

// Enough for any line in words.
pub const WORDS_ROOM: usize = 256;

// The words of a value at the start of lent memory, and how many bytes they have. What does not fit is left out.
fn put(out: &mut [u8], words: impl Display + Drop) -> usize
    ensures { result ≤ length out.old }
{
    let room = out.len();
    let mut rest = out;
    let _ = write!(rest, "{words}");
    room.saturating_sub(rest.len())
}
