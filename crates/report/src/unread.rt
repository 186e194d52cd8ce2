// The reader's refusals in words, as a compiler would say them: `line 7, column 12: found 'perod', expected a property or '}' (20)`.
ghost use Rattle.std.specs.Prelude.{◌≤◌};
ghost use Rattle.common.specs.Words.{length};

use crate::expected::Expected;
use crate::found::{Found, point_of};
use crate::put;
use findings::Refusal;
use std::fmt;
use std::fmt::Display;

// Why a text is refused.
#[derive(Clone, Copy)]
struct Unread<'a> {
    text: &'a [u8],
    refusal: Refusal,
}

impl Display for Unread<'_> {
    fn fmt<W: fmt::Write>(&self, f: &mut fmt::Formatter<W>) -> fmt::Result {
        let text = self.text;
        let Refusal { rule, place, why } = self.refusal;
        let point = point_of(text, place);
        let found = Found { text, place, why };
        let expected = Expected { text, place, why };
        let number = u8::from(rule);
        write!(
            f,
            "{point}: found {found}, expected {expected} ({number})\n"
        )
    }
}

// Why the reader refuses a text: the line, and how many bytes it has.
pub fn say_unread(out: &mut [u8], text: &[u8], refusal: Refusal) -> usize
    ensures { result ≤ length out.old }
{
    put(out, Unread { text, refusal })
}
