// What was expected at a place, in words, by a refusal's reason.
use crate::found::token_at;
use std::fmt;
use std::fmt::{Display, Write};
use steps::Why;
use words::kinds::Kind;

// What was expected at a place of a text, where it is refused.
#[derive(Clone, Copy)]
pub struct Expected<'a> {
    pub text: &'a [u8],
    pub place: usize,
    pub why: Why,
}

impl Display for Expected<'_> {
    fn fmt<W: fmt::Write>(&self, f: &mut fmt::Formatter<W>) -> fmt::Result {
        match self.why {
            Why::Expected(kind) => write!(f, "{}", Token(kind)),
            Why::ItsOwn => f.write_str("the name that this declaration begins with"),
            Why::AValue => f.write_str("a value"),
            Why::TooDeep => f.write_str("at most 8 brackets within each other"),
            Why::ADeclaration => f.write_str("a package or a declaration"),
            Why::NotWhole => f.write_str("a whole number of ms"),
            Why::UnitUnknown => f.write_str("the unit ms or sec"),
            Why::UnitMissing => f.write_str("a unit behind it, ms or sec"),
            Why::APriority => f.write_str("a Priority, a whole number of 0 to 255"),
            Why::SecondTime => f.write_str("this property once"),
            Why::FromOutside => f.write_str("this property with a thread or its type"),
            Why::TooLong => f.write_str("a text of at most 262144 bytes"),
            Why::NoProcess => f.write_str("a process implementation"),
            Why::DeclaredBefore => f.write_str(declared_words(self.text, self.place)),
            Why::NoSuchType => f.write_str("a thread type that stands in the text"),
            Why::NoPeriod => f.write_str("a thread with a Period"),
            Why::NotPeriodic => f.write_str("a thread with Dispatch_Protocol => Periodic"),
            Why::HasOffset => f.write_str("a thread without a Dispatch_Offset"),
            Why::NoSuchThread => f.write_str("a thread of the process"),
            Why::ConnectedBefore => f.write_str("one connection from a thread to a port"),
            Why::NoSuchPort => f.write_str("a port of the thread's type"),
            Why::WrongDirection => f.write_str("a port of the connection's direction"),
            Why::NotDelayed => f.write_str("Timing => Delayed on the connection or this port"),
        }
    }
}

// A token that a rule misses.
#[derive(Clone, Copy)]
struct Token(Kind);

impl Display for Token {
    // Where others may stand there as well, they are named too.
    fn fmt<W: fmt::Write>(&self, f: &mut fmt::Formatter<W>) -> fmt::Result {
        match self.0 {
            Kind::Ended => f.write_str("the end of the text"),
            Kind::Number => f.write_str("a number"),
            Kind::Name => f.write_str("a name"),
            Kind::Becomes => f.write_str("'=>'"),
            Kind::Arrow => f.write_str("'->' or '->>'"),
            Kind::Sign(b')') => f.write_str("',' or ')'"),
            Kind::Sign(b']') => f.write_str("a name or ']'"),
            Kind::Sign(b'}') => f.write_str("a property or '}'"),
            Kind::Sign(b'A') => f.write_str("an annex's text, '{** .. **}'"),
            Kind::Sign(sign) => write!(f, "'{}'", char::from(sign)),
            Kind::End => f.write_str("a section, a declaration or 'end'"),
            Kind::Event => f.write_str("a kind of port, as 'data port' or 'event port'"),
            Kind::Implementation => f.write_str("'implementation'"),
            Kind::Out => f.write_str("'in', 'out' or another feature"),
            Kind::Port => f.write_str("'port'"),
            Kind::Thread => f.write_str("'thread', 'data', 'subprogram' or 'abstract'"),
            // no rule misses any other: the kinds that begin a rule were seen before it
            _ => f.write_str("another token"),
        }
    }
}

// What was declared before is the process, where it is no name.
fn declared_words(text: &[u8], place: usize) -> &'static str {
    if token_at(text, place).kind == Kind::Process {
        return "one process implementation";
    }
    "a name that was not declared before"
}
