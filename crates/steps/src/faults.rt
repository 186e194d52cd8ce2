// Refusals: document 02's rules, their places and reasons, and which of two counts.
ghost use Rattle.std.specs.Prelude.{◌≡◌};
ghost use Rattle.steps.specs.Faults.{number_of, before, worse};

use words::kinds::Kind;

// Document 02's rules, in the order of their numbers, 20 to 24.
#[derive(Clone, Copy, PartialEq, Eq)]
pub enum Rule {
    Unfit,
    Unknown,
    NoTime,
    TooDeep,
    Twice,
}

// Document 02's number of a rule.
impl From<Rule> for u8 {
    ghost from_gives = { λ rule number. number ≡ number_of rule };

    fn from(rule: Rule) -> u8 {
        match rule {
            Rule::Unfit => 20,
            Rule::Unknown => 21,
            Rule::NoTime => 22,
            Rule::TooDeep => 23,
            Rule::Twice => 24,
        }
    }
}

// For people: what was expected, or what is wrong.
#[derive(Clone, Copy, PartialEq, Eq)]
pub enum Why {
    Expected(Kind),
    // The name that stands at the begin of what ends here.
    ItsOwn,
    AValue,
    TooDeep,
    ADeclaration,
    NotWhole,
    UnitUnknown,
    UnitMissing,
    APriority,
    SecondTime,
    FromOutside,
    NoProcess,
    DeclaredBefore,
    NoSuchType,
    NoPeriod,
    NotPeriodic,
    HasOffset,
    NoSuchThread,
    ConnectedBefore,
    NoSuchPort,
    WrongDirection,
    NotDelayed,
    TooLong,
}

// A refusal. The place is the number of bytes before the token.
#[derive(Clone, Copy, PartialEq, Eq)]
pub struct Fault {
    pub rule: Rule,
    pub place: usize,
    pub why: Why,
}

// Whether one fault lies before another: at a lesser place, or at its place with a lower number.
fn lies_before(b: Fault, a: Fault) -> bool
    ensures { result ≡ before b a }
{
    b.place < a.place || b.place == a.place && u8::from(b.rule) < u8::from(a.rule)
}

// The one at the lesser place, at one place the one with the lower number; of two that are alike the first.
pub fn worse(a: Option<Fault>, b: Option<Fault>) -> Option<Fault>
    ensures { result ≡ worse a b }
{
    match (a, b) {
        (_, None) => a,
        (None, _) => b,
        (Some(first), Some(second)) if lies_before(second, first) => b,
        (Some(_), Some(_)) => a,
    }
}
