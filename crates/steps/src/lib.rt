// Rules of a grammar over a plain text: what a rule says, and the rules of one token.
#![tactic(auto)]

ghost use Rattle.std.specs.Prelude.{◌≡◌, ◌≤◌, Err};
ghost use Rattle.common.specs.Words.{length};
ghost use Rattle.words.specs.Letters.{same};
ghost use Rattle.words.specs.Words.{is_name};
ghost use Rattle.tokens.specs.Tokens.{from};
ghost use Rattle.tokens.specs.Spots.{token_of};
ghost use Rattle.steps.specs.declared.faults.Rule.TheVariants.{Unfit};
ghost use Rattle.steps.specs.Faults.{fault};
ghost use Rattle.steps.specs.Steps.{◌⟫◌, head, stop_at, any, the, name, own};
ghost use Rattle.steps.specs.Lifted.{lift, first, first_kind, second_kind};

use tokens::{Spot, spot_at};
use words::alike;
use words::kinds::Kind;

pub mod faults; // faults.rt: refusals

pub use faults::{Fault, Rule, Why, worse};

// What a rule says: the place that it went to, past what it reads, or the fault that it stopped at. Each rule takes what the rule before
// it said, and where that stopped hands it on.
pub type Went = Result<usize, Fault>;

// The kind of the next token, the text's end where a rule has stopped.
pub fn next(text: &[u8], went: Went) -> Kind
    ensures { result ≡ first_kind (lift text.now went) }
{
    let Ok(at) = went else {
        return Kind::Ended;
    };
    spot_at(text, at).kind
}

// The kind of the token behind the next.
pub fn second(text: &[u8], went: Went) -> Kind
    ensures { result ≡ second_kind (lift text.now went) }
{
    let Ok(at) = went else {
        return Kind::Ended;
    };
    let first = spot_at(text, at);
    if first.kind == Kind::Ended {
        return Kind::Ended;
    }
    spot_at(text, first.end).kind
}

// The place of the next token, 0 where a rule has stopped.
pub fn start_of(text: &[u8], went: Went) -> usize
    ensures { result ≡ (first (lift text.now went)).start }
{
    let Ok(at) = went else {
        return 0;
    };
    spot_at(text, at).start
}

// Stops at the next token.
pub fn stop(text: &[u8], went: Went, rule: Rule, why: Why) -> Went
    ensures { lift text.now result ≡ lift text.now went ⟫ stop_at rule why }
{
    let at = went?;
    Err(Fault {
        rule,
        place: spot_at(text, at).start,
        why,
    })
}

// What fits no rule.
pub fn unfit(spot: Spot, why: Why) -> Went
    ensures { result ≡ Err (fault Unfit spot.start why) }
{
    Err(Fault {
        rule: Rule::Unfit,
        place: spot.start,
        why,
    })
}

// The next token, whatever it is; the text's end stays.
pub fn any(text: &[u8], went: Went) -> Went
    ensures { lift text.now result ≡ lift text.now went ⟫ any }
{
    let at = went?;
    let spot = spot_at(text, at);
    if spot.kind == Kind::Ended {
        return went;
    }
    Ok(spot.end)
}

// The next token is of this kind.
pub fn symbol(text: &[u8], went: Went, kind: Kind) -> Went
    ensures { lift text.now result ≡ lift text.now went ⟫ the kind }
{
    let at = went?;
    let spot = spot_at(text, at);
    if spot.kind != kind {
        return unfit(spot, Why::Expected(kind));
    }
    if kind == Kind::Ended {
        return went;
    }
    Ok(spot.end)
}

// A reserved word is no name.
pub fn is_name(kind: Kind) -> bool
    ensures { result ≡ is_name kind }
{
    matches!(
        kind,
        Kind::Period
            | Kind::Deadline
            | Kind::DispatchProtocol
            | Kind::DispatchOffset
            | Kind::Priority
            | Kind::Timing
            | Kind::TimingProperties
            | Kind::ThreadProperties
            | Kind::CommunicationProperties
            | Kind::Ms
            | Kind::Sec
            | Kind::Periodic
            | Kind::Delayed
            | Kind::Name
    )
}

// The next token is a name.
pub fn name(text: &[u8], went: Went) -> Went
    ensures { lift text.now result ≡ lift text.now went ⟫ name }
{
    let at = went?;
    let spot = spot_at(text, at);
    if !is_name(spot.kind) {
        return unfit(spot, Why::Expected(Kind::Name));
    }
    Ok(spot.end)
}

// Whether two tokens have the same bytes. The text's end has none.
pub fn same_bytes(text: &[u8], a: Spot, b: Spot) -> bool
    requires { (a.start ≤ a.end) × (a.end ≤ length text.now) × (b.start ≤ b.end) × (b.end ≤ length text.now) }
    ensures { result ≡ same (token_of text.now a).letters (token_of text.now b).letters }
{
    if a.end - a.start != b.end - b.start {
        return false;
    }
    alike(text, a.start, text, b.start, a.end - a.start)
}

// The next token is the name that stands at a place.
pub fn own(text: &[u8], went: Went, at: usize) -> Went
    ensures { lift text.now result ≡ lift text.now went ⟫ own (head (from text.now at)) }
{
    let here = went?;
    let spot = spot_at(text, here);
    if !is_name(spot.kind) {
        return unfit(spot, Why::ItsOwn);
    }
    let its = spot_at(text, at);
    if its.kind == Kind::Ended {
        return unfit(spot, Why::ItsOwn);
    }
    if !same_bytes(text, spot, its) {
        return unfit(spot, Why::ItsOwn);
    }
    Ok(spot.end)
}
