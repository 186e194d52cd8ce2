// Priorities: a number without a point, 255 at most.
ghost use Rattle.std.specs.Prelude.{◌≡◌, ◌≤◌};
ghost use Rattle.common.specs.Words.{length};
ghost use Rattle.tokens.specs.Tokens.{from};
ghost use Rattle.tokens.specs.Spots.{token_of};
ghost use Rattle.steps.specs.Steps.{On};
ghost use Rattle.steps.specs.Lifted.{lift};
ghost use Rattle.times.specs.Sums.{Forms};
ghost use Rattle.times.specs.Priorities.{priority_of, priority_from};

use crate::{Formed, odd, sum_of, unformed};
use steps::{Rule, Went, Why, unfit};
use tokens::{Spot, spot_at};
use words::kinds::Kind;

const MOST: usize = 255;

// A number as a priority: one with a point fits no rule, one that is too great is noted.
fn priority_of(text: &[u8], number: Spot) -> Formed
    requires { (number.start ≤ number.end) × (number.end ≤ length text.now) }
    ensures { Forms text.now result
        (priority_of (token_of text.now number) (On (from text.now number.end))) }
{
    let s = sum_of(text, number.start, number.end, 0);
    if s.point {
        return unformed(unfit(number, Why::APriority));
    }
    if MOST < s.ticks {
        return odd(Ok(number.end), Rule::Unfit, number.start, Why::APriority);
    }
    Formed {
        went: Ok(number.end),
        value: s.ticks + 2,
        fault: None,
    }
}

// NUMBER without a point
pub fn priority(text: &[u8], went: Went) -> Formed
    ensures { Forms text.now result (priority_from (lift text.now went)) }
{
    let Ok(at) = went else {
        return unformed(went);
    };
    let number = spot_at(text, at);
    if number.kind != Kind::Number {
        return unformed(unfit(number, Why::APriority));
    }
    priority_of(text, number)
}
