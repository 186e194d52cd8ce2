// Start: the plan's slots cleared.
ghost use Rattle.std.specs.Prelude.{◌≡◌};
ghost use Rattle.running.specs.Calls.{start_answer, start_memory};

use plan::Plan;
use plan::refusal::{Refusal, Rule};

// What a start answers; where it accepts the plan it clears its slots.
pub fn started(plan: Plan, memory: &mut [u8]) -> Result<(), Refusal>
    ensures { (result ≡ start_answer plan memory.old) × (memory.new ≡ start_memory plan memory.old) }
{
    if !soundness::sound(&plan) {
        return Err(Refusal::unnamed(Rule::UnsoundPlan));
    }
    judge::judge_start(&plan, memory)?;
    slots::clear(memory, judge::slots_of(&plan));
    Ok(())
}
