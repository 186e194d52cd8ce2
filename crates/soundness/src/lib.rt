// Rule 7: what a plan that is handed in has to keep. Every call on a plan asks it first.
#![tactic(auto)]

pub mod square; // square.rt: which task sends into which queue, by rows

ghost use Rattle.std.specs.Prelude.{◌≡◌, ◌≤◌};
ghost use Rattle.plan.specs.Limits.{queue_limit};
ghost use Rattle.plan.specs.Rules.{place_good, places_good, sound_plan};

use plan::Plan;

fn place_good(size: usize, place: usize, before: usize) -> bool
    ensures { result ≡ place_good size place before }
{
    (1..=Plan::MOST_SLOTS).contains(&size) && place == before
}

// Sizes and places: one sum runs along the queues, and is the place of the next one. A size over the limit is refused before it is
// added, so the sum stays small.
fn places_good(plan: &Plan) -> bool
    requires { plan.now.queues ≤ queue_limit }
    ensures { result ≡ places_good plan.now }
{
    let mut total = 0;
    for q in 0..plan.queues {
        let size = plan.size[q];
        if !place_good(size, plan.place[q], total) {
            return false;
        }
        total += size;
    }
    total <= Plan::MOST_SLOTS
}

// Rule 7: the plan keeps rules 1 to 3, and its sizes and places are good.
pub fn sound(plan: &Plan) -> bool
    ensures { result ≡ sound_plan plan.now }
{
    if !rules::counts_good(plan.tasks, plan.queues) {
        return false;
    }
    if rules::first_bad_task(&plan.period, &plan.deadline, plan.tasks).is_some() {
        return false;
    }
    let square = square::square_of(&plan.sends);
    if rules::first_bad_queue(square, &plan.receiver, plan.tasks, plan.queues).is_some() {
        return false;
    }
    places_good(plan)
}
