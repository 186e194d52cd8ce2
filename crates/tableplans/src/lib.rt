// What reading a text came to, with what planning makes of its table. It leans on the reader's findings and on planning, and not on the
// reader: to prove it, of what stands below the reader only `steps` and `words` are loaded, where a refusal and its kinds are declared.
#![tactic(auto)]

ghost use Rattle.std.specs.Prelude.{◌≡◌};
ghost use Rattle.tableplans.specs.TablePlans.{planned, planning_says, unplanned, with_plan, import_by};

use findings::{Read, Table};
use plan::Plan;
use planning::Planned;
use soundness::square::square_of;

// Why a text has no plan: the reader refuses the text, or planning the table of a sound text. NoRoom is for memory that is too short for
// some text.
#[derive(Clone, Copy, PartialEq, Eq)]
pub enum Problem {
    TextRefused(findings::Refusal),
    TableRefused(plan::refusal::Refusal),
    NoRoom,
}

// The answer, the reader's table and planning's plan: each that of all zeros where there is none (unsound_zeros says so of any text).
#[derive(Drop)]
pub struct Import {
    pub answer: Result<(), Problem>,
    pub table: Table,
    pub plan: Plan,
}

#[tactic(auto, unfolding(crate::specs::TablePlans::planned))]
fn plan_of(table: &Table) -> Planned
    ensures { result ≡ planned table.now }
{
    planning::make_plan(
        table.tasks,
        table.queues,
        table.period,
        table.deadline,
        table.priority,
        table.receiver,
        square_of(&table.sends),
    )
}

// A table with what planning makes of it.
fn with_plan(table: Table) -> Import
    ensures { result ≡ with_plan table (planned table) }
{
    let Planned { answer, plan } = plan_of(&table);
    Import {
        answer: answer.map_err(Problem::TableRefused),
        table,
        plan,
    }
}

fn unplanned(problem: Problem, table: Table) -> Import
    ensures { result ≡ unplanned problem table }
{
    Import {
        answer: Err(problem),
        table,
        plan: Plan::zeros(),
    }
}

// What a text comes to, by the reader's answer.
#[tactic(auto, unfolding(crate::specs::TablePlans::import_by))]
pub fn import_by(read: Read) -> Import
    ensures { result ≡ import_by read.answer read.table }
{
    let Read { answer, table } = read;
    match answer {
        Ok(()) => with_plan(table),
        Err(findings::Problem::Refused(refusal)) => {
            unplanned(Problem::TextRefused(refusal), table)
        }
        Err(findings::Problem::NoRoom) => unplanned(Problem::NoRoom, table),
    }
}
