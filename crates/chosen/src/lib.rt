// The rows of a text that its table is made of: its threads, and the first connection to each receiving port. Leans on the dictionary of
// queues that `index` built.
#![tactic(auto)]

ghost use Rattle.std.specs.Prelude.{Some, None, ◌≡◌, ◌<◌, ◌++◌, ◌∷◌, ◌&&◌};
ghost use Rattle.common.specs.Words.{[], List, ℕ, eqb};
ghost use Rattle.rows.specs.Rows.{a_link};
ghost use Rattle.index.specs.Index.{cell};
ghost use Rattle.index.specs.Held.{rows_of};
ghost use Rattle.verdict.specs.Verdict.{is_first};
ghost use Rattle.plan.specs.Limits.{task_limit};
ghost use Rattle.chosen.specs.Chosen.{threads_of, queues_of, chosen, at_or};

use index::{Dictionary, QUEUED, Rows};
use plan::Plan;
use rows::Sort;

// How many rows were chosen, and the first of them.
#[derive(Clone, Copy)]
pub struct Chosen {
    pub count: usize,
    pub rows: [usize; Plan::TASKS],
}

impl Chosen {
    const NONE: Chosen = Chosen {
        count: 0,
        rows: [0; Plan::TASKS],
    };

    // One row more.
    fn and(self, k: usize) -> Chosen
        requires { self.count < 0x8000_0000 }
        ensures { (ks : List ℕ) → self ≡ chosen ks → result ≡ chosen (ks ++ (k ∷ [])) }
    {
        let mut rows = self.rows;
        let count = self.count;
        if count < Plan::TASKS {
            rows[count] = k;
        }
        Chosen {
            count: count + 1,
            rows,
        }
    }

    // The row at i, where so many were chosen.
    pub fn row(&self, i: usize) -> Option<usize>
        requires { i < task_limit }
        ensures { (ks : List ℕ) → self.now ≡ chosen ks → result ≡ at_or ks Some None i }
    {
        if i < self.count {
            Some(self.rows[i])
        } else {
            None
        }
    }
}

// The threads, in text order.
pub fn threads(rows: &Rows<'_>) -> Chosen
    requires { rows.now.count < 0x8000_0000 }
    ensures { result ≡ chosen (threads_of (rows_of rows.now)) }
{
    let mut found = Chosen::NONE;
    for k in 0..rows.count {
        if rows.cell(k, 0) == Sort::Thread as usize {
            found = found.and(k);
        }
    }
    found
}

// Whether row k is the first connection to its queue.
fn is_queue(queued: &Dictionary<'_, QUEUED>, k: usize) -> bool
    requires { k < queued.now.rows.count }
    ensures { result ≡ (eqb (cell (rows_of queued.now.rows) k 0) a_link
        && is_first queued.now.text.now 2 (rows_of queued.now.rows) k) }
{
    queued.rows.cell(k, 0) == Sort::Link as usize && queued.is_first(k)
}

// The first connection to each queue.
pub fn queues(queued: &Dictionary<'_, QUEUED>) -> Chosen
    ensures { result ≡ chosen (queues_of queued.now.text.now (rows_of queued.now.rows)) }
{
    let mut found = Chosen::NONE;
    for k in 0..queued.rows.count {
        if is_queue(queued, k) {
            found = found.and(k);
        }
    }
    found
}
