// The threads and the queues that were chosen of a text's rows, and what the table says of them.

ghost use Rattle.std.specs.Prelude.{◌≡◌};
ghost use Rattle.std.specs.Coded.{Coded-set};
ghost use Rattle.ways.specs.Named.{text_of, all_rows};
ghost use Rattle.chosen.specs.Chosen.{threads_of, queues_of, chosen};

use crate::{figure, place_of};
use chosen::Chosen;
use index::CONNECTED;
use keys::Key;
use plan::Plan;
use rows::Sort;
use std::array;
use verdict::Joined;
use ways::thread_named;

#[derive(Drop)]
pub(crate) struct Sources<'a> {
    pub joined: Joined<'a>,
    pub threads: Chosen,
    pub queues: Chosen,
    pub ghost threads_are: { threads ≡ chosen (threads_of (all_rows joined.names)) } by { Coded-set threads-code _ _ },
    pub ghost queues_are: { queues ≡ chosen (queues_of (text_of joined.names) (all_rows joined.names)) } by { Coded-set queues-code _ _ },
}

impl<'a> Sources<'a> {
    ghost use Rattle.std.specs.Prelude.{Some, None, ◌<◌, IfSome};
    ghost use Rattle.common.specs.Table.{table};
    ghost use Rattle.rows.specs.Rows.{row_words};
    ghost use Rattle.plan.specs.Limits.{task_limit, queue_limit, cell_limit};
    ghost use Rattle.chosen.specs.Chosen.{at_or};
    ghost use Rattle.kit.specs.Kit.{figure_of, receiver_of, joins, sends_at};

    // Thread i, where there are so many.
    fn thread(&self, i: usize) -> Option<usize>
        requires { i < task_limit }
        ensures is { result ≡ at_or (threads_of (all_rows self.now.joined.names)) Some None i }
        ensures within { IfSome result (λ k. k < self.now.joined.names.declared.rows.count) }
    {
        self.threads.row(i)
    }

    // The first connection to queue j, where there are so many.
    fn queue(&self, j: usize) -> Option<usize>
        requires { j < task_limit }
        ensures is { result ≡ at_or (queues_of (text_of self.now.joined.names) (all_rows self.now.joined.names)) Some None j }
        ensures within { IfSome result (λ q. q < self.now.joined.names.declared.rows.count) }
    {
        self.queues.row(j)
    }

    // A figure of task i by its column, where there are so many.
    fn figure_at(&self, i: usize, c: usize) -> u64
        requires { (i < task_limit) × (c < row_words) }
        ensures { result ≡ at_or (threads_of (all_rows self.now.joined.names))
            (figure_of (text_of self.now.joined.names) (all_rows self.now.joined.names) c) 0 i }
    {
        match self.thread(i) {
            Some(k) => figure(&self.joined.names, k, c),
            None => 0,
        }
    }

    pub(crate) fn figures(&self, c: usize) -> [u64; Plan::TASKS]
        requires { c < row_words }
        ensures { result ≡ table (at_or (threads_of (all_rows self.now.joined.names))
            (figure_of (text_of self.now.joined.names) (all_rows self.now.joined.names) c) 0) task_limit }
    {
        array::from_fn(|i| self.figure_at(i, c))
    }

    // The task that receives from queue j, where there are so many.
    fn receiver_at(&self, j: usize) -> usize
        requires { j < queue_limit }
        ensures { result ≡ at_or (queues_of (text_of self.now.joined.names) (all_rows self.now.joined.names))
            (receiver_of (text_of self.now.joined.names) (all_rows self.now.joined.names)) 0 j }
    {
        let Some(q) = self.queue(j) else {
            return 0;
        };
        let declared = &self.joined.names.declared;
        let thread = thread_named(declared, declared.rows.cell(q, 1), declared.rows.cell(q, 6));
        place_of(thread, &self.threads.rows)
    }

    pub(crate) fn receivers(&self) -> [usize; Plan::QUEUES]
        ensures { result ≡ table (at_or (queues_of (text_of self.now.joined.names) (all_rows self.now.joined.names))
            (receiver_of (text_of self.now.joined.names) (all_rows self.now.joined.names)) 0) queue_limit }
    {
        array::from_fn(|j| self.receiver_at(j))
    }

    // Whether some connection joins thread k with the queue of connection q.
    fn joins(&self, q: usize, k: usize) -> bool
        requires { (q < self.now.joined.names.declared.rows.count) × (k < self.now.joined.names.declared.rows.count) }
        ensures { result ≡ joins (text_of self.now.joined.names) (all_rows self.now.joined.names) q k }
    {
        let rows = &self.joined.names.declared.rows;
        let key = Key {
            sort: Sort::Connection as usize,
            within: rows.cell(q, 1),
            first: rows.cell(k, 2),
            second: rows.cell(q, 6),
            third: rows.cell(q, 7),
        };
        self.joined.connections().find(key).is_some()
    }

    // Whether a task sends into a queue, where there are so many of both.
    fn sends_at(&self, c: usize) -> bool
        requires { c < cell_limit }
        ensures { result ≡ sends_at (text_of self.now.joined.names) (all_rows self.now.joined.names)
            (threads_of (all_rows self.now.joined.names)) (queues_of (text_of self.now.joined.names) (all_rows self.now.joined.names)) c }
    {
        let Some(q) = self.queue(c / Plan::TASKS) else {
            return false;
        };
        match self.thread(c % Plan::TASKS) {
            Some(k) => self.joins(q, k),
            None => false,
        }
    }

    pub(crate) fn senders(&self) -> [bool; Plan::CELLS]
        ensures { result ≡ table (sends_at (text_of self.now.joined.names) (all_rows self.now.joined.names)
            (threads_of (all_rows self.now.joined.names)) (queues_of (text_of self.now.joined.names) (all_rows self.now.joined.names))) cell_limit }
    {
        array::from_fn(|c| self.sends_at(c))
    }
}
