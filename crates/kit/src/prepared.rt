// What the table of a text is made of: what its names mean, and the dictionaries of its connections by their ends and by their queues.

ghost use Rattle.std.proofs.Props.{props};
ghost use Rattle.index.specs.Props.{indexed_prop};
ghost use Rattle.index.specs.Held.{rows_of};
ghost use Rattle.ways.specs.Named.{InRole};
ghost use Rattle.kit.specs.Kit.{Ranked, ranked_prop};

use index::{Dictionary, QUEUED};
use verdict::Joined;

// No Priority of the rows is over 255.
#[derive(Clone, Copy)]
pub struct Prepared<'a> {
    pub joined: Joined<'a>,
    pub queued: &'a [u32],
    pub ghost queues: { InRole 2 joined.names queued.now } by { indexed_prop },
    pub ghost ranked: { Ranked (rows_of joined.names.declared.rows) } by { ranked_prop },
}

impl<'a> Prepared<'a> {
    ghost use Rattle.std.specs.Prelude.{◌≡◌};

    // The dictionary of the queues.
    pub(crate) fn queues(&self) -> Dictionary<'a, QUEUED>
        ensures text { result.text.now ≡ self.now.joined.names.declared.text.now }
        ensures rows { result.rows ≡ self.now.joined.names.declared.rows }
    {
        let text = self.joined.names.declared.text;
        let rows = self.joined.names.declared.rows;
        let tree = self.queued;
        Dictionary { text, rows, tree }
    }
}
