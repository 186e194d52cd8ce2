// What a text is judged by: what its names mean, and the dictionary of its connections by their ends.

ghost use Rattle.index.specs.Props.{indexed_prop};
ghost use Rattle.ways.specs.Named.{InRole};

use index::{CONNECTED, Dictionary};
use ways::Names;

#[derive(Clone, Copy)]
pub struct Joined<'a> {
    pub names: Names<'a>,
    pub connected: &'a [u32],
    pub ghost connections: { InRole 1 names connected.now } by { indexed_prop },
}

impl<'a> Joined<'a> {
    ghost use Rattle.std.specs.Prelude.{◌≡◌};

    // The dictionary of the connections.
    pub fn connections(&self) -> Dictionary<'a, CONNECTED>
        ensures text { result.text.now ≡ self.now.names.declared.text.now }
        ensures rows { result.rows ≡ self.now.names.declared.rows }
    {
        let text = self.names.declared.text;
        let rows = self.names.declared.rows;
        let tree = self.connected;
        Dictionary { text, rows, tree }
    }
}
