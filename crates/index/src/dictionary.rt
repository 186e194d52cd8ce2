// A dictionary over the rows that a text declares: for a key, the first row that has it. It is a tree over the bits of the keys' hashes, in
// memory that the caller lends, and answers after about as many steps as the number of rows has bits.

ghost use Rattle.std.specs.Prelude.{◌≡◌, ◌+◌, ◌*◌, ◌<◌, ◌≤◌, IfSome};
ghost use Rattle.index.specs.Index.{Indexed};
ghost use Rattle.index.specs.Props.{indexed_prop};

use crate::held::Rows;
use crate::{key_at, row_in};
use keys::{Key, hash_of, same_key};

#[derive(Clone, Copy)]
pub struct Dictionary<'a, const ROLE: usize> {
    pub text: &'a [u8],
    pub rows: Rows<'a>,
    pub tree: &'a [u32],
    pub ghost indexed: { Indexed text.now ROLE rows.memory.now tree.now rows.count } by { indexed_prop },
}

// An entry as a number.
fn wide(entry: u32) -> usize
    ensures { (result ≡ entry) × (result < 0x1_0000_0000) }
{
    entry as usize
}

impl<'a, const ROLE: usize> Dictionary<'a, ROLE> {
    ghost use Rattle.common.specs.Words.{suc, [], eqb, get_or};
    ghost use Rattle.keys.specs.Keys.{meant};
    ghost use Rattle.index.specs.Trees.{walk};
    ghost use Rattle.index.specs.Found.{found};
    ghost use Rattle.index.specs.Options.{row_of};
    ghost use Rattle.index.specs.Index.{row_at, key_by, keys_of};
    ghost use Rattle.index.specs.Held.{rows_of};

    // The slot where a search ends: it holds the key's entry, or it is free.
    pub(crate) fn slot_of(&self, key: Key) -> usize
        ensures { (result ≡ walk self.now.tree.now (keys_of self.now.text.now ROLE (rows_of self.now.rows))
            (meant self.now.text.now key))
            × (result < 2 * self.now.rows.count + 2) }
    {
        let tree = self.tree;
        let mut slot: usize = 0;
        let mut hash = hash_of(self.text, key);
        while tree[slot] != 0 {
            let entry = wide(tree[slot]);
            if same_key(self.text, key_at(self.rows.memory, ROLE, entry - 1), key) {
                return slot;
            }
            slot = 2 * entry + hash % 2;
            hash = hash / 2;
        }
        slot
    }

    // The first row that has a key.
    pub fn find(&self, key: Key) -> Option<usize>
        ensures is { result ≡ row_of (found (meant self.now.text.now key) (keys_of self.now.text.now ROLE (rows_of self.now.rows))) }
        ensures within { IfSome result (λ k. k < self.now.rows.count) }
    {
        row_in(self.tree[self.slot_of(key)])
    }

    // The first row that has the key of row k: k itself where no row before it has it.
    pub fn first_like(&self, k: usize) -> Option<usize>
        requires { k < self.now.rows.count }
        ensures { result ≡ row_of (found (meant self.now.text.now (key_by ROLE (row_at self.now.rows.memory.now k)))
            (keys_of self.now.text.now ROLE (rows_of self.now.rows))) }
    {
        self.find(key_at(self.rows.memory, ROLE, k))
    }

    // Whether no row before row k has its key.
    pub fn is_first(&self, k: usize) -> bool
        requires { k < self.now.rows.count }
        ensures { result ≡ eqb (found (meant self.now.text.now (key_by ROLE (get_or (rows_of self.now.rows) k [])))
            (keys_of self.now.text.now ROLE (rows_of self.now.rows))) (suc k) }
    {
        self.first_like(k) == Some(k)
    }
}
