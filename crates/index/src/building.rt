// How a dictionary grows, row by row, in memory that the caller lends.

ghost use Rattle.std.specs.Prelude.{◌≡◌, ◌+◌, ◌*◌, ◌<◌, ◌≤◌};
ghost use Rattle.common.specs.Words.{length};
ghost use Rattle.keys.specs.Keys.{meant};
ghost use Rattle.rows.specs.Rows.{row_words};
ghost use Rattle.index.specs.Trees.{walk, linked};
ghost use Rattle.index.specs.Index.{rows_in, row_at, key_by, keys_of, most_rows, Indexed};

use crate::dictionary::Dictionary;
use crate::held::Rows;
use crate::key_at;

// What a slot holds when an entry is linked there: a free one the entry, another what it held.
fn linked(held: u32, entry: u32) -> u32
    ensures { result ≡ linked held entry }
{
    if held == 0 { entry } else { held }
}

// The slot of row k among the rows before it: the entry of the first that has its key, or a free one.
fn slot_among<'a, const ROLE: usize>(
    text: &'a [u8],
    memory: &'a [usize],
    tree: &'a [u32],
    k: usize,
) -> usize
    requires { Indexed text.now ROLE memory.now tree.now k × (row_words * (k + 1) ≤ length memory.now) }
    ensures { (result ≡ walk tree.now (keys_of text.now ROLE (rows_in k memory.now))
        (meant text.now (key_by ROLE (row_at memory.now k))))
        × (result < 2 * k + 2) }
{
    let rows = Rows { memory, count: k };
    let before = Dictionary::<ROLE> { text, rows, tree };
    before.slot_of(key_at(memory, ROLE, k))
}

// Row k more. Where a row before it has its key, that one stays the one that is found.
fn enter<const ROLE: usize>(text: &[u8], memory: &[usize], tree: &mut [u32], k: usize)
    requires { Indexed text.now ROLE memory.now tree.old k × (row_words * (k + 1) ≤ length memory.now) × (k + 1 < most_rows)
        × (2 * (k + 1) + 2 ≤ length tree.old) }
    ensures { Indexed text.now ROLE memory.now tree.new (k + 1) }
{
    let slot = slot_among::<ROLE>(text, memory, tree, k);
    tree[2 * k + 2] = 0;
    tree[2 * k + 3] = 0;
    tree[slot] = linked(tree[slot], (k + 1) as u32);
}

// Builds the dictionary of rows in a role, whatever the memory held before.
pub fn build<const ROLE: usize>(text: &[u8], rows: &Rows<'_>, tree: &mut [u32])
    requires { (rows.now.count < most_rows) × (2 * rows.now.count + 2 ≤ length tree.old) }
    ensures { Indexed text.now ROLE rows.now.memory.now tree.new rows.now.count }
{
    tree[0] = 0;
    tree[1] = 0;
    for k in 0..rows.count {
        enter::<ROLE>(text, rows.memory, tree, k);
    }
}
