// Which declaration a name means, and the way from a thread's type to the types that this one extends: 8 types at most, along which its
// properties and its ports are looked for. The type above each row is found once and kept, in memory that the caller lends.
#![tactic(auto)]

ghost use Rattle.std.specs.Prelude.{◌≡◌, ◌<◌, ◌≤◌, IfSome};
ghost use Rattle.common.specs.Words.{length, get_or};
ghost use Rattle.index.specs.Options.{row_of, number_in};
ghost use Rattle.index.specs.Index.{Indexed};
ghost use Rattle.index.specs.Held.{rows_of};
ghost use Rattle.ways.specs.Ways.{type_named, implementation_of, thread_named, Bounded, Known};

mod names;
mod types;

use index::{DECLARED, Dictionary, row_in};
use keys::Key;
pub use names::Names;
use rows::Sort;
pub use types::Types;

// A row's number, counted from 1, and 0 for none: so it is kept in memory.
fn number_in(row: Option<usize>) -> usize
    requires { IfSome row (λ k. k < 0x1_0000_0000) }
    ensures { result ≡ number_in row }
{
    row.map_or(0, |k| k + 1)
}

// A thread type by its NAME, where a NAME is given.
fn type_named(declared: &Dictionary<'_, DECLARED>, name: usize) -> Option<usize>
    ensures is { result ≡ row_of (type_named declared.now.text.now (rows_of declared.now.rows) name) }
    ensures within { IfSome result (λ j. j < declared.now.rows.count) }
{
    if name == 0 {
        return None;
    }
    declared.find(Key {
        sort: Sort::Type as usize,
        first: name,
        ..Key::NONE
    })
}

// For each row the number of the type above it.
pub fn set_types(declared: &Dictionary<'_, DECLARED>, types: &mut [u32])
    requires { declared.now.rows.count ≤ length types.old }
    ensures { Known declared.now.text.now declared.now.rows.memory.now declared.now.tree.now types.new declared.now.rows.count }
{
    for k in 0..declared.rows.count {
        let above = type_named(declared, declared.rows.cell(k, 3));
        types[k] = number_in(above) as u32;
    }
}

// The thread of a process by its NAME.
pub fn thread_named(
    declared: &Dictionary<'_, DECLARED>,
    process: usize,
    name: usize,
) -> Option<usize>
    ensures is { result ≡ row_of (thread_named declared.now.text.now (rows_of declared.now.rows) process name) }
    ensures within { IfSome result (λ j. j < declared.now.rows.count) }
{
    declared.find(Key {
        sort: Sort::Thread as usize,
        within: process,
        first: name,
        ..Key::NONE
    })
}

// The implementation that thread k names.
pub fn implementation_of(declared: &Dictionary<'_, DECLARED>, k: usize) -> Option<usize>
    requires { k < declared.now.rows.count }
    ensures is { result ≡ row_of (implementation_of declared.now.text.now (rows_of declared.now.rows) k) }
    ensures within { IfSome result (λ j. j < declared.now.rows.count) }
{
    let own = declared.rows.cell(k, 4);
    if own == 0 {
        return None;
    }
    declared.find(Key {
        sort: Sort::Implementation as usize,
        first: declared.rows.cell(k, 3),
        second: own,
        ..Key::NONE
    })
}

// The type above row k.
pub fn above(types: &[u32], count: usize, k: usize) -> Option<usize>
    requires { Bounded types.now count × (k < count) }
    ensures is { result ≡ row_of (get_or types.now k 0) }
    ensures within { IfSome result (λ j. j < count) }
{
    row_in(types[k])
}
