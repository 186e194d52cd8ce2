// The dictionary of what a text declares, and the types above its rows.

ghost use Rattle.ways.specs.Ways.{Known};
ghost use Rattle.ways.specs.Props.{known_prop};

use crate::types::Types;
use crate::{above, implementation_of};
use index::{DECLARED, Dictionary};
use keys::Key;
use rows::Sort;

#[derive(Clone, Copy)]
pub struct Names<'a> {
    pub declared: Dictionary<'a, DECLARED>,
    pub types: &'a [u32],
    pub ghost known: { Known declared.text.now declared.rows.memory.now declared.tree.now types.now declared.rows.count } by { known_prop },
}

impl<'a> Names<'a> {
    ghost use Rattle.std.specs.Prelude.{ℕ, ◌≡◌, ◌<◌, ◌∷◌, IfSome};
    ghost use Rattle.keys.specs.Keys.{key};
    ghost use Rattle.rows.specs.Rows.{row_words, a_port};
    ghost use Rattle.index.specs.Options.{row_of, value_of};
    ghost use Rattle.index.specs.Index.{cell};
    ghost use Rattle.ways.specs.Named.{text_of, all_rows};
    ghost use Rattle.ways.specs.Ways.{above, look, first_in, given, implementation_of, property_of, port_of, ends_of};

    // The rows with the types above them.
    pub fn ways(&self) -> Types<'a>
        ensures rows { result.rows ≡ self.now.declared.rows }
        ensures above { result.above.now ≡ self.now.types.now }
    {
        let rows = self.declared.rows;
        let above = self.types;
        Types { rows, above }
    }

    // The type above row k.
    pub fn above(&self, k: usize) -> Option<usize>
        requires { k < self.now.declared.rows.count }
        ensures is { result ≡ row_of (above (text_of self.now) (all_rows self.now) k) }
        ensures within { IfSome result (λ j. j < self.now.declared.rows.count) }
    {
        above(self.types, self.declared.rows.count, k)
    }

    // What thread k has in a column, or else the implementation that it names.
    fn own_or_given(&self, k: usize, c: usize) -> Option<usize>
        requires { (k < self.now.declared.rows.count) × (c < row_words) }
        ensures { result ≡ value_of (first_in (λ (j : ℕ). cell (all_rows self.now) j c)
            (k ∷ given (implementation_of (text_of self.now) (all_rows self.now) k))) }
    {
        let rows = self.declared.rows;
        if let Some(own) = rows.value(k, c) {
            return Some(own);
        }
        let implementation = implementation_of(&self.declared, k)?;
        rows.value(implementation, c)
    }

    // A property of thread k: its own, or else its implementation's, or else that of its type and the types above.
    pub fn property_of(&self, k: usize, c: usize) -> Option<usize>
        requires { (k < self.now.declared.rows.count) × (c < row_words) }
        ensures { result ≡ value_of (property_of (text_of self.now) (all_rows self.now) k c) }
    {
        if let Some(value) = self.own_or_given(k, c) {
            return Some(value);
        }
        self.ways().value_on_way(self.above(k), c)
    }

    // The port of type j by its NAME.
    fn port_named(&self, j: usize, name: usize) -> Option<usize>
        requires { j < self.now.declared.rows.count }
        ensures { result ≡ row_of (look (text_of self.now) 0 (all_rows self.now)
            (key a_port (cell (all_rows self.now) j 2) name 0 0)) }
    {
        self.declared.find(Key {
            sort: Sort::Port as usize,
            within: self.declared.rows.cell(j, 2),
            first: name,
            ..Key::NONE
        })
    }

    // The port of thread k by its NAME: its type's, or that of a type above.
    pub fn port_of(&self, k: usize, name: usize) -> Option<usize>
        requires { k < self.now.declared.rows.count }
        ensures is { result ≡ row_of (port_of (text_of self.now) (all_rows self.now) k name) }
        ensures within { IfSome result (λ j. j < self.now.declared.rows.count) }
    {
        self.ways()
            .first_on_way(self.above(k), |j| self.port_named(j, name))
    }

    // Whether the way along the types of thread k comes to a type that extends none.
    pub fn way_ends(&self, k: usize) -> bool
        requires { k < self.now.declared.rows.count }
        ensures { result ≡ ends_of (text_of self.now) (all_rows self.now) k }
    {
        self.ways().way_ends(self.above(k))
    }
}
